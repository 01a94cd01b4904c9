// Reads a ladder text from standard input, and writes its record on as many modes as its argument names, or the line
// `refused N O P`. The input is at most the longest text and one byte: a longer one is refused for that byte already.
#![tactic(auto)]

ghost use Rattle.std.specs.Prelude.{◌≡◌, ℕ, ◌<◌, ◌≤◌, length, take, IfOk, OnErr};
ghost use Rattle.std.specs.Io.{ReadsAtMost};
ghost use Rattle.std.specs.Io.KnownBytes.{Consumes, IsAtEnd};

use readers::read_full;
use std::env::{Env, FillError};
use std::io;
use std::io::Read;

// An argument of more bytes than these counts as an empty one: no mode count has more than two.
const WORD: usize = 8;

// Is there no argument after the first?
fn is_alone(env: &impl Env) -> bool {
    let mut second = [0u8; 1];
    matches!(env.arg(2, &mut second), Err(FillError::NotPresent))
}

// The length of the one argument, where it fits: 0 for none and for several.
fn argument(env: &impl Env, word: &mut [u8; WORD]) -> usize
    ensures within { result ≤ length word.new }
    ensures front { result ≡ length (take result word.new) }
{
    match env.arg(1, word) {
        Ok(len) if is_alone(env) => len,
        _ => 0,
    }
}

// Standard input, as far as it counts: to its end, or until one byte more than the longest text is read.
fn read_text<R: Read>(
    reader: &mut R,
    text: &mut [u8; text_reply::LONGEST_INPUT],
) -> io::Result<usize>
    ensures bound { ReadsAtMost result text.new }
    ensures bytes { IfOk result (λ n. Consumes (R.remaining reader.old) (R.remaining reader.new) (take n text.new)) }
    ensures end { IfOk result (λ n. n < length text.new → IsAtEnd (R.remaining reader.new)) }
    ensures err { OnErr result ((n : ℕ) × (n ≤ length text.new) × Consumes (R.remaining reader.old) (R.remaining reader.new) (take n text.new)) }
{
    read_full(reader, text)
}

fn main(rt: HostRuntime) -> io::Result<()> {
    let mut word = [0u8; WORD];
    let named = argument(&rt, &mut word);
    let mut text = [0u8; text_reply::LONGEST_INPUT];
    let read = read_text(&mut rt.reader(), &mut text)?;
    let mut out = [0u8; text_reply::ROOM];
    let len = text_reply::import_reply(&word[..named], &text[..read], &mut out);
    rt.write_all(&out[..len])
}
