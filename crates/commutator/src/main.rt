// Reads two records from standard input, one after the other, and writes the record of their commutator, or the line
// `refused N O P`. The input is at most two longest records and one byte: a longer one is refused for that byte already.
#![tactic(auto)]

use readers::read_full;
use std::io;

fn main(rt: HostRuntime) -> io::Result<()> {
    let mut input = [0u8; reply::LONGEST_INPUT];
    let read = read_full(&mut rt.reader(), &mut input)?;
    let mut out = [0u8; reply::ROOM];
    let len = reply::reply(&input[..read], &mut out);
    rt.write_all(&out[..len])
}
