// A text looked through line by line: its first refusal, or the two sums over its lines.
#![tactic(auto)]

ghost use Rattle.std.specs.Prelude.{◌≡◌, ◌+◌, ◌*◌, ◌≤◌, ◌<◌, ◌^◌, leb};
ghost use Rattle.modes.specs.declared.Reason.TheVariants.{WordOutside, BadLine, TooManyLadders};
ghost use Rattle.modes.specs.Answers.{refusal};
ghost use Rattle.modes.specs.Refusals.{need, or_else};
ghost use Rattle.decimals.specs.Ceiling.{up_to};
ghost use Rattle.scan.specs.Scanned.{scanned_of};

use lines::ReadLine;
use modes::{Reason, Refusal};

// Over all lines so far, as far as one above the ceiling: magnitudes times 2 to the ladder count, and 2 to the ladder count.
#[derive(Clone, Copy)]
pub struct Sums {
    pub burden: u64,
    pub spread: u64,
}

// 16, of a line that is none.
fn broken(place: u64) -> Refusal
    ensures { result ≡ refusal BadLine 0 place }
{
    Refusal {
        reason: Reason::BadLine,
        operand: 0,
        place,
    }
}

// 2 and 17 of the line at `place`, once it is read.
#[tactic(auto, unfolding(modes::specs::Refusals::or_else))]
fn line_refusal(x: ReadLine, place: u64) -> Result<(), Refusal>
    ensures { result ≡ or_else (need x.inside (refusal WordOutside 1 place)) (need (leb x.ladders 12) (refusal TooManyLadders 0 place)) }
{
    if !x.inside {
        return Err(Refusal {
            reason: Reason::WordOutside,
            operand: 1,
            place,
        });
    }
    if 12 < x.ladders {
        return Err(Refusal {
            reason: Reason::TooManyLadders,
            operand: 0,
            place,
        });
    }
    Ok(())
}

// The product of a magnitude and 2 to a ladder count may pass 64 bits, so it is judged by a quotient.
fn burden_of(magnitude: u64, spread: u64) -> u64
    requires { 0 < spread }
    ensures { (result ≡ up_to (magnitude * spread)) × (result ≤ 2 ^ 60 + 1) }
{
    if decimals::CEILING / spread < magnitude {
        return decimals::CEILING + 1;
    }
    magnitude * spread
}

// The sums with one line more.
fn with_line(s: Sums, x: ReadLine) -> Sums
    requires { (s.burden ≤ 2 ^ 60 + 1) × (s.spread ≤ 2 ^ 60 + 1) × (x.ladders ≤ 12) }
    ensures { (result.burden ≡ up_to (s.burden + x.magnitude * 2 ^ x.ladders)) × (result.spread ≡ up_to (s.spread + 2 ^ x.ladders)) }
{
    let rows = 1u64 << x.ladders;
    Sums {
        burden: decimals::up_to(s.burden + burden_of(x.magnitude, rows)),
        spread: decimals::up_to(s.spread + rows),
    }
}

// Any bytes as a text on m modes.
pub fn scan(m: u64, text: &[u8]) -> Result<Sums, Refusal>
    requires { m ≤ 64 }
    ensures { result ≡ scanned_of m text.now }
{
    let mut sums = Sums {
        burden: 0,
        spread: 0,
    };
    let mut at = 0;
    let mut place = 0;
    // a `while`, for each step ends where `piece_end` finds the line's end
    while at < text.len() {
        let end = lines::piece_end(text, at, b'\n');
        if end == text.len() {
            // the last line feed is missing
            return Err(broken(place));
        }
        let Some(x) = lines::read_line(&text[at..end], m) else {
            return Err(broken(place));
        };
        line_refusal(x, place)?;
        sums = with_line(sums, x);
        at = end + 1;
        place += 1;
    }
    Ok(sums)
}
