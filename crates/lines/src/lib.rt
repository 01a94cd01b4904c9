// The grammar of ladder text: pieces of a text, and a line read.
#![tactic(auto)]

ghost use Rattle.std.specs.Prelude.{◌≡◌, ◌&&◌, ◌||◌, ◌+◌, ◌≤◌, ◌<◌, ◌^◌, eqb, ltb, length, drop};
ghost use Rattle.lines.specs.Grammar.{space, creates, annihilates, is_minus, magnitude_of};
ghost use Rattle.lines.specs.Reading.{front, rest, ladder_made, ladder_read, coefficient_made, coefficient_read};
ghost use Rattle.lines.specs.Reading.{ladders_made, ladders_read, line_made, line_read};

use modes::Sign;

// A field read as a ladder: what it does, and its mode, as far as one above the ceiling.
#[derive(Clone, Copy)]
pub struct ReadLadder {
    pub annihilates: bool,
    pub mode: u64,
}

// A field read as a coefficient: its sign, and its magnitude, as far as one above the ceiling.
#[derive(Clone, Copy)]
pub struct ReadCoefficient {
    pub sign: Sign,
    pub magnitude: u64,
}

// A line read: whether all its modes are below the number asked, how many ladders it has, and the magnitude of its
// coefficient, as far as one above the ceiling. `inside` is no test of the others, which stand either way.
#[derive(Clone, Copy)]
pub struct ReadLine {
    pub inside: bool,
    pub ladders: usize,
    pub magnitude: u64,
}

// The ladders of a line: whether all their modes are below the number asked, and how many.
#[derive(Clone, Copy)]
struct ReadLadders {
    inside: bool,
    count: usize,
}

// Where the piece that starts at `at` ends: before the first byte `mark` from there on, or with the bytes.
pub fn piece_end(s: &[u8], at: usize, mark: u8) -> usize
    requires { at ≤ length s.now }
    ensures { (result ≡ at + length (front mark (drop at s.now))) × (result ≤ length s.now) }
{
    for end in at..s.len() {
        if s[end] == mark {
            return end;
        }
    }
    s.len()
}

// Is it the byte of a creation or of an annihilation?
fn is_kind(b: u8) -> bool
    ensures { result ≡ (eqb b creates || eqb b annihilates) }
{
    matches!(b, b'^' | b'_')
}

// A mode with the byte after it.
fn with_kind(mode: u64, kind: u8) -> ReadLadder
    ensures { (result.annihilates ≡ eqb kind annihilates) × (result.mode ≡ mode) }
{
    ReadLadder {
        annihilates: kind == b'_',
        mode,
    }
}

// The ladder that any bytes make.
#[tactic(auto, using(crate::proofs::Fields::nothing_made), unfolding(crate::specs::Grammar::ladder_of))]
pub fn ladder_of(s: &[u8]) -> ReadLadder
    ensures { result ≡ ladder_made s.now }
{
    let [digits @ .., kind] = s else {
        // no bytes make the mode 0, created
        return with_kind(0, b'^');
    };
    with_kind(decimals::value_of(digits), *kind)
}

// Any bytes as a ladder.
#[tactic(auto, using(crate::proofs::Fields::no_bytes), unfolding(crate::specs::Grammar::is_ladder, crate::specs::Grammar::ladder_of))]
pub fn read_ladder(s: &[u8]) -> Option<ReadLadder>
    ensures { result ≡ ladder_read s.now }
{
    let [digits @ .., kind] = s else {
        return None;
    };
    if !is_kind(*kind) {
        return None;
    }
    let mode = decimals::read_number(digits)?;
    Some(with_kind(mode, *kind))
}

// Does the field start with a minus?
fn is_minus(s: &[u8]) -> bool
    ensures { result ≡ is_minus s.now }
{
    matches!(s, [b'-', ..])
}

// The field without its minus.
#[tactic(auto, using(crate::proofs::Fields::after_minus), unfolding(crate::specs::Grammar::magnitude_of))]
fn magnitude_of(s: &[u8]) -> &[u8]
    ensures { result.now ≡ magnitude_of s.now }
{
    if is_minus(s) { &s[1..] } else { s }
}

// A magnitude with the sign of its field.
fn with_sign(magnitude: u64, s: &[u8]) -> ReadCoefficient
    ensures { (result.sign.0 ≡ is_minus s.now) × (result.magnitude ≡ magnitude) }
{
    ReadCoefficient {
        sign: Sign(is_minus(s)),
        magnitude,
    }
}

// The coefficient that any bytes make.
pub fn coefficient_of(s: &[u8]) -> ReadCoefficient
    ensures { result ≡ coefficient_made s.now }
{
    with_sign(decimals::value_of(magnitude_of(s)), s)
}

// Any bytes as a coefficient.
pub fn read_coefficient(s: &[u8]) -> Option<ReadCoefficient>
    ensures { result ≡ coefficient_read s.now }
{
    let magnitude = decimals::read_number(magnitude_of(s))?;
    Some(with_sign(magnitude, s))
}

// One ladder more.
fn one_more(x: ReadLadders, ladder: ReadLadder, m: u64) -> ReadLadders
    requires { x.count < 2 ^ 63 }
    ensures { (result.inside ≡ (x.inside && ltb ladder.mode m)) × (result.count ≡ x.count + 1) }
{
    ReadLadders {
        inside: x.inside && ladder.mode < m,
        count: x.count + 1,
    }
}

// The ladders that the fields of a line make, after a coefficient that ends at `at`.
fn ladders_of(line: &[u8], at: usize, m: u64) -> ReadLadders
    requires { (at ≤ length line.now) × (m ≤ 64) }
    ensures { result ≡ ladders_made m (rest space (drop at line.now)) }
{
    let mut x = ReadLadders {
        inside: true,
        count: 0,
    };
    let mut end = at;
    // a `while`, for each step ends where `piece_end` finds the field's end
    while end < line.len() {
        let from = end + 1;
        end = piece_end(line, from, b' ');
        x = one_more(x, ladder_of(&line[from..end]), m);
    }
    x
}

// The ladders of a line whose coefficient ends at `at`.
fn read_ladders(line: &[u8], at: usize, m: u64) -> Option<ReadLadders>
    requires { (at ≤ length line.now) × (m ≤ 64) }
    ensures { result ≡ ladders_read m (rest space (drop at line.now)) }
{
    let mut x = ReadLadders {
        inside: true,
        count: 0,
    };
    let mut end = at;
    // a `while`, for each step ends where `piece_end` finds the field's end
    while end < line.len() {
        let from = end + 1;
        end = piece_end(line, from, b' ');
        x = one_more(x, read_ladder(&line[from..end])?, m);
    }
    Some(x)
}

// The line that any bytes make, with modes below m.
pub fn line_of(line: &[u8], m: u64) -> ReadLine
    requires { m ≤ 64 }
    ensures { result ≡ line_made m line.now }
{
    let end = piece_end(line, 0, b' ');
    let c = coefficient_of(&line[..end]);
    let x = ladders_of(line, end, m);
    ReadLine {
        inside: x.inside,
        ladders: x.count,
        magnitude: c.magnitude,
    }
}

// Any bytes as a line, with modes below m.
pub fn read_line(line: &[u8], m: u64) -> Option<ReadLine>
    requires { m ≤ 64 }
    ensures { result ≡ line_read m line.now }
{
    let end = piece_end(line, 0, b' ');
    let c = read_coefficient(&line[..end])?;
    let x = read_ladders(line, end, m)?;
    Some(ReadLine {
        inside: x.inside,
        ladders: x.count,
        magnitude: c.magnitude,
    })
}
