// The check of a record, and in the same walk how many of its terms have each rank, and their weight. The walk ends where the check
// ends. What refuses the record is told behind the loop, from the place alone, which leaves the compiler registers for the terms.
#![tactic(auto)]

ghost use Rattle.std.specs.Prelude.{◌≡◌, ◌+◌, ◌^◌, ◌<◌, ◌≤◌, true};
ghost use Rattle.record.specs.Layout.{laid_out, modes_of, count_of};
ghost use Rattle.tally.specs.Tallies.{none_yet, Tallies};
ghost use Rattle.tally.specs.Walks.{comes_after, takes_next, seen_with, is_light, Walked, Judges};

use modes::{ModeSpace, Reason, Refusal, Term};
use record::{Checked, Terms};

// 2^61. A sum in 64 bits that was below it all the way did not wrap, for no step is above 2^63.
const TOO_HIGH: u64 = 2_305_843_009_213_693_952;

// What was seen of terms: the last one, the sum of their magnitudes in 64 bits, and all bits that the sum had on the way, so that one
// test finds whether it wrapped.
#[derive(Clone, Copy)]
struct Seen {
    last: Option<Term>,
    weight: u64,
    bits: u64,
}

impl Seen {
    // May t, of the magnitude k, come next? `top` is the word of all modes: to hold each word against it is quicker than a shift.
    fn takes(self, top: u64, t: Term, k: u64) -> bool
        ensures { result ≡ takes_next top t k self }
    {
        if k == 0 {
            return false;
        }
        if top < t.cre {
            return false;
        }
        if top < t.ann {
            return false;
        }
        record::follows(self.last, t)
    }

    // a term more, of the magnitude k
    fn with(self, t: Term, k: u64) -> Seen
        ensures { result ≡ seen_with t k self }
    {
        let weight = std::num::wrapping_add_u64(self.weight, k);
        Seen {
            last: Some(t),
            weight,
            bits: self.bits | weight,
        }
    }

    // Is their weight one that a record may have?
    fn is_light(self) -> bool
        ensures { result ≡ is_light self }
    {
        (self.bits < TOO_HIGH) & (self.weight <= record::HEAVIEST)
    }
}

// Where a walk over terms ended, and what it had seen of those before.
#[derive(Clone, Copy)]
struct Reached {
    seen: Seen,
    place: usize,
}

// The word of all of m modes.
fn all_modes(m: u64) -> u64
    requires { m ≤ 64 }
    ensures { result + 1 ≡ 2 ^ m }
{
    if m == 64 {
        return u64::MAX;
    }
    (1u64 << m) - 1
}

// The walk over terms on m modes, as far as each may stand where it stands.
fn walk(terms: &Terms, m: u64, counts: &mut [u64; 65], weights: &mut [u64; 65]) -> Reached
    requires { (m ≤ 64) × (counts.old ≡ none_yet) × (weights.old ≡ none_yet) }
    ensures { Walked m terms.now result counts.new weights.new }
{
    let n = terms.len();
    let top = all_modes(m);
    let mut seen = Seen {
        last: None,
        weight: 0,
        bits: 0,
    };
    for i in 0..n {
        let t = terms.get(i);
        let k = record::size(t);
        if !seen.takes(top, t, k) {
            return Reached { seen, place: i };
        }
        let at = figures::rank(t) as usize;
        counts[at] += 1;
        weights[at] = std::num::wrapping_add_u64(weights[at], k);
        seen = seen.with(t, k);
    }
    Reached { seen, place: n }
}

// What refuses the term at which a walk over terms ended, if it did not go to the end.
fn judge_end(terms: &Terms, m: u64, reached: Reached) -> Result<(), Refusal>
    ensures { Judges m terms.now reached result }
{
    if terms.len() <= reached.place {
        return Ok(());
    }
    let t = terms.get(reached.place);
    let up = record::follows(reached.seen.last, t);
    record::term_refusal(ModeSpace { count: m }, 1, reached.place as u64, up, t)
}

// The check of n terms on m modes, once the header is right, and their tally.
fn tally_terms(
    s: &[u8],
    m: u64,
    n: usize,
    counts: &mut [u64; 65],
    weights: &mut [u64; 65],
) -> Result<Checked, Refusal>
    requires { (laid_out s.now ≡ true) × (m ≡ modes_of s.now) × (n ≡ count_of s.now) × (counts.old ≡ none_yet) × (weights.old ≡ none_yet) }
    ensures { Tallies s.now result counts.new weights.new }
{
    let terms = Terms::of(s, n);
    let reached = walk(&terms, m, counts, weights);
    judge_end(&terms, m, reached)?;
    if !reached.seen.is_light() {
        return Err(Refusal {
            reason: Reason::TooHeavy,
            operand: 1,
            place: 0,
        });
    }
    Ok(Checked {
        modes: m,
        terms: n,
        weight: reached.seen.weight,
    })
}

// The check of a record, and the terms and weights of its ranks, counted from zeros. They tell nothing where it is refused. The columns
// are two, as the report has them.
#[tactic(auto, using(crate::proofs::Tallying::header_there))]
pub fn tally_record(
    s: &[u8],
    terms: &mut [u64; 65],
    weights: &mut [u64; 65],
) -> Result<Checked, Refusal>
    requires { (terms.old ≡ none_yet) × (weights.old ≡ none_yet) }
    ensures { Tallies s.now result terms.new weights.new }
{
    if !record::laid_out(s) {
        return record::check(s, 1);
    }
    let m = record::modes_of(s);
    let n = record::count_of(s);
    tally_terms(s, m, n, terms, weights)
}
