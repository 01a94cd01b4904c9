// The product, the commutator and the anticommutator of two records.
#![tactic(auto)]

ghost use Rattle.std.specs.Prelude.{◌≡◌, is_some, length};
ghost use Rattle.record.specs.Operands.{read_as};
ghost use Rattle.lent.specs.Bytes.{zeros};
ghost use Rattle.lent.specs.Outputs.{Gives};
ghost use Rattle.pairs.specs.Products.{minus_of};
ghost use Rattle.multiply.specs.Answers.{weight_refusal, product_answer, product_of, commutator_of, anticommutator_of, Leaves};

use modes::{Refusal, Sign, Written};
use record::Terms;

// Number 8. The product of two weights may pass 64 bits, so it is judged by a quotient.
fn weight_refusal(v: u64, w: u64) -> Result<(), Refusal>
    ensures { result ≡ weight_refusal v w }
{
    if v != 0 {
        if record::HEAVIEST / v < w {
            return Err(Refusal::PRODUCT_TOO_HEAVY);
        }
    }
    Ok(())
}

// The rows of two records that are open, joined and delivered: of a b, and of b a where it has a sign. The work is left as
// it is, for `finish` wipes it.
fn produce(
    other: Option<Sign>,
    a: &[u8],
    b: &[u8],
    work: &mut [u8],
    out: &mut [u8],
) -> Result<Written, Refusal>
    ensures { Gives (product_answer (is_some other) (minus_of other) (length work.old) (length out.old) (read_as 1 a.now) (read_as 2 b.now)) result out.new }
{
    let p = match results::open_operands(a, b) {
        Ok(p) => p,
        Err(refusal) => return lent::refuse(out, refusal),
    };
    if let Err(heavy) = weight_refusal(p.left_weight, p.right_weight) {
        return lent::refuse(out, heavy);
    }
    let left = Terms::of(a, p.left);
    let right = Terms::of(b, p.right);
    let s = pairs::append_all(other, work, &left, &right);
    if work.len() < s.held {
        return lent::refuse(out, Refusal::ROWS_DO_NOT_FIT);
    }
    let n = collect::collect(work, s.used / 24);
    results::deliver(work, n, (s.held / 24) as u64, p.modes, out)
}

// The one way out of every call: its answer, once the work is wiped.
fn finish(w: Result<Written, Refusal>, work: &mut [u8]) -> Result<Written, Refusal>
    ensures { (result ≡ w) × (work.new ≡ zeros (length work.old)) }
{
    lent::wipe(work);
    w
}

// One of the three answers, and a work all zero.
fn multiply(
    other: Option<Sign>,
    a: &[u8],
    b: &[u8],
    work: &mut [u8],
    out: &mut [u8],
) -> Result<Written, Refusal>
    ensures { Leaves (product_answer (is_some other) (minus_of other) (length work.old) (length out.old) (read_as 1 a.now) (read_as 2 b.now)) result out.new (length work.old) work.new }
{
    let w = produce(other, a, b, work, out);
    finish(w, work)
}

// The record of the product a b. This and the two below are three of zixy's names for `multiply`.
pub fn mul(a: &[u8], b: &[u8], work: &mut [u8], out: &mut [u8]) -> Result<Written, Refusal>
    ensures { Leaves (product_of (length work.old) (length out.old) (read_as 1 a.now) (read_as 2 b.now)) result out.new (length work.old) work.new }
{
    multiply(None, a, b, work, out)
}

// The record of the commutator a b - b a.
pub fn commutator(a: &[u8], b: &[u8], work: &mut [u8], out: &mut [u8]) -> Result<Written, Refusal>
    ensures { Leaves (commutator_of (length work.old) (length out.old) (read_as 1 a.now) (read_as 2 b.now)) result out.new (length work.old) work.new }
{
    multiply(Some(Sign::MINUS), a, b, work, out)
}

// The record of the anticommutator a b + b a.
pub fn anticommutator(
    a: &[u8],
    b: &[u8],
    work: &mut [u8],
    out: &mut [u8],
) -> Result<Written, Refusal>
    ensures { Leaves (anticommutator_of (length work.old) (length out.old) (read_as 1 a.now) (read_as 2 b.now)) result out.new (length work.old) work.new }
{
    multiply(Some(Sign::PLUS), a, b, work, out)
}
