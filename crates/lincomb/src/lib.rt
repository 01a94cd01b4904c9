// The sum and the difference of two records.
#![tactic(auto)]

ghost use Rattle.std.specs.Prelude.{◌≡◌, Ok, cond, ◌+◌, ◌≤◌, ◌<◌, ◌^◌, eqb, nat_abs, length};
ghost use Rattle.record.specs.Operands.{read_as};
ghost use Rattle.lent.specs.Outputs.{Gives, filled_output};
ghost use Rattle.record.specs.Layout.{encode};
ghost use Rattle.normal.specs.Normal.{drop_zeros};
ghost use Rattle.record.specs.Terms.{weight};
ghost use Rattle.record.specs.Reading.{Holds};
ghost use Rattle.lincomb.specs.Sums.{turn, combined, added, subtracted};
ghost use Rattle.lincomb.specs.Merging.{onward, Pulled};
ghost use Rattle.results.specs.Tallies.{Tallied};

use modes::{Refusal, Sign, Term, Written};
use record::Terms;
use results::Tally;

// A term, and how many terms of each record are taken with it.
#[derive(Clone, Copy)]
pub struct Step {
    pub term: Term,
    pub left: usize,
    pub right: usize,
}

// The term, or its negative where the sign is minus.
pub fn turned(sign: Sign, t: Term) -> Term
    requires { nat_abs t.coeff < 2 ^ 63 }
    ensures { result ≡ turn sign.0 t }
{
    if sign.0 {
        let coeff = integers::negated(t.coeff);
        return Term {
            cre: t.cre,
            ann: t.ann,
            coeff,
        };
    }
    t
}

// The next term of two records, the second with its sign.
pub fn next(sign: Sign, a: &Terms, i: usize, b: &Terms, j: usize) -> Step
    requires light { (weight a.now ≤ 2 ^ 60) × (weight b.now ≤ 2 ^ 60) }
    requires inside { (i ≤ length a.now) × (j ≤ length b.now) × (i + j < length a.now + length b.now) }
    ensures { Pulled sign.0 a.now i b.now j result }
{
    let na = a.len();
    let nb = b.len();
    if nb <= j {
        let t = a.get(i);
        return Step {
            term: t,
            left: i + 1,
            right: j,
        };
    }
    if na <= i {
        let u = turned(sign, b.get(j));
        return Step {
            term: u,
            left: i,
            right: j + 1,
        };
    }
    let t = a.get(i);
    let v = b.get(j);
    // The order is that of the words, whatever the sign.
    if record::is_before(t, v) {
        return Step {
            term: t,
            left: i + 1,
            right: j,
        };
    }
    let u = turned(sign, v);
    if record::is_before(v, t) {
        return Step {
            term: u,
            left: i,
            right: j + 1,
        };
    }
    let both = normal::joined(t, u);
    Step {
        term: both,
        left: i + 1,
        right: j + 1,
    }
}

// 0 for a coefficient of zero, which is dropped, and 1 for any other.
fn kept(size: u64) -> usize
    ensures { (result ≡ cond (eqb size 0) 0 1) × (result ≤ 1) }
{
    usize::from(size != 0)
}

// The result's terms counted and weighed, with nothing written.
fn count_terms(sign: Sign, a: &Terms, b: &Terms) -> Tally
    requires { (weight a.now ≤ 2 ^ 60) × (weight b.now ≤ 2 ^ 60) }
    ensures { Tallied (drop_zeros (onward sign.0 a.now 0 b.now 0)) result }
{
    let na = a.len();
    let nb = b.len();
    let mut i = 0;
    let mut j = 0;
    let mut n = 0;
    let mut w = 0;
    // A step takes a term of one record or of both, so no range counts the steps.
    while i < na || j < nb {
        let s = next(sign, a, i, b, j);
        let t = s.term;
        let k = record::size(t);
        n += kept(k);
        w += k;
        i = s.left;
        j = s.right;
    }
    Tally {
        terms: n,
        weight: w,
    }
}

// The record of the result's terms, of which there are n, with zeros past it.
fn write_sum(sign: Sign, a: &Terms, b: &Terms, out: &mut [u8], m: u64, n: usize) -> Written
    requires light { (weight a.now ≤ 2 ^ 60) × (weight b.now ≤ 2 ^ 60) }
    requires fits { (n ≡ length (drop_zeros (onward sign.0 a.now 0 b.now 0))) × Holds out.old n × (n ≤ 2048) }
    ensures { Gives (filled_output (length out.old) 0 (encode m (drop_zeros (onward sign.0 a.now 0 b.now 0)))) (Ok result) out.new }
{
    let na = a.len();
    let nb = b.len();
    let mut i = 0;
    let mut j = 0;
    let mut k = 0;
    // A step takes a term of one record or of both, so no range counts the steps.
    while i < na || j < nb {
        let s = next(sign, a, i, b, j);
        let t = s.term;
        if t.coeff != 0 {
            record::put_term(out, n, k, t);
            k += 1;
        }
        i = s.left;
        j = s.right;
    }
    record::finish(out, m, n, 0)
}

// The first record with the second, each of whose terms has the sign.
fn combine(sign: Sign, a: &[u8], b: &[u8], out: &mut [u8]) -> Result<Written, Refusal>
    ensures { Gives (combined sign.0 (length out.old) (read_as 1 a.now) (read_as 2 b.now)) result out.new }
{
    let p = match results::open_operands(a, b) {
        Ok(p) => p,
        Err(refusal) => return lent::refuse(out, refusal),
    };
    let left = Terms::of(a, p.left);
    let right = Terms::of(b, p.right);
    let t = count_terms(sign, &left, &right);
    if let Err(late) = results::verdict(out.len(), t.terms, t.weight) {
        return lent::refuse(out, late);
    }
    Ok(write_sum(sign, &left, &right, out, p.modes, t.terms))
}

// The record of the sum. This and the difference are two of zixy's names for `combine`.
pub fn add(a: &[u8], b: &[u8], out: &mut [u8]) -> Result<Written, Refusal>
    ensures { Gives (added (length out.old) (read_as 1 a.now) (read_as 2 b.now)) result out.new }
{
    combine(Sign::PLUS, a, b, out)
}

// The record of the difference.
pub fn sub(a: &[u8], b: &[u8], out: &mut [u8]) -> Result<Written, Refusal>
    ensures { Gives (subtracted (length out.old) (read_as 1 a.now) (read_as 2 b.now)) result out.new }
{
    combine(Sign::MINUS, a, b, out)
}
