// Calls that write a record: two operands opened, what refuses a result, and rows delivered as a record.
#![tactic(auto)]

ghost use Rattle.std.specs.Prelude.{◌≡◌, ◌*◌, ◌≤◌, ◌<◌, length};
ghost use Rattle.modes.specs.Answers.{none};
ghost use Rattle.lent.specs.Rows.{rows_at};
ghost use Rattle.lent.specs.Outputs.{Gives};
ghost use Rattle.record.specs.Layout.{terms_in};
ghost use Rattle.record.specs.Reading.{Holds};
ghost use Rattle.results.specs.Results.{opened_of, result_refusal, result_of};
ghost use Rattle.results.specs.Tallies.{Tallied};

use modes::{Refusal, Written};

// Two records once both are checked: their modes, their numbers of terms and their weights.
#[derive(Clone, Copy)]
pub struct Opened {
    pub modes: u64,
    pub left: usize,
    pub right: usize,
    pub left_weight: u64,
    pub right_weight: u64,
}

// How many terms, and their weight.
#[derive(Clone, Copy)]
pub struct Tally {
    pub terms: usize,
    pub weight: u64,
}

// Both records' checks, and 6.
pub fn open_operands(a: &[u8], b: &[u8]) -> Result<Opened, Refusal>
    ensures { result ≡ opened_of a.now b.now }
{
    let p = record::check(a, 1)?;
    let q = record::check(b, 2)?;
    if p.modes != q.modes {
        return Err(Refusal::MODES_DIFFER);
    }
    Ok(Opened {
        modes: p.modes,
        left: p.terms,
        right: q.terms,
        left_weight: p.weight,
        right_weight: q.weight,
    })
}

// Numbers 10, 9 and 11 of a result of n terms and weight w.
pub fn verdict(room: usize, n: usize, w: u64) -> Result<(), Refusal>
    ensures { result ≡ result_refusal room n w }
{
    if modes::MOST_TERMS < n {
        return Err(Refusal::TOO_MANY_TERMS);
    }
    if record::HEAVIEST < w {
        return Err(Refusal::RESULT_TOO_HEAVY);
    }
    if room < record::length_of(n) {
        return Err(Refusal::OUTPUT_TOO_SHORT);
    }
    Ok(())
}

// The n rows at the front of the work, counted and weighed.
fn weigh_rows(work: &[u8], n: usize) -> Tally
    requires { 24 * n ≤ length work.now }
    ensures { Tallied (rows_at work.now 0 n) result }
{
    let mut w = 0;
    for i in 0..n {
        w = record::heavier(w, record::size(lent::get_row(work, 24 * i)));
    }
    Tally {
        terms: n,
        weight: w,
    }
}

// The n rows at the front of the work, to their places in the record.
fn put_rows(work: &[u8], n: usize, out: &mut [u8])
    requires { (24 * n ≤ length work.now) × Holds out.old n }
    ensures { terms_in out.new n ≡ rows_at work.now 0 n }
{
    for i in 0..n {
        record::put_term(out, n, i, lent::get_row(work, 24 * i));
    }
}

// The record of the n rows at the front of the work, or its refusal by 10, 9 or 11.
pub fn deliver(
    work: &[u8],
    n: usize,
    branches: u64,
    m: u64,
    out: &mut [u8],
) -> Result<Written, Refusal>
    requires { 24 * n ≤ length work.now }
    ensures { Gives (result_of (length out.old) branches none m (rows_at work.now 0 n)) result out.new }
{
    let t = weigh_rows(work, n);
    if let Err(refusal) = verdict(out.len(), n, t.weight) {
        return lent::refuse(out, refusal);
    }
    put_rows(work, n, out);
    Ok(record::finish(out, m, n, branches))
}
