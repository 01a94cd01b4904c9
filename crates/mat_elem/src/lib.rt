// Elements of a record between occupation words.
#![tactic(auto)]

ghost use Rattle.std.specs.Prelude.{◌≡◌, ◌+◌, ◌≤◌, ◌<◌, ◌^◌, nat_abs, length, get_or, take, drop};
ghost use Rattle.products.specs.Operators.{part, element};
ghost use Rattle.record.specs.Terms.{weight};
ghost use Rattle.record.specs.Operands.{read_as};
ghost use Rattle.modes.specs.Refusals.{first_refusal};
ghost use Rattle.mat_elem.specs.Elements.{element_of};
ghost use Rattle.mat_elem.specs.Passing.{passed};
ghost use Rattle.mat_elem.specs.Matrix.{outside_at, stands, repeat_at, basis_refusal, row_of, matrix_of, projected_of};

use modes::{ModeSpace, Reason, Refusal, Term};
use products::ApplyResult;
use record::Terms;

// What one term adds at (bra, ket).
fn part_of(t: Term, bra: u64, ket: u64) -> i64
    requires { nat_abs t.coeff < 2 ^ 63 }
    ensures { (result ≡ part bra ket t) × (nat_abs result ≤ nat_abs t.coeff) }
{
    let ApplyResult::Applied(word, sign) = products::apply_op_ket_u64(t.cre, t.ann, ket) else {
        return 0;
    };
    if word != bra {
        return 0;
    }
    products::signed_coeff(sign, t.coeff)
}

// The first term from `from` on that changes just the modes in which bra and ket differ, or their number where none does:
// the terms passed over do not take ket to bra. Most are, and nothing else is asked of them.
fn next_between(terms: &Terms, from: usize, bra: u64, ket: u64) -> usize
    requires { from ≤ length terms.now }
    ensures { (result ≡ from + passed bra ket (drop from terms.now)) × (result ≤ length terms.now) × (element bra ket (drop result terms.now) ≡ element bra ket (drop from terms.now)) }
{
    let n = terms.len();
    for i in from..n {
        let t = terms.get(i);
        if t.cre ^ t.ann == bra ^ ket {
            return i;
        }
    }
    n
}

// What the terms add. The sum stays within their weight, so that it never wraps.
// A `while`, since it jumps to the next term that can add: with a `for` that asks every term, a matrix took 1.3 to 1.5 times as long.
fn sum_parts(terms: &Terms, bra: u64, ket: u64) -> i64
    requires { weight terms.now ≤ 2 ^ 60 }
    ensures { result ≡ element bra ket terms.now }
{
    let n = terms.len();
    let mut sum: i64 = 0;
    let mut i = next_between(terms, 0, bra, ket);
    while i < n {
        let t = terms.get(i);
        sum = integers::sum(sum, part_of(t, bra, ket));
        i = next_between(terms, i + 1, bra, ket);
    }
    sum
}

// The exact element of the record at (bra, ket): the operator is checked first, then the bra, then the ket.
pub fn element(a: &[u8], bra: u64, ket: u64) -> Result<i64, Refusal>
    ensures { result ≡ element_of (read_as 1 a.now) bra ket }
{
    let c = record::check(a, 1)?;
    modes::words_refusal(ModeSpace { count: c.modes }, bra, ket)?;
    let terms = Terms::of(a, c.terms);
    Ok(sum_parts(&terms, bra, ket))
}

// The most words that a basis may have.
pub const MOST_WORDS: usize = 8;

// A row of the projected matrix: one bra, and an entry for each ket.
#[derive(Clone, Copy)]
pub struct Row {
    pub entries: [i64; 8],
}

// Number 12 of the first basis word that holds a mode outside.
fn outside_refusal(space: ModeSpace, basis: &[u64]) -> Result<(), Refusal>
    ensures { result ≡ first_refusal (outside_at space.count basis.now) (length basis.now) }
{
    for (i, word) in basis.iter().enumerate() {
        modes::word_refusal(space, 3, i as u64, *word)?;
    }
    Ok(())
}

// Does the i-th word stand earlier too?
fn stands_earlier(basis: &[u64], i: usize) -> bool
    requires { i < length basis.now }
    ensures { result ≡ stands (get_or basis.now i 0) (take i basis.now) }
{
    basis[..i].contains(&basis[i])
}

// Number 14 of the first basis word that stands earlier too.
fn repeat_refusal(basis: &[u64]) -> Result<(), Refusal>
    ensures { result ≡ first_refusal (repeat_at basis.now) (length basis.now) }
{
    for i in 0..basis.len() {
        if stands_earlier(basis, i) {
            return Err(Refusal {
                reason: Reason::BadBasis,
                operand: 3,
                place: i as u64,
            });
        }
    }
    Ok(())
}

// The length of a basis, then its words, then repeats.
#[tactic(auto, unfolding(crate::specs::Matrix::basis_refusal, modes::specs::Refusals::or_else))]
fn basis_refusal(space: ModeSpace, basis: &[u64]) -> Result<(), Refusal>
    ensures { result ≡ basis_refusal space.count basis.now }
{
    if MOST_WORDS < basis.len() {
        return Err(Refusal {
            reason: Reason::BadBasis,
            operand: 3,
            place: 0,
        });
    }
    outside_refusal(space, basis)?;
    repeat_refusal(basis)
}

// The row of one bra over the terms.
fn row_of(terms: &Terms, basis: &[u64], bra: u64) -> Row
    requires { (weight terms.now ≤ 2 ^ 60) × (length basis.now ≤ 8) }
    ensures { result ≡ row_of terms.now basis.now bra }
{
    let mut entries = [0i64; 8];
    for (j, ket) in basis.iter().enumerate() {
        entries[j] = sum_parts(terms, bra, *ket);
    }
    Row { entries }
}

// The rows of all basis words.
fn project(terms: &Terms, basis: &[u64]) -> [Row; 8]
    requires { (weight terms.now ≤ 2 ^ 60) × (length basis.now ≤ 8) }
    ensures { result ≡ matrix_of terms.now basis.now }
{
    let mut rows = [Row { entries: [0i64; 8] }; 8];
    for (i, bra) in basis.iter().enumerate() {
        rows[i] = row_of(terms, basis, *bra);
    }
    rows
}

// The record's elements between the words of a basis: row the bra, column the ket. The record is checked once, then the
// basis.
pub fn mat_ortho_projected(a: &[u8], basis: &[u64]) -> Result<[Row; 8], Refusal>
    ensures { result ≡ projected_of (read_as 1 a.now) basis.now }
{
    let c = record::check(a, 1)?;
    basis_refusal(ModeSpace { count: c.modes }, basis)?;
    let terms = Terms::of(a, c.terms);
    Ok(project(&terms, basis))
}
