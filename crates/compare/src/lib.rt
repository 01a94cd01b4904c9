// The comparison of two records.
#![tactic(auto)]

ghost use Rattle.std.specs.Prelude.{◌≡◌, true, ◌≤◌, ◌^◌};
ghost use Rattle.record.specs.Operands.{read_as};
ghost use Rattle.normal.specs.Normal.{drop_zeros};
ghost use Rattle.lincomb.specs.Merging.{onward};
ghost use Rattle.record.specs.Terms.{weight};
ghost use Rattle.compare.specs.Comparison.{ahead, named, compared_of};
ghost use Rattle.compare.specs.Finding.{with_term};

use modes::{Refusal, Sign, Term};
use record::Terms;

// Two words at which the elements of two records differ.
#[derive(Clone, Copy)]
pub struct Difference {
    pub bra: u64,
    pub ket: u64,
}

// Is t named rather than u? Fewer annihilations decide, then the lower words.
fn is_ahead(t: Term, u: Term) -> bool
    ensures { result ≡ ahead t u }
{
    let x = modes::modes_in(t.ann);
    let y = modes::modes_in(u.ann);
    if x != y {
        return x < y;
    }
    record::is_before(t, u)
}

// What is found once t, a term of the difference, is gone through too. A coefficient of zero is no difference.
fn with_term(found: Option<Term>, t: Term) -> Option<Term>
    ensures { result ≡ with_term found t }
{
    if t.coeff == 0 {
        return found;
    }
    match found {
        Some(u) => Some(if is_ahead(t, u) { t } else { u }),
        None => Some(t),
    }
}

// Both records gone through in step, as for their difference: its terms are those that differ.
fn find(a: &Terms, b: &Terms) -> Option<Difference>
    requires { (weight a.now ≤ 2 ^ 60) × (weight b.now ≤ 2 ^ 60) }
    ensures { result ≡ named (drop_zeros (onward true a.now 0 b.now 0)) }
{
    let na = a.len();
    let nb = b.len();
    let mut found = None;
    let mut i = 0;
    let mut j = 0;
    // A step takes a term of one record or of both, so no range counts the steps.
    while i < na || j < nb {
        let s = lincomb::next(Sign::MINUS, a, i, b, j);
        found = with_term(found, s.term);
        i = s.left;
        j = s.right;
    }
    match found {
        Some(t) => Some(Difference {
            bra: t.cre,
            ket: t.ann,
        }),
        None => None,
    }
}

// Are the two records equal? If not, the pair of words that is named.
pub fn compare(a: &[u8], b: &[u8]) -> Result<Option<Difference>, Refusal>
    ensures { result ≡ compared_of (read_as 1 a.now) (read_as 2 b.now) }
{
    let p = results::open_operands(a, b)?;
    let left = Terms::of(a, p.left);
    let right = Terms::of(b, p.right);
    Ok(find(&left, &right))
}
