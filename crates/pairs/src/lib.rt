// The rows of all pairs of terms of two records, gathered at the front of lent work.
#![tactic(auto)]

ghost use Rattle.std.specs.Prelude.{◌≡◌, true, is_some, ◌++◌, ◌+◌, ◌*◌, ◌≤◌, ◌<◌, ◌^◌, nat_abs, length};
ghost use Rattle.lent.specs.Rows.{Fit};
ghost use Rattle.products.specs.Product.{rows_times};
ghost use Rattle.products.specs.Fitting.{rows_of};
ghost use Rattle.record.specs.Terms.{weight};
ghost use Rattle.pairs.specs.Products.{minus_of, pair_rows, rows_with, all_rows};
ghost use Rattle.pairs.specs.Filling.{Room, Grown, Adds, Appended, Opposite, Settled};

use modes::{Sign, Term};
use products::ProductHelper;
use record::Terms;

// How many bytes at the front of the work are used for rows, and how many all rows would take, one a branch, with none
// cancelled. Once these are more than the work has, the rows are too many.
#[derive(Clone, Copy)]
pub struct Fill {
    pub used: usize,
    pub held: usize,
}

// The words of the product t u.
pub fn helper_of(t: Term, u: Term) -> ProductHelper
    ensures { result ≡ record { l_cre = t.cre; l_ann = t.ann; r_cre = u.cre; r_ann = u.ann } }
{
    ProductHelper {
        l_cre: t.cre,
        l_ann: t.ann,
        r_cre: u.cre,
        r_ann: u.ann,
    }
}

// The rows of one product, after those that are there.
fn append(work: &mut [u8], s: Fill, helper: ProductHelper, coeff: i64) -> Fill
    requires { Room work.old s × (nat_abs coeff < 2 ^ 63) }
    ensures { Appended (rows_of helper coeff) work.old s work.new result }
{
    if helper.destroys() {
        return s;
    }
    let left = helper.bifurcations();
    if products::rows_fit(left, work.len() - s.held) {
        let end = products::put_rows(work, s.used, helper, left, coeff);
        return Fill {
            used: end,
            held: s.held + (end - s.used),
        };
    }
    Fill {
        used: s.used,
        held: work.len() + 1,
    }
}

// Are these two rows nothing together?
fn cancels(x: Term, y: Term) -> bool
    ensures { result ≡ true → Opposite x y }
{
    x.ann == y.ann
        && x.cre == y.cre
        && x.coeff != y.coeff
        && integers::magnitude(x.coeff) == integers::magnitude(y.coeff)
}

// The row in hand cancels the last row, or goes after it.
fn settle(work: &mut [u8], s: Fill, row: Term) -> Fill
    requires { (s.used + 24 ≤ length work.old) × Fit row }
    ensures { Settled row work.old s work.new result }
{
    if 24 <= s.used {
        let last = lent::get_row(work, s.used - 24);
        if cancels(row, last) {
            return Fill {
                used: s.used - 24,
                held: s.held,
            };
        }
    }
    lent::put_row(work, s.used, row);
    Fill {
        used: s.used + 24,
        held: s.held,
    }
}

// The rows of t u and of u t, with a coefficient each. The last row of each contracts no mode: where both are there they have
// the same words, and in most commutators they cancel, so the first is kept in hand until the second is known. This halves
// the rows to sort, and more.
fn append_both(work: &mut [u8], s: Fill, t: Term, u: Term, coeff: i64, swapped: i64) -> Fill
    requires { Room work.old s × (nat_abs coeff < 2 ^ 63) × (nat_abs swapped < 2 ^ 63) }
    ensures { Adds (rows_times t.cre t.ann u.cre u.ann coeff ++ rows_times u.cre u.ann t.cre t.ann swapped) work.old s work.new result }
{
    let one = append(work, s, helper_of(t, u), coeff);
    if work.len() < one.held {
        return one;
    }
    if one.used == s.used {
        return append(work, one, helper_of(u, t), swapped);
    }
    let row = lent::get_row(work, one.used - 24);
    let rest = Fill {
        used: one.used - 24,
        held: one.held,
    };
    let two = append(work, rest, helper_of(u, t), swapped);
    if work.len() < two.held {
        return two;
    }
    settle(work, two, row)
}

// The rows of one pair of terms, t u, and of the other order, u t, where it has a sign.
fn append_pair(other: Option<Sign>, work: &mut [u8], s: Fill, t: Term, u: Term) -> Fill
    requires { Room work.old s × (nat_abs t.coeff * nat_abs u.coeff < 2 ^ 63) }
    ensures { Adds (pair_rows (is_some other) (minus_of other) t u) work.old s work.new result }
{
    let coeff = integers::product(t.coeff, u.coeff);
    match other {
        None => append(work, s, helper_of(t, u), coeff),
        Some(sign) => {
            let swapped = products::signed_coeff(sign, coeff);
            append_both(work, s, t, u, coeff, swapped)
        }
    }
}

// The rows of the term t with each term of b. It ends early where they are too many.
fn append_with(other: Option<Sign>, work: &mut [u8], s: Fill, t: Term, b: &Terms) -> Fill
    requires { Room work.old s × (nat_abs t.coeff * weight b.now ≤ 2 ^ 60) }
    ensures { Adds (rows_with (is_some other) (minus_of other) t b.now) work.old s work.new result }
{
    let mut at = s;
    let n = b.len();
    for j in 0..n {
        let u = b.get(j);
        at = append_pair(other, work, at, t, u);
        if work.len() < at.held {
            return at;
        }
    }
    at
}

// The rows of all pairs of terms. It ends early where they are too many.
pub fn append_all(other: Option<Sign>, work: &mut [u8], a: &Terms, b: &Terms) -> Fill
    requires { weight a.now * weight b.now ≤ 2 ^ 60 }
    ensures { Grown (all_rows (is_some other) (minus_of other) a.now b.now) work.new result }
{
    let mut at = Fill { used: 0, held: 0 };
    let n = a.len();
    for i in 0..n {
        let t = a.get(i);
        at = append_with(other, work, at, t, b);
        if work.len() < at.held {
            return at;
        }
    }
    at
}
