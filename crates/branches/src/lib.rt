// How many branches the products of two records have: the rows of work that they take, told without work.
#![tactic(auto)]

ghost use Rattle.std.specs.Prelude.{◌≡◌, ◌+◌, ◌^◌, ◌≤◌};
ghost use Rattle.std.specs.Int.Count.{ones};
ghost use Rattle.record.specs.Operands.{read_as};
ghost use Rattle.pairs.specs.Products.{branches_of, branches_with, branches_of_all};
ghost use Rattle.branches.specs.Ceiling.{most, up_to};
ghost use Rattle.branches.specs.Branches.{branches_told};

use modes::{Refusal, Term};
use record::Terms;

// The most branches whose rows take no more than 2^63 bytes. A count goes no further than one above it, so that no sum wraps.
const MOST: u64 = 384_307_168_202_282_325;

// The branches of a b and of b a.
#[derive(Clone, Copy)]
pub struct BranchCounts {
    pub forward: u64,
    pub backward: u64,
}

// Two counts together.
#[tactic(auto, unfolding(crate::specs::Ceiling::up_to))]
fn more(x: u64, y: u64) -> u64
    requires { (x ≤ most + 1) × (y ≤ most + 1) }
    ensures { result ≡ up_to (x + y) }
{
    let sum = x + y;
    if sum <= MOST { sum } else { MOST + 1 }
}

// The rows of a product with the branching modes `left`. There may be 64 of them; 2^59 rows are above the ceiling.
fn rows_of(left: u64) -> u64
    ensures { result ≡ up_to (2 ^ ones left) }
{
    let n_bif = u64::count_ones(left);
    if 58 < n_bif {
        return MOST + 1;
    }
    1u64 << n_bif
}

// The branches of the product t u: none where it is empty.
fn of_pair(t: Term, u: Term) -> u64
    ensures { result ≡ up_to (branches_of t u) }
{
    let helper = pairs::helper_of(t, u);
    if helper.destroys() {
        return 0;
    }
    rows_of(helper.bifurcations())
}

// The branches of the term t with each term of b.
#[tactic(auto, using(crate::proofs::Ceiling::up_small))]
fn of_term(t: Term, b: &Terms) -> u64
    ensures { result ≡ up_to (branches_with t b.now) }
{
    let mut so_far = 0;
    let n = b.len();
    for j in 0..n {
        let u = b.get(j);
        so_far = more(so_far, of_pair(t, u));
    }
    so_far
}

// The branches of all pairs of a term of a and a term of b.
#[tactic(auto, using(crate::proofs::Ceiling::up_small))]
fn of_all(a: &Terms, b: &Terms) -> u64
    ensures { result ≡ up_to (branches_of_all a.now b.now) }
{
    let mut so_far = 0;
    let n = a.len();
    for i in 0..n {
        let t = a.get(i);
        so_far = more(so_far, of_term(t, b));
    }
    so_far
}

// The branches of the product a b and of the product b a. Nothing is lent: the pairs of terms are only looked at.
#[tactic(auto, using(crate::proofs::Ceiling::up_small))]
pub fn branches(a: &[u8], b: &[u8]) -> Result<BranchCounts, Refusal>
    ensures { result ≡ branches_told (read_as 1 a.now) (read_as 2 b.now) }
{
    let p = results::open_operands(a, b)?;
    let left = Terms::of(a, p.left);
    let right = Terms::of(b, p.right);
    let forward = of_all(&left, &right);
    let backward = of_all(&right, &left);
    if MOST < forward + backward {
        return Err(Refusal::ROWS_DO_NOT_FIT);
    }
    Ok(BranchCounts { forward, backward })
}
