// What the terms of a record have in common: particle conservation, the largest rank, the active modes.
#![tactic(auto)]

ghost use Rattle.std.specs.Prelude.{◌≡◌, ◌≤◌, max};
ghost use Rattle.record.specs.Operands.{read_as};
ghost use Rattle.figures.specs.Figures.{rank_of, conserves, figures_in, figures_of, conserves_of, max_n_body_of, active_modes_of};

use modes::{Refusal, Term};
use record::Terms;

// The larger of two counts of modes, told by a bit of their difference: the compiler counts the modes of two words at once where
// they are subtracted, and one after the other where they are compared.
fn larger_count(x: u64, y: u64) -> u64
    requires { (x ≤ 64) × (y ≤ 64) }
    ensures { result ≡ max x y }
{
    if (x + 256 - y) / 128 % 2 == 0 { x } else { y }
}

// The rank of a term: the larger of its creation and annihilation counts.
#[tactic(auto, unfolding(crate::specs::Figures::rank_of))]
pub fn rank(t: Term) -> u64
    ensures { (result ≡ rank_of t) × (result ≤ 64) }
{
    larger_count(modes::modes_in(t.cre), modes::modes_in(t.ann))
}

fn is_conserving(t: Term) -> bool
    ensures { result ≡ conserves t }
{
    modes::modes_in(t.cre) == modes::modes_in(t.ann)
}

// The larger of two numbers.
pub fn larger(x: u64, y: u64) -> u64
    ensures { result ≡ max x y }
{
    x.max(y)
}

// What the terms of a record have in common: conservation, the largest rank, and all modes.
#[derive(Clone, Copy)]
struct Figures {
    conserving: bool,
    rank: u64,
    modes: u64,
}

// The figures of terms, in one walk.
fn survey_terms(terms: &Terms) -> Figures
    ensures { result ≡ figures_in terms.now }
{
    let n = terms.len();
    let mut conserving = true;
    let mut largest = 0;
    let mut modes = 0;
    for i in 0..n {
        let t = terms.get(i);
        conserving &= is_conserving(t);
        largest = larger(largest, rank(t));
        modes |= t.cre | t.ann;
    }
    Figures {
        conserving,
        rank: largest,
        modes,
    }
}

// The figures of a record, or its refusal.
fn survey(s: &[u8]) -> Result<Figures, Refusal>
    ensures { result ≡ figures_of (read_as 1 s.now) }
{
    let c = record::check(s, 1)?;
    let terms = Terms::of(s, c.terms);
    Ok(survey_terms(&terms))
}

// Has every term as many creations as annihilations? This and the two below are three of zixy's names, each one figure of a walk.
pub fn conserves_particle_number(s: &[u8]) -> Result<bool, Refusal>
    ensures { result ≡ conserves_of (read_as 1 s.now) }
{
    let figures = survey(s)?;
    Ok(figures.conserving)
}

// The largest rank of the terms, 0 for no terms.
pub fn max_n_body(s: &[u8]) -> Result<u64, Refusal>
    ensures { result ≡ max_n_body_of (read_as 1 s.now) }
{
    let figures = survey(s)?;
    Ok(figures.rank)
}

// The union of all words.
pub fn active_modes(s: &[u8]) -> Result<u64, Refusal>
    ensures { result ≡ active_modes_of (read_as 1 s.now) }
{
    let figures = survey(s)?;
    Ok(figures.modes)
}
