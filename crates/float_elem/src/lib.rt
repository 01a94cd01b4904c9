// Elements of a list of terms with float coefficients, real or complex, between occupation words.
#![tactic(auto)]

ghost use Rattle.std.specs.Prelude.{◌≡◌, [], ◌∷◌, length};
ghost use Rattle.modes.specs.Refusals.{first_refusal};
ghost use Rattle.float_elem.specs.Sums.{joined};
ghost use Rattle.float_elem.specs.Answers.{told_by, real_values, complex_values};
ghost use Rattle.float_elem.specs.Elements.{all_finite, listed, float_term_refusal, term_at, summed, float_element};
ghost use Rattle.float_elem.specs.Lengths.{OneLength};

use modes::{ModeSpace, Reason, Refusal};
use products::ApplyResult;

// A complex number; also the running sum of an element.
#[derive(Clone, Copy)]
pub struct Complex64 {
    pub re: f64,
    pub im: f64,
}

impl Complex64 {
    pub const ZERO: Complex64 = Complex64 { re: 0.0, im: 0.0 };
}

// Neither part is a NaN or an infinity.
#[tactic(auto, using(crate::proofs::Finite::is_finite_told))]
fn are_finite(z: Complex64) -> bool
    ensures { result ≡ all_finite (z.re ∷ z.im ∷ []) }
{
    z.re.is_finite() && z.im.is_finite()
}

// Number 1: the mode count and the lengths of the lists. They are four slices as the C interface lends them, here and below: a
// struct of them would be made for three private functions.
#[tactic(auto, unfolding(crate::specs::Elements::listed))]
fn is_listed(m: u64, cre: &[u64], ann: &[u64], re: &[f64], im: &[f64]) -> bool
    ensures { result ≡ listed m cre.now ann.now (re.now ∷ im.now ∷ []) }
{
    if ModeSpace::from_count(m).is_none() {
        return false;
    }
    if modes::MOST_TERMS < cre.len() {
        return false;
    }
    if ann.len() != cre.len() {
        return false;
    }
    if re.len() != cre.len() {
        return false;
    }
    im.len() == cre.len()
}

// Numbers 2 and 13 of the term at `place`.
#[tactic(auto, unfolding(crate::specs::Elements::float_term_refusal, modes::specs::Refusals::or_else))]
fn term_refusal(
    space: ModeSpace,
    place: u64,
    cre: u64,
    ann: u64,
    c: Complex64,
) -> Result<(), Refusal>
    ensures { result ≡ float_term_refusal space.count place cre ann (c.re ∷ c.im ∷ []) }
{
    if !modes::is_inside(space, cre, ann) {
        return Err(Refusal {
            reason: Reason::WordOutside,
            operand: 1,
            place,
        });
    }
    if !are_finite(c) {
        return Err(Refusal {
            reason: Reason::NotFinite,
            operand: 1,
            place,
        });
    }
    Ok(())
}

// The first refusal of a term.
fn check_terms(m: u64, cre: &[u64], ann: &[u64], re: &[f64], im: &[f64]) -> Result<(), Refusal>
    requires { OneLength (length cre.now) ann.now re.now im.now }
    ensures { result ≡ first_refusal (term_at m cre.now ann.now (re.now ∷ im.now ∷ [])) (length cre.now) }
{
    let space = ModeSpace { count: m };
    for i in 0..cre.len() {
        let c = Complex64 {
            re: re[i],
            im: im[i],
        };
        term_refusal(space, i as u64, cre[i], ann[i], c)?;
    }
    Ok(())
}

// The sum and one term: its coefficient, or the negation where its sign is minus, is added if it takes ket to bra.
fn add_term(sum: Complex64, c: Complex64, cre: u64, ann: u64, bra: u64, ket: u64) -> Complex64
    ensures { (result.re ≡ joined bra ket cre ann c.re sum.re) × (result.im ≡ joined bra ket cre ann c.im sum.im) }
{
    let ApplyResult::Applied(word, sign) = products::apply_op_ket_u64(cre, ann, ket) else {
        return sum;
    };
    if word != bra {
        return sum;
    }
    if sign.0 {
        return Complex64 {
            re: sum.re + -c.re,
            im: sum.im + -c.im,
        };
    }
    Complex64 {
        re: sum.re + c.re,
        im: sum.im + c.im,
    }
}

// The sum in the caller's order, refused at the first term that makes it not finite. Only a term that changes just the modes
// in which bra and ket differ can take ket to bra: most do not, and nothing else is asked of them.
fn sum_terms(
    cre: &[u64],
    ann: &[u64],
    re: &[f64],
    im: &[f64],
    bra: u64,
    ket: u64,
) -> Result<Complex64, Refusal>
    requires { OneLength (length cre.now) ann.now re.now im.now }
    ensures { told_by complex_values result ≡ summed bra ket cre.now ann.now (re.now ∷ im.now ∷ []) }
{
    let mut sum = Complex64::ZERO;
    for i in 0..cre.len() {
        let created = cre[i];
        let annihilated = ann[i];
        if created ^ annihilated == bra ^ ket {
            let c = Complex64 {
                re: re[i],
                im: im[i],
            };
            sum = add_term(sum, c, created, annihilated, bra, ket);
            if !are_finite(sum) {
                return Err(Refusal {
                    reason: Reason::NotFinite,
                    operand: 1,
                    place: i as u64,
                });
            }
        }
    }
    Ok(sum)
}

// The element at (bra, ket) of the terms {cre|ann} with complex coefficients: the lists are checked first, then the terms
// one by one, then the bra, then the ket, and then the running sums.
pub fn mat_elem_complex(
    m: u64,
    cre: &[u64],
    ann: &[u64],
    re: &[f64],
    im: &[f64],
    bra: u64,
    ket: u64,
) -> Result<Complex64, Refusal>
    ensures { told_by complex_values result ≡ float_element m cre.now ann.now (re.now ∷ im.now ∷ []) bra ket }
{
    if !is_listed(m, cre, ann, re, im) {
        return Err(Refusal {
            reason: Reason::Malformed,
            operand: 1,
            place: 0,
        });
    }
    check_terms(m, cre, ann, re, im)?;
    modes::words_refusal(ModeSpace { count: m }, bra, ket)?;
    sum_terms(cre, ann, re, im, bra, ket)
}

// The same with real coefficients: they are given for both parts, so that one walk serves both kinds, and one part is
// answered.
pub fn mat_elem_real(
    m: u64,
    cre: &[u64],
    ann: &[u64],
    coeff: &[f64],
    bra: u64,
    ket: u64,
) -> Result<f64, Refusal>
    ensures { told_by real_values result ≡ float_element m cre.now ann.now (coeff.now ∷ []) bra ket }
{
    let z = mat_elem_complex(m, cre, ann, coeff, coeff, bra, ket)?;
    Ok(z.re)
}
