// The normal form of a list of terms: like terms joined, zeros dropped, in ascending order.
#![tactic(auto)]

ghost use Rattle.std.specs.Prelude.{◌≡◌, ◌+◌, ◌<◌, ◌^◌, nat_abs};
ghost use Rattle.normal.specs.Normal.{join};

use modes::Term;

// Two like terms in one.
pub fn joined(t: Term, u: Term) -> Term
    requires { nat_abs t.coeff + nat_abs u.coeff < 2 ^ 63 }
    ensures { result ≡ join t u }
{
    let coeff = integers::sum(t.coeff, u.coeff);
    Term {
        cre: u.cre,
        ann: u.ann,
        coeff,
    }
}
