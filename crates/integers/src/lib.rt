// Signed numbers of 64 bits: their bits, their magnitude, and sums and products that do not wrap.
#![tactic(auto)]

ghost use Rattle.std.specs.Prelude.{◌≡◌, ◌+◌, ◌*◌, ◌≤◌, ◌<◌, ◌^◌, neg_ℤ, nat_abs, ◌+ℤ◌, ◌*ℤ◌};
ghost use Rattle.std.specs.Int.{w64};
ghost use Rattle.std.proofs.Common.{to_z, of_z};

// The signed number whose bits x are.
pub fn signed(x: u64) -> i64
    ensures { result ≡ to_z w64 x }
{
    x.cast_signed()
}

// The bits of a signed number.
pub fn bits(x: i64) -> u64
    ensures { result ≡ of_z w64 x }
{
    x.cast_unsigned()
}

// How far x is from zero, also at the least number.
pub fn magnitude(x: i64) -> u64
    ensures { (result ≡ nat_abs x) × (result ≤ 2 ^ 63) }
{
    x.unsigned_abs()
}

pub fn sum(x: i64, y: i64) -> i64
    requires { nat_abs x + nat_abs y < 2 ^ 63 }
    ensures { result ≡ x +ℤ y }
{
    x + y
}

pub fn negated(x: i64) -> i64
    requires { nat_abs x < 2 ^ 63 }
    ensures { result ≡ neg_ℤ x }
{
    -x
}

pub fn product(x: i64, y: i64) -> i64
    requires { nat_abs x * nat_abs y < 2 ^ 63 }
    ensures { result ≡ x *ℤ y }
{
    x * y
}
