// Numbers in decimal, as ASCII, in lent bytes.
#![tactic(auto)]

ghost use Rattle.std.specs.Prelude.{◌≡◌, [], ◌∷◌, ◌+◌, ◌-◌, ◌*◌, ◌≤◌, ◌<◌, ◌^◌, length};
ghost use Rattle.decimals.specs.Decimal.{decimal, field, read_on};
ghost use Rattle.decimals.specs.Numbers.{starts_well};
ghost use Rattle.decimals.specs.Ceiling.{up_to, number_in};
ghost use Rattle.decimals.specs.Stores.{Stored};

// The largest number that is read as it is; one above it stands for every larger one.
pub const CEILING: u64 = 1152921504606846976;

// One digit to `at`, and where it ends.
fn put_digit(s: &mut [u8], at: usize, digit: u64) -> usize
    requires { (at < length s.old) × (digit < 10) }
    ensures { Stored s.old at ((48 + digit) ∷ []) s.new result }
{
    s[at] = b'0' + (digit as u8);
    at + 1
}

// The decimal digits of n to `at`, and where they end. It calls itself once for each digit but the last.
pub fn put_decimal(s: &mut [u8], at: usize, n: u64) -> usize
    requires { at + length (decimal n) ≤ length s.old }
    ensures { Stored s.old at (decimal n) s.new result }
{
    if n < 10 {
        return put_digit(s, at, n);
    }
    let last = put_decimal(s, at, n / 10);
    put_digit(s, last, n % 10)
}

// A number and the byte after it to `at`, and where they end.
pub fn put_field(s: &mut [u8], at: usize, n: u64, end: u8) -> usize
    requires { at + length (field n end) ≤ length s.old }
    ensures { Stored s.old at (field n end) s.new result }
{
    let last = put_decimal(s, at, n);
    s[last] = end;
    last + 1
}

// The number itself, or one above the ceiling where it is larger: a number, since what is too large is judged by whoever sums it.
pub fn up_to(n: u64) -> u64
    ensures { (result ≡ up_to n) × (result ≤ 2 ^ 60 + 1) }
{
    n.min(CEILING + 1)
}

// Is there a byte, and no zero in front of others?
fn starts_well(s: &[u8]) -> bool
    ensures { result ≡ starts_well s.now }
{
    if s.len() < 2 {
        return s.len() == 1;
    }
    s[0] != b'0'
}

// A number with one byte more, of which what was read is at most one above the ceiling.
fn with_byte(value: u64, b: u8) -> u64
    requires { value ≤ 2 ^ 60 + 1 }
    ensures { (result ≡ up_to (10 * value + (b - 48))) × (result ≤ 2 ^ 60 + 1) }
{
    up_to(10 * value + b.saturating_sub(b'0') as u64)
}

// The number that any bytes make, as far as one above the ceiling.
pub fn value_of(s: &[u8]) -> u64
    ensures { result ≡ up_to (read_on 0 s.now) }
{
    let mut made = 0;
    for b in s {
        made = with_byte(made, *b);
    }
    made
}

// Any bytes as a number of any length, as far as one above the ceiling. One loop tests and reads: a test before `value_of`
// was measured slower.
pub fn read_number(s: &[u8]) -> Option<u64>
    ensures { result ≡ number_in s.now }
{
    if !starts_well(s) {
        return None;
    }
    let mut value = 0;
    for b in s {
        if !b.is_ascii_digit() {
            return None;
        }
        value = with_byte(value, *b);
    }
    Some(value)
}
