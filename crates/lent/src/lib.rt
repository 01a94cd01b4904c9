// Little-endian words and rows in lent bytes, copying and wiping.
#![tactic(auto)]

ghost use Rattle.std.specs.Prelude.{◌≡◌, ◌++◌, ◌+◌, ◌-◌, ◌≤◌, ◌<◌, ◌^◌, length, take, Err};
ghost use Rattle.lent.specs.Bytes.{half_at, word_at, put_half, put_word, zeros, put};
ghost use Rattle.lent.specs.Rows.{Fit, row_at, put_row};

use modes::Term;

// The number of four bytes at `at`.
pub fn half(s: &[u8], at: usize) -> usize
    requires { at + 4 ≤ length s.now }
    ensures { (result ≡ half_at s.now at) × (result < 2 ^ 32) }
{
    u32::from_le_bytes([s[at], s[at + 1], s[at + 2], s[at + 3]]) as usize
}

// The number of eight bytes at `at`.
pub fn word(s: &[u8], at: usize) -> u64
    requires { at + 8 ≤ length s.now }
    ensures { result ≡ word_at s.now at }
{
    u64::from_le_bytes([
        s[at],
        s[at + 1],
        s[at + 2],
        s[at + 3],
        s[at + 4],
        s[at + 5],
        s[at + 6],
        s[at + 7],
    ])
}

// The four low bytes of x to `at`.
pub fn put_half(s: &mut [u8], at: usize, x: usize)
    requires { at + 4 ≤ length s.old }
    ensures { s.new ≡ put_half s.old at x }
{
    s[at..at + 4].copy_from_slice(&x.to_le_bytes()[..4]);
}

// The eight bytes of x to `at`.
pub fn put_word(s: &mut [u8], at: usize, x: u64)
    requires { at + 8 ≤ length s.old }
    ensures { s.new ≡ put_word s.old at x }
{
    s[at..at + 8].copy_from_slice(&x.to_le_bytes());
}

// The term whose row stands at `at`.
pub fn get_row(s: &[u8], at: usize) -> Term
    requires { at + 24 ≤ length s.now }
    ensures { (result ≡ row_at s.now at) × Fit result }
{
    let ann = word(s, at);
    let cre = word(s, at + 8);
    let coeff = integers::signed(word(s, at + 16));
    Term { cre, ann, coeff }
}

// The term's row to `at`.
pub fn put_row(s: &mut [u8], at: usize, t: Term)
    requires { at + 24 ≤ length s.old }
    ensures { s.new ≡ put_row s.old at t }
{
    put_word(s, at, t.ann);
    put_word(s, at + 8, t.cre);
    put_word(s, at + 16, integers::bits(t.coeff));
}

// All of `from` to `at`. A loop, since `copy_from_slice` of any length calls memmove, and the library needs only memcpy and
// memset from C.
pub fn copy(s: &mut [u8], at: usize, from: &[u8])
    requires { at + length from.now ≤ length s.old }
    ensures { s.new ≡ put s.old at from.now }
{
    for k in 0..from.len() {
        s[at + k] = from[k];
    }
}

// Every byte to zero.
pub fn wipe(buf: &mut [u8])
    ensures { buf.new ≡ zeros (length buf.old) }
{
    buf.fill(0);
}

// Every byte from `from` on to zero.
pub fn wipe_from(buf: &mut [u8], from: usize)
    requires { from ≤ length buf.old }
    ensures { buf.new ≡ take from buf.old ++ zeros (length buf.old - from) }
{
    wipe(&mut buf[from..]);
}

// The one way to refuse, whatever the refusal and whatever the call would have told: the output wiped whole.
pub fn refuse<T, E>(out: &mut [u8], refusal: E) -> Result<T, E>
    ensures { (result ≡ Err refusal) × (out.new ≡ zeros (length out.old)) }
{
    wipe(out);
    Err(refusal)
}
