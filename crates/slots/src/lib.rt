// One party's half of a shelf: the entries of its 16 slots, whether it is damaged, and where it has room.
#![tactic(auto)]

ghost use Rattle.std.specs.Prelude.{◌≡◌, true, ◌||◌, ◌+◌, ◌*◌, ◌≤◌, ◌<◌, ◌^◌, eqb, length, MatchOption};
ghost use Rattle.lent.specs.Bytes.{num_at};
ghost use Rattle.slots.specs.Half.{place_of, length_of, is_free, is_sound, apart, meets_none, is_whole, free_slot, gap_for, holding, without};
ghost use Rattle.slots.specs.Gaps.{Met};

// The bytes of a half, its slots, the bytes of an entry, and where its records begin.
pub const HALF: usize = 32768;

pub const SLOTS: usize = 16;

const ENTRY: usize = 32;

const FIRST: usize = 512;

// No record is shorter.
const SHORTEST: usize = 32;

// Where the record that slot i's entry names begins. A slot is a number below 16, since shelf judges the caller's number first.
pub fn place_of(h: &[u8; HALF], i: usize) -> usize
    requires { i < 16 }
    ensures { (result ≡ place_of h.now i) × (result < 2 ^ 32) }
{
    lent::half(h, ENTRY * i)
}

// How many bytes it has.
pub fn length_of(h: &[u8; HALF], i: usize) -> usize
    requires { i < 16 }
    ensures { (result ≡ length_of h.now i) × (result < 2 ^ 32) }
{
    lent::half(h, ENTRY * i + 4)
}

// Are the last 24 bytes of slot i's entry zero?
fn has_zeros(h: &[u8; HALF], i: usize) -> bool
    requires { i < 16 }
    ensures { result ≡ eqb (num_at 24 h.now (32 * i + 8)) 0 }
{
    let at = ENTRY * i + 8;
    lent::word(h, at) == 0 && lent::word(h, at + 8) == 0 && lent::word(h, at + 16) == 0
}

// Is slot i free? All 32 bytes decide: one that is not zero makes an entry used.
pub fn is_free(h: &[u8; HALF], i: usize) -> bool
    requires { i < 16 }
    ensures { result ≡ is_free h.now i }
{
    lent::word(h, ENTRY * i) == 0 && has_zeros(h, i)
}

// Does slot i's entry keep what a used one must?
fn is_sound(h: &[u8; HALF], i: usize) -> bool
    requires { i < 16 }
    ensures { result ≡ is_sound h.now i }
{
    let place = place_of(h, i);
    let len = length_of(h, i);
    SHORTEST <= len && FIRST <= place && place + len <= HALF && has_zeros(h, i)
}

// Is slot i free, or does its entry keep the rules?
fn is_right(h: &[u8; HALF], i: usize) -> bool
    requires { i < 16 }
    ensures { result ≡ (is_free h.now i || is_sound h.now i) }
{
    is_free(h, i) || is_sound(h, i)
}

// Do n bytes from p on and m bytes from q on not meet?
fn are_apart(p: usize, n: usize, q: usize, m: usize) -> bool
    requires { (p + n < 2 ^ 64) × (q + m < 2 ^ 64) }
    ensures { result ≡ apart p n q m }
{
    p + n <= q || q + m <= p
}

// Do n bytes from p on meet no record of the slots below k?
fn meets_none(h: &[u8; HALF], k: usize, p: usize, n: usize) -> bool
    requires { (k ≤ 16) × (p + n < 2 ^ 64) }
    ensures { result ≡ meets_none h.now k p n }
{
    for i in 0..k {
        if !are_apart(place_of(h, i), length_of(h, i), p, n) {
            return false;
        }
    }
    true
}

// Is the half not damaged?
pub fn is_whole(h: &[u8; HALF]) -> bool
    ensures { result ≡ is_whole h.now }
{
    for i in 0..SLOTS {
        if !is_right(h, i) || !meets_none(h, i, place_of(h, i), length_of(h, i)) {
            return false;
        }
    }
    true
}

// The lowest free slot.
pub fn free_slot(h: &[u8; HALF]) -> Option<usize>
    ensures { MatchOption result (free_slot h.now ≡ 16) (λ i. (i ≡ free_slot h.now) × (i < 16)) }
{
    for i in 0..SLOTS {
        if is_free(h, i) {
            return Some(i);
        }
    }
    None
}

// Where a record ends that n bytes from p on meet.
fn end_met(h: &[u8; HALF], p: usize, n: usize) -> Option<usize>
    requires { p + n < 2 ^ 64 }
    ensures { MatchOption result (meets_none h.now 16 p n ≡ true) (λ e. Met h.now p n e) }
{
    for i in 0..SLOTS {
        let place = place_of(h, i);
        let len = length_of(h, i);
        if !are_apart(place, len, p, n) {
            return Some(place + len);
        }
    }
    None
}

// The lowest place with room for n bytes: what meets a record can begin no earlier than past it. A `while let`, since each step
// goes on past what was met.
pub fn gap_for(h: &[u8; HALF], n: usize) -> Option<usize>
    requires { (is_whole h.now ≡ true) × (0 < n) × (n < 2 ^ 32) }
    ensures { MatchOption result (gap_for h.now n ≡ 32768) (λ p. (p ≡ gap_for h.now n) × (p < 32768)) }
{
    let mut p = FIRST;
    while let Some(end) = end_met(h, p, n) {
        p = end;
    }
    if p + n <= HALF { Some(p) } else { None }
}

// The record `a` to p, and the entry of slot i, which names it.
pub fn hold(h: &mut [u8; HALF], i: usize, p: usize, a: &[u8])
    requires { (i < 16) × (p + length a.now ≤ 32768) }
    ensures { h.new ≡ holding h.old i p a.now }
{
    lent::copy(h, p, a);
    let at = ENTRY * i;
    lent::put_half(h, at, p);
    lent::put_half(h, at + 4, a.len());
    lent::wipe(&mut h[at + 8..at + ENTRY]);
}

// n bytes from p on to zero, and the entry of slot i.
pub fn release(h: &mut [u8; HALF], i: usize, p: usize, n: usize)
    requires { (i < 16) × (p + n ≤ 32768) }
    ensures { h.new ≡ without h.old i p n }
{
    lent::wipe(&mut h[p..p + n]);
    let at = ENTRY * i;
    lent::wipe(&mut h[at..at + ENTRY]);
}
