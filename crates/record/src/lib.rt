// The record: its check, the reading and writing of its terms, and the stretch of one annihilation word.
#![tactic(auto)]

ghost use Rattle.std.specs.Prelude.{◌≡◌, Ok, true, false, ◌+◌, ◌*◌, ◌-◌, ◌≤◌, ◌<◌, ◌^◌, nat_abs, length, set};
ghost use Rattle.lent.specs.Bytes.{put};
ghost use Rattle.record.specs.Numbers.{numbers, same_numbers};
ghost use Rattle.record.specs.Terms.{before, follows, Ascending};
ghost use Rattle.record.specs.Layout.{fields, header, modes_of, count_of, terms_in, laid_out, record_length, encode, good_header, column_places, total_of};
ghost use Rattle.record.specs.Refusals.{term_refusal, checked_of};
ghost use Rattle.record.specs.Reading.{At, Holds};
ghost use Rattle.lent.specs.Outputs.{Gives, filled_output};
ghost use Rattle.modes.specs.Counts.{count};
ghost use Rattle.std.specs.Prelude.{List};
ghost use Rattle.modes.specs.declared.Term.{Term};
ghost use Rattle.record.specs.Weights.{heavier_by};
ghost use Rattle.record.specs.Counting.{count_if, earlier};
ghost use Rattle.record.specs.Blocks.{ann_below, block_of, bytes_in};

use modes::{ModeSpace, Reason, Refusal, Term, Written};
use places::Places;
use std::marker::Model;

// The bytes of a header, and of the longest record.
pub const HEADER: usize = 32;

pub const LONGEST: usize = 32 + 24 * modes::MOST_TERMS;

// The largest weight that a record may have.
pub const HEAVIEST: u64 = 1_152_921_504_606_846_976;

// What the check found of a record: its modes, its number of terms, and their weight.
#[derive(Clone, Copy)]
pub struct Checked {
    pub modes: u64,
    pub terms: usize,
    pub weight: u64,
}

// Where a stretch of bytes begins, and how many there are. The C face tells both, and zeros for none.
#[derive(Clone, Copy)]
pub struct Stretch {
    pub start: usize,
    pub len: usize,
}

// How many bytes a record of n terms has.
pub fn length_of(n: usize) -> usize
    requires { n < 2 ^ 32 }
    ensures { result ≡ record_length n }
{
    32 + 24 * n
}

// The modes that a header tells.
pub fn modes_of(s: &[u8]) -> u64
    requires { 32 ≤ length s.now }
    ensures { result ≡ modes_of s.now }
{
    lent::half(s, 4) as u64
}

// The number of terms that a header tells. Each reader of a header names one field of the stored format.
pub fn count_of(s: &[u8]) -> usize
    requires { 32 ≤ length s.now }
    ensures { result ≡ count_of s.now }
{
    lent::half(s, 8)
}

// The length that a header tells.
pub fn total(s: &[u8]) -> usize
    requires { 32 ≤ length s.now }
    ensures { (result ≡ total_of s.now) × (result < 2 ^ 32) }
{
    lent::half(s, 24)
}

// Is the header that of m modes and n terms?
fn header_is(s: &[u8], m: usize, n: usize) -> bool
    requires { (32 ≤ length s.now) × (n ≤ 2048) }
    ensures { result ≡ same_numbers (numbers 4 s.now 0 8) (fields m n) }
{
    if lent::half(s, 0) != 1 {
        return false;
    }
    if lent::half(s, 4) != m {
        return false;
    }
    if lent::half(s, 8) != n {
        return false;
    }
    if lent::half(s, 12) != 32 {
        return false;
    }
    if lent::half(s, 16) != 32 + 8 * n {
        return false;
    }
    if lent::half(s, 20) != 32 + 16 * n {
        return false;
    }
    if lent::half(s, 24) != length_of(n) {
        return false;
    }
    lent::half(s, 28) == 0
}

// Is the header good? The length is not looked at.
fn good_header(s: &[u8]) -> bool
    requires { 32 ≤ length s.now }
    ensures { result ≡ good_header s.now }
{
    let m = lent::half(s, 4);
    let n = lent::half(s, 8);
    if ModeSpace::from_count(m as u64).is_none() {
        return false;
    }
    if modes::MOST_TERMS < n {
        return false;
    }
    header_is(s, m, n)
}

// Number 1: a good header, and the length that it tells.
pub fn laid_out(s: &[u8]) -> bool
    ensures { result ≡ laid_out s.now }
{
    if s.len() < HEADER {
        return false;
    }
    if !good_header(s) {
        return false;
    }
    s.len() == total(s)
}

// Where the columns of n terms lie.
pub fn column_places(n: usize) -> Places
    requires { n < 2 ^ 59 }
    ensures { result ≡ column_places n }
{
    Places {
        ann: 32,
        cre: 32 + 8 * n,
        coeff: 32 + 16 * n,
        step: 8,
    }
}

// The i-th of n terms. It reads at numbers and not by `column_places`: by these the check lost that a term fits its bytes.
fn read_term(s: &[u8], n: usize, i: usize) -> Term
    requires { Holds s.now n × (i < n) }
    ensures { At (terms_in s.now n) i result }
{
    let ann = lent::word(s, 32 + 8 * i);
    let cre = lent::word(s, 32 + 8 * n + 8 * i);
    let coeff = integers::signed(lent::word(s, 32 + 16 * n + 8 * i));
    Term { cre, ann, coeff }
}

// The terms that stand in a record's bytes. What reads a record reads it by this.
#[derive(Drop)]
pub struct Terms<'a> {
    bytes: &'a [u8],
    terms: usize,
}

impl<'a> Model for Terms<'a> {
    ghost Value = { List Term };

    ghost view = { λ s. terms_in s.bytes.now s.terms };

    ghost invariant = { λ s. Holds s.bytes.now s.terms };
}

impl<'a> Terms<'a> {
    pub fn of(bytes: &'a [u8], terms: usize) -> Terms<'a>
        requires { Holds bytes.now terms }
        ensures { result ≡ terms_in bytes.now terms }
    {
        Terms { bytes, terms }
    }

    pub fn len(&self) -> usize
        ensures { result ≡ length self.now }
    {
        self.terms
    }

    // the i-th of them
    #[inline]
    pub fn get(&self, i: usize) -> Term
        requires { i < length self.now }
        ensures { At self.now i result }
    {
        read_term(self.bytes, self.terms, i)
    }

    // how many of them stand before t, found by halving: std's search is of a slice, and the terms lie in three columns
    pub fn count_before(&self, t: Term) -> usize
        requires { Ascending self.now }
        ensures { result ≡ count_if (earlier t) self.now }
    {
        let mut low = 0;
        let mut high = self.len();
        while low < high {
            let middle = low + (high - low) / 2;
            let u = self.get(middle);
            if is_before(u, t) {
                low = middle + 1;
            } else {
                high = middle;
            }
        }
        low
    }

    // how many have an annihilation word below `ann`: those before the first term that could have it
    fn count_below(&self, ann: u64) -> usize
        requires { Ascending self.now }
        ensures { result ≡ count_if (ann_below ann) self.now }
    {
        self.count_before(Term {
            cre: 0,
            ann,
            coeff: 0,
        })
    }
}

// Does t stand before u? Word by word: by std's order of pairs a check took 1.6 times as long, and a comparison of records 1.3.
pub fn is_before(t: Term, u: Term) -> bool
    ensures { result ≡ before t u }
{
    if t.ann < u.ann {
        return true;
    }
    if t.ann != u.ann {
        return false;
    }
    t.cre < u.cre
}

// May t stand after `last`? Anything may stand first.
pub fn follows(last: Option<Term>, t: Term) -> bool
    ensures { result ≡ follows last t }
{
    match last {
        None => true,
        Some(u) => is_before(u, t),
    }
}

// How far the term's coefficient is from zero.
pub fn size(t: Term) -> u64
    ensures { (result ≡ nat_abs t.coeff) × (result ≤ 2 ^ 63) }
{
    integers::magnitude(t.coeff)
}

// Numbers 2, 3 and 4 of the term t at `place`; `up` says that it is the first or above the one before it.
pub fn term_refusal(
    space: ModeSpace,
    operand: u64,
    place: u64,
    up: bool,
    t: Term,
) -> Result<(), Refusal>
    ensures { result ≡ term_refusal operand space.count place up t }
{
    if !modes::is_inside(space, t.cre, t.ann) {
        return Err(Refusal {
            reason: Reason::WordOutside,
            operand,
            place,
        });
    }
    if !up {
        return Err(Refusal {
            reason: Reason::OutOfOrder,
            operand,
            place,
        });
    }
    if size(t) == 0 {
        return Err(Refusal {
            reason: Reason::ZeroCoeff,
            operand,
            place,
        });
    }
    Ok(())
}

// The weight w with k more. Once it is above the ceiling it is no longer summed, so that it never wraps.
pub fn heavier(w: u64, k: u64) -> u64
    requires { k ≤ 2 ^ 63 }
    ensures { result ≡ heavier_by k w }
{
    if w <= HEAVIEST { w + k } else { w }
}

// The check of n terms on m modes, once the header is right.
fn check_terms(s: &[u8], operand: u64, m: u64, n: usize) -> Result<Checked, Refusal>
    requires { (laid_out s.now ≡ true) × (m ≡ modes_of s.now) × (n ≡ count_of s.now) }
    ensures { result ≡ checked_of operand s.now }
{
    let space = ModeSpace { count: m };
    let mut last: Option<Term> = None;
    let mut w = 0;
    let terms = Terms::of(s, n);
    for i in 0..n {
        let t = terms.get(i);
        let up = follows(last, t);
        term_refusal(space, operand, i as u64, up, t)?;
        w = heavier(w, size(t));
        last = Some(t);
    }
    if HEAVIEST < w {
        return Err(Refusal {
            reason: Reason::TooHeavy,
            operand,
            place: 0,
        });
    }
    Ok(Checked {
        modes: m,
        terms: n,
        weight: w,
    })
}

// Are the bytes a record? The answer for any bytes, with the operand that the caller names.
pub fn check(s: &[u8], operand: u64) -> Result<Checked, Refusal>
    ensures { result ≡ checked_of operand s.now }
{
    if !laid_out(s) {
        return Err(Refusal {
            reason: Reason::Malformed,
            operand,
            place: 0,
        });
    }
    let m = lent::half(s, 4) as u64;
    let n = lent::half(s, 8);
    check_terms(s, operand, m, n)
}

// The header of m modes and n terms to the front.
fn put_header(out: &mut [u8], m: u64, n: usize)
    requires { (32 ≤ length out.old) × (n ≤ 2048) }
    ensures { out.new ≡ put out.old 0 (header m n) }
{
    lent::put_half(out, 0, 1);
    lent::put_half(out, 4, m as usize);
    lent::put_half(out, 8, n);
    lent::put_half(out, 12, 32);
    lent::put_half(out, 16, 32 + 8 * n);
    lent::put_half(out, 20, 32 + 16 * n);
    lent::put_half(out, 24, 32 + 24 * n);
    lent::put_half(out, 28, 0);
}

// The k-th of n terms to its place. Whatever writes a record writes its terms by this, and then finishes it. It takes bytes and
// no `Terms`, since what is written is no record until then.
pub fn put_term(out: &mut [u8], n: usize, k: usize, t: Term)
    requires { Holds out.old n × (k < n) }
    ensures { terms_in out.new n ≡ set (terms_in out.old n) k t }
{
    places::put(out, column_places(n), k, t);
}

// The n terms that were put there become the record on m modes: the header in front of them, and zeros past them.
pub fn finish(out: &mut [u8], m: u64, n: usize, branches: u64) -> Written
    requires { Holds out.old n × (n ≤ 2048) }
    ensures { Gives (filled_output (length out.old) branches (encode m (terms_in out.old n))) (Ok result) out.new }
{
    put_header(out, m, n);
    let len = length_of(n);
    lent::wipe_from(out, len);
    Written { len, branches }
}

// How many have one up to `ann`: all if it is the largest word, which has none after it.
fn count_up_to(s: &[u8], n: usize, ann: u64) -> usize
    requires { Holds s.now n × Ascending (terms_in s.now n) }
    ensures { result ≡ count_if (ann_below (ann + 1)) (terms_in s.now n) }
{
    if ann == u64::MAX {
        return n;
    }
    let terms = Terms::of(s, n);
    terms.count_below(ann + 1)
}

// Where the creations of the terms with the annihilation word `ann` stand in the record's bytes.
pub fn block_bounds(s: &[u8], ann: u64) -> Stretch
    ensures { result ≡ block_of s.now ann }
{
    let Ok(c) = check(s, 1) else {
        return Stretch { start: 0, len: 0 };
    };
    let n = c.terms;
    let terms = Terms::of(s, n);
    let first = terms.count_below(ann);
    let past = count_up_to(s, n, ann);
    if first == past {
        return Stretch { start: 0, len: 0 };
    }
    Stretch {
        start: 32 + 8 * n + 8 * first,
        len: 8 * (past - first),
    }
}

// The creations of the terms with the annihilation word `ann`, as a part of the caller's own record: the empty part if
// there are none, or the record is not accepted.
pub fn block(s: &[u8], ann: u64) -> &[u8]
    ensures { result.now ≡ bytes_in (block_of s.now ann) s.now }
{
    let b = block_bounds(s, ann);
    let start = b.start;
    let end = start + b.len;
    &s[start..end]
}
