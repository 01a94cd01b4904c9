// One term on one occupation word, and the rows of one product, by the phase rule.
#![tactic(auto)]

ghost use Rattle.std.specs.Prelude.{◌≡◌, Ok, not, ℕ, ◌+◌, ◌-◌, ◌*◌, ◌≤◌, ◌<◌, ◌^◌, leb, nat_abs, length};
ghost use Rattle.std.specs.Int.Count.{ones};
ghost use Rattle.modes.specs.Words.{bit};
ghost use Rattle.modes.specs.Counts.{count, exchanges, odd, odd_exchanges};
ghost use Rattle.lent.specs.Bytes.{put};
ghost use Rattle.lent.specs.Rows.{rows_bytes};
ghost use Rattle.lent.specs.Outputs.{Gives};
ghost use Rattle.products.specs.Apply.{applied};
ghost use Rattle.products.specs.Operators.{signed};
ghost use Rattle.products.specs.Product.{not_empty, branching, row_times, multiplied};
ghost use Rattle.products.specs.Fitting.{Fitting, rows_of};
ghost use Rattle.products.specs.Walk.{One, keeping, walk};

use modes::{Refusal, Sign, Term, Written};

// What blocks a term on a word: the lowest annihilated mode that is missing from it; or, if none is missing, the lowest created
// mode that is still occupied once the annihilated ones are removed.
#[derive(Clone, Copy)]
pub enum Blocked {
    Missing(u64),
    Occupied(u64),
}

// What a term makes of a word: a word with a sign; or nothing, and why. No `Result`, since nothing is an answer like another;
// the name is zixy's.
#[derive(Clone, Copy)]
pub enum ApplyResult {
    Applied(u64, Sign),
    Zero(Blocked),
}

// The number of set bits of `word` below each set bit of `at`, summed together: the exchanges that it takes to
// insert or remove, one at a time, the ladder operators of `at` against the occupation `word`. Up to eight bits of `at` are
// sooner looked at one by one.
pub fn count_before_each_set_bit(word: u64, at: u64) -> u32
    ensures { (result ≡ exchanges 64 (bit word) (bit at)) × (result ≤ 4096) }
{
    if u64::count_ones(at) <= 8 {
        return count_one_by_one(word, at);
    }
    count_by_digits(word, at)
}

// The same, one set bit of `at` after the other. A `while`, since it takes as many steps as `at` has bits.
fn count_one_by_one(word: u64, at: u64) -> u32
    ensures { result ≡ exchanges 64 (bit word) (bit at) }
{
    let mut rest = at;
    let mut count: u32 = 0;
    while rest != 0 {
        let less = rest & (rest - 1);
        let lowest = rest - less;
        count += u64::count_ones(word & (lowest - 1));
        rest = less;
    }
    count
}

// The same for all bits of `at` at once: of the number of bits below each, one binary digit after the other. The lowest is
// whether an odd number stands below; with every second bit of `left` alone, half of that number does, and its lowest digit is
// the next. Six digits are enough, since at most 63 bits stand below one.
fn count_by_digits(word: u64, at: u64) -> u32
    ensures { result ≡ exchanges 64 (bit word) (bit at) }
{
    let mut left = word;
    let mut count: u32 = 0;
    for k in 0..6u32 {
        let odd = odd_before(left);
        count += (1 << k) * u64::count_ones(at & odd);
        left &= odd;
    }
    count
}

// The term {cre|ann} applied to `ket`.
pub fn apply_op_ket_u64(cre: u64, ann: u64, ket: u64) -> ApplyResult
    ensures { result ≡ applied cre ann ket }
{
    let held = ket & ann;
    if held != ann {
        // `held` is a part of `ann`, so that the difference has the modes that the ket lacks
        return ApplyResult::Zero(Blocked::Missing(modes::lowest_mode(ann - held)));
    }
    // the ket has every annihilated mode here, so that an exclusive or removes them
    let ket_after_ann = ket ^ ann;
    if cre & ket_after_ann != 0 {
        return ApplyResult::Zero(Blocked::Occupied(modes::lowest_mode(cre & ket_after_ann)));
    }
    // for the sign it is enough whether the exchanges of the annihilations and of the creations are odd
    let passed = odd_before_each_set_bit(ket, ann) ^ odd_before_each_set_bit(ket_after_ann, cre);
    ApplyResult::Applied(ket_after_ann | cre, sign_of_bits(passed))
}

// Bit p is set where an odd number of bits of `word` stand below p. Each step doubles how far down a bit looks.
fn odd_before(word: u64) -> u64
    ensures { (p : ℕ) → p < 64 → bit result p ≡ odd p (bit word) }
{
    let two = word ^ (word << 1);
    let four = two ^ (two << 2);
    let eight = four ^ (four << 4);
    let sixteen = eight ^ (eight << 8);
    let half = sixteen ^ (sixteen << 16);
    let all = half ^ (half << 32);
    all ^ word
}

// The bits of `at` with an odd number of bits of `word` below them: as many, modulo 2, as `count_before_each_set_bit`
// counts, without a loop.
fn odd_before_each_set_bit(word: u64, at: u64) -> u64
    ensures { odd 64 (bit result) ≡ odd_exchanges 64 (bit word) (bit at) }
{
    at & odd_before(word)
}

// Minus exactly if an odd number of bits is set.
fn sign_of_bits(word: u64) -> Sign
    ensures { result.0 ≡ odd 64 (bit word) }
{
    Sign::from_exchanges(u64::count_ones(word))
}

// The coefficient, or its negation where the sign is minus.
pub fn signed_coeff(sign: Sign, coeff: i64) -> i64
    requires { nat_abs coeff < 2 ^ 63 }
    ensures { result ≡ signed sign.0 coeff }
{
    if sign.0 {
        integers::negated(coeff)
    } else {
        coeff
    }
}

// The row that keeps the branching mode `mode` too: its two ladders pass the creations above it and the annihilations below it.
pub fn keep(row: Term, mode: u64) -> Term
    requires { One mode × (nat_abs row.coeff < 2 ^ 63) }
    ensures { (result ≡ keeping mode row) × (nat_abs result.coeff < 2 ^ 63) }
{
    let passed = (row.cre & !(mode - 1 + mode)) ^ (row.ann & (mode - 1));
    let coeff = signed_coeff(Sign::MINUS.mul(sign_of_bits(passed)), row.coeff);
    Term {
        cre: row.cre | mode,
        ann: row.ann | mode,
        coeff,
    }
}

// Writes, from byte `at` on, the rows that keep some, all or none of the modes `left`, and answers where they end. The
// low-rank branch of the lowest mode is this walk with that mode gone.
pub fn do_branch(out: &mut [u8], at: usize, left: u64, row: Term) -> usize
    requires { (at + 24 * 2 ^ count 64 (bit left) ≤ length out.old) × (nat_abs row.coeff < 2 ^ 63) }
    ensures { (result ≡ at + 24 * 2 ^ count 64 (bit left)) × (out.new ≡ put out.old at (rows_bytes (walk (count 64 (bit left)) left row))) }
{
    if left == 0 {
        lent::put_row(out, at, row);
        return at + 24;
    }
    let less = left & (left - 1);
    let high = keep(row, left - less);
    let next = do_branch(out, at, less, row);
    do_branch(out, next, less, high)
}

// The words of one product L R.
#[derive(Clone, Copy)]
pub struct ProductHelper {
    pub l_cre: u64,
    pub l_ann: u64,
    pub r_cre: u64,
    pub r_ann: u64,
}

impl ProductHelper {
    // Is the product empty: is a mode in both creation words but not in L's annihilations, or in both annihilation
    // words but not in R's creations?
    pub fn destroys(self) -> bool
        ensures { result ≡ not (not_empty self.l_cre self.l_ann self.r_cre self.r_ann) }
    {
        self.l_cre & self.r_cre & !self.l_ann != 0 || self.l_ann & self.r_ann & !self.r_cre != 0
    }

    // The common modes that branch: those in neither L's creations nor R's annihilations.
    pub fn bifurcations(self) -> u64
        ensures { (p : ℕ) → bit result p ≡ branching self.l_cre self.l_ann self.r_cre self.r_ann p }
    {
        self.l_ann & self.r_cre & !self.l_cre & !self.r_ann
    }

    // The row that keeps no branching mode, times `coeff`.
    pub fn lowest_row(self, coeff: i64) -> Term
        requires { nat_abs coeff < 2 ^ 63 }
        ensures { (result ≡ row_times self.l_cre self.l_ann self.r_cre self.r_ann coeff 0) × (nat_abs result.coeff < 2 ^ 63) }
    {
        let common = self.l_ann & self.r_cre;
        let cre = self.l_cre | (self.r_cre ^ common);
        let ann = self.r_ann | (self.l_ann ^ common);
        let after_r = self.r_ann ^ self.r_cre;
        let passed = odd_before_each_set_bit(self.r_ann, self.r_cre)
            ^ odd_before_each_set_bit(after_r, self.l_ann)
            ^ odd_before_each_set_bit(after_r ^ self.l_ann, self.l_cre)
            ^ odd_before_each_set_bit(ann, cre);
        let signed = signed_coeff(sign_of_bits(passed), coeff);
        Term {
            cre,
            ann,
            coeff: signed,
        }
    }
}

// Do the rows of the branching modes `left` fit in `room` bytes? A slice is shorter than 2^63 bytes, and 24 times 2^59 is
// not. Most products have no branching mode, and their one row needs no count.
pub fn rows_fit(left: u64, room: usize) -> bool
    requires { room < 2 ^ 63 }
    ensures { result ≡ leb (24 * 2 ^ ones left) room }
{
    if left == 0 {
        return 24 <= room;
    }
    let n_bif = u64::count_ones(left);
    if 58 < n_bif {
        return false;
    }
    (24usize << n_bif) <= room
}

// The rows of the product, times `coeff`, from byte `at` on, and where they end; `left` are the branching modes, and the
// rows fit. Most products have one row, which needs no walk.
pub fn put_rows(out: &mut [u8], at: usize, helper: ProductHelper, left: u64, coeff: i64) -> usize
    requires { Fitting helper left (length out.old - at) × (nat_abs coeff < 2 ^ 63) }
    ensures { (result ≡ at + 24 * length (rows_of helper coeff)) × (out.new ≡ put out.old at (rows_bytes (rows_of helper coeff))) }
{
    let row = helper.lowest_row(coeff);
    if left == 0 {
        lent::put_row(out, at, row);
        return at + 24;
    }
    do_branch(out, at, left, row)
}

// The rows to the front of the output, and zeros past them.
fn write_rows(helper: ProductHelper, left: u64, out: &mut [u8]) -> Written
    requires { Fitting helper left (length out.old) }
    ensures { Gives (multiplied helper.l_cre helper.l_ann helper.r_cre helper.r_ann (length out.old)) (Ok result) out.new }
{
    let end = put_rows(out, 0, helper, left, 1);
    lent::wipe_from(out, end);
    Written {
        len: end,
        branches: (end / 24) as u64,
    }
}

// The rows of the product L R, 24 bytes each, in order, and zeros past them. Refused with 7 if they do not fit.
pub fn mul_cmpnts(
    l_cre: u64,
    l_ann: u64,
    r_cre: u64,
    r_ann: u64,
    out: &mut [u8],
) -> Result<Written, Refusal>
    ensures { Gives (multiplied l_cre l_ann r_cre r_ann (length out.old)) result out.new }
{
    let helper = ProductHelper {
        l_cre,
        l_ann,
        r_cre,
        r_ann,
    };
    if helper.destroys() {
        lent::wipe(out);
        return Ok(Written {
            len: 0,
            branches: 0,
        });
    }
    let left = helper.bifurcations();
    if rows_fit(left, out.len()) {
        return Ok(write_rows(helper, left, out));
    }

    lent::refuse(out, Refusal::ROWS_DO_NOT_FIT)
}
