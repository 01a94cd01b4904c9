// A line multiplied out: its rows in lent work.
#![tactic(auto)]

ghost use Rattle.std.specs.Prelude.{◌≡◌, ◌^◌, ◌≤◌, ◌<◌, nat_abs, length, take};
ghost use Rattle.lines.specs.Grammar.{coefficient_of, line_of};
ghost use Rattle.expand.specs.Rows.{rows_after, plain, rows_of};
ghost use Rattle.expand.specs.Writing.{helper_of, ladder_in, ladders_from, Writable, LineWritable, Wrote};

use modes::Term;
use products::ProductHelper;

// The words of a term and, on its right, of the ladder in the bytes from `from` to `end`.
fn helper_at(line: &[u8], from: usize, end: usize, t: Term) -> ProductHelper
    requires { (from ≤ end) × (end ≤ length line.now) × ((ladder_in line.now from end).mode < 64) }
    ensures { result ≡ helper_of t (ladder_in line.now from end) }
{
    let ladder = lines::ladder_of(&line[from..end]);
    let word = 1u64 << ladder.mode;
    if ladder.annihilates {
        return ProductHelper {
            l_cre: t.cre,
            l_ann: t.ann,
            r_cre: 0,
            r_ann: word,
        };
    }
    ProductHelper {
        l_cre: t.cre,
        l_ann: t.ann,
        r_cre: word,
        r_ann: 0,
    }
}

// Writes, from byte `used` of the work on, the rows of a term times the ladders of the line from `at` on, where a field ends,
// and answers where the rows end. A ladder leaves no row, one, or one more that keeps its mode.
pub fn put_rows(line: &[u8], at: usize, t: Term, work: &mut [u8], used: usize) -> usize
    requires { Writable line.now at t (length work.old) used }
    ensures { Wrote work.old used (rows_after t (ladders_from line.now at)) result work.new }
{
    if at == line.len() {
        lent::put_row(work, used, t);
        return used + 24;
    }
    let from = at + 1;
    let end = lines::piece_end(line, from, b' ');
    let helper = helper_at(line, from, end, t);
    if helper.destroys() {
        return used;
    }
    let low = helper.lowest_row(t.coeff);
    let left = helper.bifurcations();
    let next = put_rows(line, end, low, work, used);
    if left == 0 {
        return next;
    }
    put_rows(line, end, products::keep(low, left), work, next)
}

// {|} times the coefficient in the first `end` bytes of the line.
fn start_at(line: &[u8], end: usize) -> Term
    requires { (end ≤ length line.now) × (nat_abs (coefficient_of (take end line.now)) ≤ 2 ^ 60) }
    ensures { result ≡ plain (coefficient_of (take end line.now)) }
{
    let c = lines::coefficient_of(&line[..end]);
    let coeff = products::signed_coeff(c.sign, c.magnitude as i64);
    Term {
        cre: 0,
        ann: 0,
        coeff,
    }
}

// Writes the rows of a whole line from byte `used` of the work on, and answers where they end.
pub fn put_line_rows(line: &[u8], work: &mut [u8], used: usize) -> usize
    requires { LineWritable line.now (length work.old) used }
    ensures { Wrote work.old used (rows_of (line_of line.now)) result work.new }
{
    let end = lines::piece_end(line, 0, b' ');
    let start = start_at(line, end);
    put_rows(line, end, start, work, used)
}
