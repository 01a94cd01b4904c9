// Rows of 24 bytes in lent memory collected: sorted, like rows joined, zeros dropped.
#![tactic(auto)]

ghost use Rattle.std.specs.Prelude.{◌≡◌, ◌+◌, ◌*◌, ◌≤◌, ◌<◌, ◌^◌, nat_abs, length};
ghost use Rattle.lent.specs.Rows.{Fit, row_at, rows_at};
ghost use Rattle.collect.specs.KeyWeights.{Light};
ghost use Rattle.collect.specs.Steps.{InOrder, Closed, Met};
ghost use Rattle.collect.specs.Collected.{Collected};

use modes::Term;
use places::Places;

// The rows before `place` are done; `row` is in hand until the rows like it are read.
#[derive(Clone, Copy)]
struct Open {
    place: usize,
    row: Term,
}

// The row in hand goes to its place, unless its coefficient is 0: how many rows are done then.
fn close(work: &mut [u8], place: usize, row: Term) -> usize
    requires { (24 * place + 24 ≤ length work.old) × Fit row }
    ensures { Closed place row work.old work.new result }
{
    if row.coeff == 0 {
        return place;
    }
    lent::put_row(work, 24 * place, row);
    place + 1
}

// The row at i joins the row in hand, or closes it and is in hand then. It is read first: the place may be its own.
fn meet(work: &mut [u8], i: usize, o: Open) -> Open
    requires { (o.place < i) × (24 * i + 24 ≤ length work.old) × Fit o.row
        × ((row_at work.old (24 * i)).ann ≡ o.row.ann → (row_at work.old (24 * i)).cre ≡ o.row.cre
        → nat_abs o.row.coeff + nat_abs (row_at work.old (24 * i)).coeff < 2 ^ 63) }
    ensures { Met o.place o.row (row_at work.old (24 * i)) work.old work.new result.place result.row }
{
    let row = o.row;
    let next = lent::get_row(work, 24 * i);
    if next.ann == row.ann {
        if next.cre == row.cre {
            let joined = normal::joined(row, next);
            return Open {
                place: o.place,
                row: joined,
            };
        }
    }
    let place = close(work, o.place, row);
    Open { place, row: next }
}

// The n rows, of which like ones stand side by side, joined in place.
fn join(work: &mut [u8], n: usize) -> usize
    requires { (24 * n ≤ length work.old) × InOrder work.old n × Light (rows_at work.old 0 n) }
    ensures { Collected n work.old work.new result }
{
    if n == 0 {
        return 0;
    }
    let row = lent::get_row(work, 0);
    let mut o = Open { place: 0, row };
    for i in 1..n {
        o = meet(work, i, o);
    }
    let row = o.row;
    close(work, o.place, row)
}

// The n rows at the front of `work`, in any order, become k rows there: sorted, like rows joined, zeros dropped. What stands between the
// k rows and the end of the n rows is left open, for callers wipe the work.
pub fn collect(work: &mut [u8], n: usize) -> usize
    requires { (24 * n ≤ length work.old) × Light (rows_at work.old 0 n) }
    ensures { Collected n work.old work.new result }
{
    let places = Places::rows(0);
    quicksort::sort(work, places, n);
    join(work, n)
}
