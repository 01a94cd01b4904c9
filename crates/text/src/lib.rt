// Ladder text in and out: a text as a record, and a record as a text.
#![tactic(auto)]

ghost use Rattle.std.specs.Prelude.{◌≡◌, ◌*◌, ◌≤◌, ◌<◌, ◌^◌, leb, length};
ghost use Rattle.modes.specs.declared.Reason.TheVariants.{Malformed};
ghost use Rattle.modes.specs.Answers.{refusal, rows_do_not_fit, product_too_heavy};
ghost use Rattle.modes.specs.Refusals.{need, or_else};
ghost use Rattle.modes.specs.Spaces.{space_of, is_made};
ghost use Rattle.lent.specs.Outputs.{Gives};
ghost use Rattle.record.specs.Operands.{read_as};
ghost use Rattle.multiply.specs.Answers.{Leaves};
ghost use Rattle.term_lines.specs.Written.{term_text, terms_text};
ghost use Rattle.text.specs.Import.{early_refusal, import_of};
ghost use Rattle.text.specs.Export.{export_of};
ghost use Rattle.text.specs.Gathering.{Readable, Gathered};
ghost use Rattle.text.specs.Placing.{PlacedText};

use modes::{ModeSpace, Reason, Refusal, Term, Written};
use record::Terms;
use scan::Sums;

// Number 1, of a mode count that no caller has looked at.
fn modes_refusal(m: u64) -> Result<(), Refusal>
    ensures { result ≡ need (is_made (space_of m)) (refusal Malformed 1 0) }
{
    if ModeSpace::from_count(m).is_none() {
        return Err(Refusal {
            reason: Reason::Malformed,
            operand: 1,
            place: 0,
        });
    }
    Ok(())
}

// Numbers 8 and 7. 48 times a sum may pass 64 bits, so 7 is judged by a quotient.
fn sums_refusal(s: Sums, work: usize) -> Result<(), Refusal>
    requires { work < 2 ^ 63 }
    ensures { result ≡ or_else (need (leb s.burden (2 ^ 60)) product_too_heavy) (need (leb (48 * s.spread) work) rows_do_not_fit) }
{
    if decimals::CEILING < s.burden {
        return Err(Refusal::PRODUCT_TOO_HEAVY);
    }
    if ((work / 48) as u64) < s.spread {
        return Err(Refusal::ROWS_DO_NOT_FIT);
    }
    Ok(())
}

// All that refuses a text before it is multiplied out.
fn early_refusal(m: u64, text: &[u8], work: usize) -> Result<(), Refusal>
    requires { work < 2 ^ 63 }
    ensures { result ≡ early_refusal m work text.now }
{
    modes_refusal(m)?;
    let sums = scan::scan(m, text)?;
    sums_refusal(sums, work)
}

// The rows of all lines to the front of the work, and where they end.
fn gather(text: &[u8], work: &mut [u8]) -> usize
    requires { Readable text.now (length work.old) }
    ensures { Gathered text.now work.new result }
{
    let mut at = 0;
    let mut used = 0;
    // A `while`, since each turn goes on after a line, whose length `piece_end` tells.
    while at < text.len() {
        let end = lines::piece_end(text, at, b'\n');
        used = expand::put_line_rows(&text[at..end], work, used);
        at = end + 1;
    }
    used
}

// The lines multiplied out, joined and delivered. The work is left as it is, for `import` wipes it.
fn bring(m: u64, text: &[u8], work: &mut [u8], out: &mut [u8]) -> Result<Written, Refusal>
    ensures { Gives (import_of m (length work.old) (length out.old) text.now) result out.new }
{
    if let Err(refusal) = early_refusal(m, text, work.len()) {
        return lent::refuse(out, refusal);
    }
    let used = gather(text, work);
    let n = collect::collect(work, used / 24);
    results::deliver(work, n, 0, m, out)
}

// The record of the sum of all lines of a text on m modes.
pub fn import(m: u64, text: &[u8], work: &mut [u8], out: &mut [u8]) -> Result<Written, Refusal>
    ensures { Leaves (import_of m (length work.old) (length out.old) text.now) result out.new (length work.old) work.new }
{
    let w = bring(m, text, work, out);
    lent::wipe(work);
    w
}

// The line of a term, made apart, to `at` if it fits, and where it then ends.
fn place_line(out: &mut [u8], at: usize, t: Term) -> Option<usize>
    requires { at ≤ length out.old }
    ensures { PlacedText out.old at (term_text t) out.new result }
{
    let mut line = [0u8; term_lines::LONGEST_LINE];
    let len = term_lines::put_line(&mut line, t);
    if out.len() - at < len {
        return None;
    }
    lent::copy(out, at, &line[..len]);
    Some(at + len)
}

// The lines of terms to the front, one after the other, and where they end if all fit.
fn place_lines(terms: &Terms, out: &mut [u8]) -> Option<usize>
    ensures { PlacedText out.old 0 (terms_text terms.now) out.new result }
{
    let n = terms.len();
    let mut end = 0;
    for i in 0..n {
        end = place_line(out, end, terms.get(i))?;
    }
    Some(end)
}

// A record as text: a line for each term, in the record's order.
pub fn export(a: &[u8], out: &mut [u8]) -> Result<Written, Refusal>
    ensures { Gives (export_of (length out.old) (read_as 1 a.now)) result out.new }
{
    let c = match record::check(a, 1) {
        Ok(c) => c,
        Err(refusal) => return lent::refuse(out, refusal),
    };
    let terms = Terms::of(a, c.terms);
    let Some(len) = place_lines(&terms, out) else {
        return lent::refuse(out, Refusal::OUTPUT_TOO_SHORT);
    };
    lent::wipe_from(out, len);
    Ok(Written { len, branches: 0 })
}
