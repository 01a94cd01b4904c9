// Two records in one input, one after the other, answered with the record of their commutator or with the line
// `refused N O P`: all that the program `commutator` decides.
#![tactic(auto)]

ghost use Rattle.std.specs.Prelude.{◌≡◌, ◌≤◌, length, Err};
ghost use Rattle.lent.specs.Bytes.{zeros};
ghost use Rattle.decimals.specs.Stores.{Stored};
ghost use Rattle.multiply.specs.Answers.{Leaves};
ghost use Rattle.reply.specs.Lines.{line_of_numbers, line_of_numbers_in};
ghost use Rattle.reply.specs.Replies.{holds_first, answer_to, reply_to, work_size, room_size, Says, Replies};

use modes::{Reason, Refusal, Written};

// The work of a reply: a row of 24 bytes for each of 2,730 branches.
const WORK: usize = 24 * 2730;

// The output of a reply, as long as the longest record.
pub const ROOM: usize = record::LONGEST;

// The longest input that counts: two longest records, and the byte that is one too many.
pub const LONGEST_INPUT: usize = 2 * ROOM + 1;

// The longest line: the word with its space, and three numbers of at most 20 digits with a byte after each.
const LONGEST_LINE: usize = 71;

// The line of three numbers to the front, and its length.
fn put_line(s: &mut [u8], number: u64, operand: u64, place: u64) -> usize
    requires { 71 ≤ length s.old }
    ensures { Stored s.old 0 (line_of_numbers number operand place) s.new result }
{
    lent::copy(s, 0, b"refused ");
    let first = decimals::put_field(s, 8, number, b' ');
    let second = decimals::put_field(s, first, operand, b' ');
    decimals::put_field(s, second, place, b'\n')
}

// The line of three numbers, as a refusal has them, and zeros past it; all zeros where the line is longer than the output.
pub fn tell(out: &mut [u8], number: u64, operand: u64, place: u64) -> usize
    ensures { Says (line_of_numbers_in (length out.old) number operand place) (length out.old) result out.new }
{
    let mut line = [0u8; LONGEST_LINE];
    let len = put_line(&mut line, number, operand, place);
    if out.len() < len {
        lent::wipe(out);
        return 0;
    }
    lent::copy(out, 0, &line[..len]);
    lent::wipe_from(out, len);
    len
}

// Does the input hold a whole header, and as many bytes as its total?
fn holds_first(input: &[u8]) -> bool
    ensures { result ≡ holds_first input.now }
{
    if input.len() < record::HEADER {
        return false;
    }
    record::total(input) <= input.len()
}

// A refusal, whatever it is, before any call that is lent the work: both are wiped here.
pub fn refuse<E>(work: &mut [u8], out: &mut [u8], refusal: E) -> Result<Written, E>
    ensures { (result ≡ Err refusal) × (out.new ≡ zeros (length out.old)) × (work.new ≡ zeros (length work.old)) }
{
    lent::wipe(work);
    lent::refuse(out, refusal)
}

// The commutator of the two records, or its refusal.
fn answer(input: &[u8], work: &mut [u8], out: &mut [u8]) -> Result<Written, Refusal>
    ensures { Leaves (answer_to (length work.old) (length out.old) input.now) result out.new (length work.old) work.new }
{
    if holds_first(input) {
        let end = record::total(input);
        return multiply::commutator(&input[..end], &input[end..], work, out);
    }
    let one = Refusal {
        reason: Reason::Malformed,
        operand: 1,
        place: 0,
    };
    refuse(work, out, one)
}

// The record of the commutator of the two records that the input holds one after the other, or the line of its refusal, at
// the front of the output; and its length.
pub fn commutator(input: &[u8], work: &mut [u8], out: &mut [u8]) -> usize
    ensures { Replies (reply_to (length work.old) (length out.old) input.now) (length out.old) result out.new (length work.old) work.new }
{
    match answer(input, work, out) {
        Ok(written) => written.len,
        Err(refusal) => tell(out, refusal.reason.number(), refusal.operand, refusal.place),
    }
}

// The same with a work of its own, and an output that holds every record and every line: all that the program says.
pub fn reply(input: &[u8], out: &mut [u8; ROOM]) -> usize
    ensures { Says (reply_to work_size room_size input.now) room_size result out.new }
{
    let mut work = [0u8; WORK];
    commutator(input, &mut work, out)
}
