// Ladder text in and out, answered with the record or the text itself, or with the line `refused N O P`: all that the
// programs `import_text` and `export_text` decide.
#![tactic(auto)]

ghost use Rattle.std.specs.Prelude.{◌≡◌, length};
ghost use Rattle.decimals.specs.Ceiling.{up_to};
ghost use Rattle.multiply.specs.Answers.{Leaves};
ghost use Rattle.reply.specs.Replies.{Says, Replies};
ghost use Rattle.text_reply.specs.TextReplies.{modes_in, import_answer, import_reply, export_reply, import_work, import_room, export_room};

use modes::{Refusal, Written};

// The longest text that is looked at. No export is longer.
pub const LONGEST_TEXT: usize = 1048576;

// The longest input that counts: a longest text, and the byte that is one too many.
pub const LONGEST_INPUT: usize = LONGEST_TEXT + 1;

// The output of an import, as long as the longest record.
pub const ROOM: usize = record::LONGEST;

// The work of an import: 48 bytes for each of 65,536 parts of lines.
const WORK: usize = 48 * 65536;

// The mode count that a word names, as far as one above the ceiling: 0, which no record has, where it is no number: the import judges
// all mode counts alike.
#[tactic(auto, unfolding(crate::specs::TextReplies::modes_in))]
fn modes_in(word: &[u8]) -> u64
    ensures { result ≡ up_to (modes_in word.now) }
{
    decimals::read_number(word).unwrap_or(0)
}

// The record of a text on as many modes as the word names, or its refusal.
fn answer(word: &[u8], text: &[u8], work: &mut [u8], out: &mut [u8]) -> Result<Written, Refusal>
    ensures { Leaves (import_answer (length work.old) (length out.old) word.now text.now) result out.new (length work.old) work.new }
{
    if LONGEST_TEXT < text.len() {
        return reply::refuse(work, out, Refusal::ROWS_DO_NOT_FIT);
    }
    text::import(modes_in(word), text, work, out)
}

// The record of a text on as many modes as the word names, or the line of its refusal, at the front of the output; and its
// length.
pub fn import(word: &[u8], text: &[u8], work: &mut [u8], out: &mut [u8]) -> usize
    ensures { Replies (import_reply (length work.old) (length out.old) word.now text.now) (length out.old) result out.new (length work.old) work.new }
{
    match answer(word, text, work, out) {
        Ok(written) => written.len,
        Err(refusal) => reply::tell(out, refusal.reason.number(), refusal.operand, refusal.place),
    }
}

// The text of a record, or the line of its refusal, at the front of the output; and its length.
pub fn export(a: &[u8], out: &mut [u8]) -> usize
    ensures { Says (export_reply (length out.old) a.now) (length out.old) result out.new }
{
    match text::export(a, out) {
        Ok(written) => written.len,
        Err(refusal) => reply::tell(out, refusal.reason.number(), refusal.operand, refusal.place),
    }
}

// The import with a work of its own, and an output that holds every record and every line: all that `import_text` says.
pub fn import_reply(word: &[u8], text: &[u8], out: &mut [u8; ROOM]) -> usize
    ensures { Says (import_reply import_work import_room word.now text.now) import_room result out.new }
{
    let mut work = [0u8; WORK];
    import(word, text, &mut work, out)
}

// The export to an output that holds every text and every line: all that `export_text` says.
pub fn export_reply(a: &[u8], out: &mut [u8; LONGEST_TEXT]) -> usize
    ensures { Says (export_reply export_room a.now) export_room result out.new }
{
    export(a, out)
}
