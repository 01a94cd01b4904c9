// Reads a record from standard input, and writes its text, or the line `refused N O P`. The input is at most the longest
// record and one byte: a longer one is refused for that byte already.
#![tactic(auto)]

use readers::read_full;
use std::io;

fn main(rt: HostRuntime) -> io::Result<()> {
    let mut record = [0u8; text_reply::ROOM + 1];
    let read = read_full(&mut rt.reader(), &mut record)?;
    let mut out = [0u8; text_reply::LONGEST_TEXT];
    let len = text_reply::export_reply(&record[..read], &mut out);
    rt.write_all(&out[..len])
}
