// Reading an input as far as it counts: into a buffer that is as long as the input may be.
#![tactic(auto)]

ghost use Rattle.std.specs.Prelude.{ℕ, ◌<◌, ◌≤◌, length, take, IfOk, OnErr};
ghost use Rattle.std.specs.Io.{ReadsAtMost};
ghost use Rattle.std.specs.Io.KnownBytes.{Consumes, IsAtEnd};

use std::io;
use std::io::Read;

// Reads until the buffer is full or the input ends, and says how many bytes it put at the front of the buffer. It fails
// only where a read fails, with that read's error: the bytes of the reads before it stand at the front of the buffer.
pub fn read_full<R: Read>(reader: &mut R, buf: &mut [u8]) -> io::Result<usize>
    ensures bound { ReadsAtMost result buf.new }
    ensures bytes { IfOk result (λ n. Consumes (R.remaining reader.old) (R.remaining reader.new) (take n buf.new)) }
    ensures end { IfOk result (λ n. n < length buf.new → IsAtEnd (R.remaining reader.new)) }
    ensures err { OnErr result ((n : ℕ) × (n ≤ length buf.new) × Consumes (R.remaining reader.old) (R.remaining reader.new) (take n buf.new)) }
{
    let mut done = 0;
    // A `while`, since each turn goes on after as many bytes as its read gave.
    while done < buf.len() {
        let n = reader.read(&mut buf[done..])?;
        if n == 0 {
            break;
        }
        done += n;
    }
    Ok(done)
}

#[cfg(test)]
mod tests {
    use super::*;
    use std::io::{Error, ErrorKind};

    // Gives a byte for each read, and then the end or an error.
    #[derive(Drop)]
    struct ByteByByte<'a> {
        left: &'a [u8],
        fails_at_end: bool,
    }

    impl Read for ByteByByte<'_> {
        fn read(&mut self, buf: &mut [u8]) -> io::Result<usize> {
            let Some((first, rest)) = self.left.split_first() else {
                if self.fails_at_end {
                    return Err(Error::from(ErrorKind::BrokenPipe));
                }
                return Ok(0);
            };
            if buf.is_empty() {
                return Ok(0);
            }
            buf[0] = *first;
            self.left = rest;
            Ok(1)
        }
    }

    #[test]
    fn reads_no_more_than_the_buffer_holds(rt: HostRuntime) {
        let mut reader = ByteByByte {
            left: b"abcde",
            fails_at_end: false,
        };
        let mut buf = [0u8; 3];
        let read = read_full(&mut reader, &mut buf);
        assert!(rt; matches!(read, Ok(3)));
        assert_eq!(rt; buf, *b"abc");
        assert_eq!(rt; reader.left, b"de".as_slice());
    }

    #[test]
    fn stops_at_the_end_of_the_input(rt: HostRuntime) {
        let mut reader = ByteByByte {
            left: b"ab",
            fails_at_end: false,
        };
        let mut buf = [b'-'; 4];
        let read = read_full(&mut reader, &mut buf);
        assert!(rt; matches!(read, Ok(2)));
        assert_eq!(rt; buf, *b"ab--");
    }

    #[test]
    fn tells_a_failed_read_after_some_bytes(rt: HostRuntime) {
        let mut reader = ByteByByte {
            left: b"ab",
            fails_at_end: true,
        };
        let mut buf = [b'-'; 4];
        match read_full(&mut reader, &mut buf) {
            Ok(_) => assert!(rt; false),
            Err(e) => assert!(rt; e.kind() == ErrorKind::BrokenPipe),
        }
        assert_eq!(rt; buf, *b"ab--");
    }

    #[test]
    fn reads_from_memory(rt: HostRuntime) {
        let mut input: &[u8] = b"abc";
        let mut buf = [b'-'; 4];
        let read = read_full(&mut input, &mut buf);
        assert!(rt; matches!(read, Ok(3)));
        assert_eq!(rt; buf, *b"abc-");
        assert!(rt; input.is_empty());
    }
}
