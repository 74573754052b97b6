// Reading a program's input into buffers that are lent, over std's readers.
#![tactic(auto)]

ghost use Rattle.std.specs.Prelude.{ℕ, ◌<◌, length, take, IfOk, OnErr};
ghost use Rattle.std.specs.Io.{ReadsAtMost};
ghost use Rattle.std.specs.Io.KnownBytes.{Consumes, IsAtEnd};

use std::io;
use std::io::Read;

// Reads until the buffer is full or the input ends, and answers how many bytes it put at the buffer's start: fewer than it holds only at
// the input's end. What was read before an error stands at the buffer's start too. On an empty buffer it makes no call.
pub fn read_full<R: Read>(reader: &mut R, buffer: &mut [u8]) -> io::Result<usize>
    ensures bound { ReadsAtMost result buffer.new }
    ensures bytes { IfOk result
        (λ n. Consumes (R.remaining reader.old) (R.remaining reader.new) (take n buffer.new)) }
    ensures end { IfOk result (λ n. n < length buffer.new → IsAtEnd (R.remaining reader.new)) }
    ensures err { OnErr result ((n : ℕ) × (n < length buffer.new)
        × Consumes (R.remaining reader.old) (R.remaining reader.new) (take n buffer.new)) }
{
    let mut done = 0;
    // Not by a `for`: it goes on by as many bytes as the reader gave.
    while done < buffer.len() {
        let count = reader.read(&mut buffer[done..])?;
        if count == 0 {
            break;
        }
        done += count;
    }
    Ok(done)
}

#[cfg(test)]
mod tests {
    use super::*;
    use std::io::ErrorKind;
    use std::test::Fail;

    // Gives a byte a call, as many as are left, and then fails.
    #[derive(Drop)]
    struct Failing {
        left: u8,
    }

    impl Read for Failing {
        fn read(&mut self, buffer: &mut [u8]) -> io::Result<usize> {
            if self.left == 0 {
                return Err(io::Error::from(ErrorKind::TimedOut));
            }
            if buffer.is_empty() {
                return Ok(0);
            }
            buffer[0] = self.left;
            self.left -= 1;
            Ok(1)
        }
    }

    #[test]
    fn error_behind_two_reads(rt: HostRuntime) -> Result<(), Fail> {
        let mut reader = Failing { left: 3 };
        let mut buffer = [9u8; 2];
        assert_eq!(rt; read_full(&mut reader, &mut buffer)?, 2);
        assert_eq!(rt; buffer, [3, 2]);
        assert!(rt; read_full(&mut reader, &mut buffer).is_err());
        assert_eq!(rt; buffer, [1, 2]);
        Ok(())
    }

    #[test]
    fn end_before_the_buffer_is_full(rt: HostRuntime) -> Result<(), Fail> {
        let mut text: &[u8] = b"abc";
        let mut buffer = [0u8; 5];
        assert_eq!(rt; read_full(&mut text, &mut buffer)?, 3);
        assert_eq!(rt; buffer, [97, 98, 99, 0, 0]);
        assert_eq!(rt; read_full(&mut text, &mut buffer)?, 0);
        Ok(())
    }
}
