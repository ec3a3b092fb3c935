// What a program takes of its input: its first bytes, as many as a buffer has room for.
#![tactic(auto)]

ghost use Rattle.std.specs.Prelude.{◌≡◌, length, take, replicate, IfOk, OnOk, IfSome};
ghost use Rattle.std.specs.Io.{ReadsAtMost};
ghost use Rattle.stream.specs.Answer.{Takes};

use std::io;
use std::io::Read;

// How many bytes of its input a program takes: document 01's number.
const TAKEN_BYTES: usize = 65536;

// A buffer for an input's first 65,536 bytes.
pub fn large_buffer() -> [u8; TAKEN_BYTES]
    ensures { result ≡ replicate 65536 0 }
{
    [0; TAKEN_BYTES]
}

// Reads until the buffer is full or the input ends, and answers how many bytes it put at the buffer's start. A read
// that fails, also by a signal, is answered with its error. Open, as std's `Read` leaves them so, are the buffer's
// bytes past those that were read, and all of them after an error; where a reader's bytes aren't known, so are those
// that were read. A loop, and not `read_exact`, which where the input ends too early says nothing of what came before.
pub fn read_full<R: Read>(reader: &mut R, buffer: &mut [u8]) -> io::Result<usize>
    ensures bound { ReadsAtMost result buffer.new }
    ensures bytes { IfOk result (λ n. IfSome (R.remaining reader.old)
        (λ xs. take n buffer.new ≡ take (length buffer.new) xs)) }
    ensures rest { OnOk result (Takes (length buffer.new) (R.remaining reader.old) (R.remaining reader.new)) }
{
    let mut done = 0;
    while done < buffer.len() {
        let n = reader.read(&mut buffer[done..])?;
        if n == 0 {
            return Ok(done);
        }
        done += n;
    }
    Ok(done)
}

#[cfg(test)]
mod tests {
    use super::*;
    use std::io::ErrorKind;
    use std::test::Fail;

    // Gives so many times one byte of value 7, and then fails.
    #[derive(Drop)]
    struct Broken {
        left: u8,
    }

    impl Read for Broken {
        fn read(&mut self, buffer: &mut [u8]) -> io::Result<usize> {
            if self.left == 0 {
                return Err(io::Error::from(ErrorKind::BrokenPipe));
            }
            if buffer.is_empty() {
                return Ok(0);
            }
            self.left -= 1;
            buffer[0] = 7;
            Ok(1)
        }
    }

    #[test]
    fn reads_to_the_end_or_until_full(rt: HostRuntime) -> Result<(), Fail> {
        let mut reader: &[u8] = b"abcdefgh";
        let mut buffer = [0; 5];
        let first = read_full(&mut reader, &mut buffer)?;
        assert_eq!(rt; first, 5);
        assert_eq!(rt; buffer, *b"abcde");
        let second = read_full(&mut reader, &mut buffer)?;
        assert_eq!(rt; second, 3);
        assert_eq!(rt; &buffer[..3], b"fgh".as_slice());
        let third = read_full(&mut reader, &mut buffer)?;
        assert_eq!(rt; third, 0);
        Ok(())
    }

    #[test]
    fn a_failed_read_is_told(rt: HostRuntime) -> Result<(), Fail> {
        let mut buffer = [0; 5];
        let full = read_full(&mut Broken { left: 5 }, &mut buffer)?;
        assert_eq!(rt; full, 5);
        let failed = read_full(&mut Broken { left: 4 }, &mut buffer);
        assert!(rt; matches!(failed, Err(e) if e.kind() == ErrorKind::BrokenPipe));
        Ok(())
    }
}
