// A buffer filled from a reader.
#![tactic(auto)]

ghost use Rattle.std.specs.Prelude.{◌<◌, length, take, IfOk};
ghost use Rattle.std.specs.Io.{ReadsAtMost};
ghost use Rattle.std.specs.Io.KnownBytes.{Consumes, IsAtEnd};

use std::io;
use std::io::Read;

// Reads until the buffer is full or the input ends, and answers how many bytes were put at its start. After an error some bytes may be gone.
// Kept, no plainer: a step is as many bytes as the reader gave.
pub fn read_full<R: Read>(from: &mut R, buf: &mut [u8]) -> io::Result<usize>
    ensures within { ReadsAtMost result buf.new }
    ensures bytes { IfOk result (λ n. Consumes (R.remaining from.old) (R.remaining from.new) (take n buf.new)) }
    ensures short_at_end { IfOk result (λ n. n < length buf.new → IsAtEnd (R.remaining from.new)) }
{
    let mut done = 0;
    while done < buf.len() {
        let n = from.read(&mut buf[done..])?;
        if n == 0 {
            return Ok(done);
        }
        done += n;
    }
    Ok(done)
}

#[cfg(test)]
mod tests {
    use crate::read_full;
    use std::io;
    use std::io::Read;

    // a reader that gives two bytes, then three
    #[test]
    fn joins_short_reads(rt: HostRuntime) -> io::Result<()> {
        let mut from = b"ab".as_slice().chain(b"cde".as_slice());
        let mut buf = [0u8; 4];
        assert!(rt; read_full(&mut from, &mut buf)? == 4);
        assert!(rt; buf == *b"abcd");
        assert!(rt; read_full(&mut from, &mut buf)? == 1);
        assert!(rt; buf == *b"ebcd");
        assert!(rt; read_full(&mut from, &mut buf)? == 0);
        Ok(())
    }
}
