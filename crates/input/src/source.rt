// What is made of the bytes of a file or of standard input.
ghost use Rattle.std.specs.Prelude.{◌≡◌, ℕ, List, [], IfOk, IfSome};

use crate::from_parts::FromParts;
use std::io::Read;
use std::{fs, io};

// How many bytes are read at a time.
const PART: usize = 65536;

// What is made of the bytes of the named file.
pub fn from_file<P: FromParts>(rt: &HostRuntime, name: &str) -> io::Result<P> {
    let mut file = fs::open(rt, name)?;
    let empty = P::with_byte_room(rt.alloc(), len(file.metadata()))?;
    read_all(&mut file, empty)
}

// What is made of the bytes of standard input.
pub fn from_stdin<P: FromParts>(rt: &HostRuntime) -> io::Result<P> {
    let empty = P::with_byte_room(rt.alloc(), len(fs::metadata(rt, "/dev/stdin")))?;
    read_all(&mut rt.stdin(), empty)
}

// For how many bytes there is to be room: as many as a file has; none where its size is not known, as that of a pipe.
fn len(known: io::Result<fs::Metadata>) -> usize {
    known.map_or(0, |metadata| metadata.len() as usize)
}

// Adds all bytes that the source gives to a value of none.
fn read_all<R: Read, P: FromParts>(source: &mut R, mut value: P) -> io::Result<P>
    requires { P.holds [] value }
    ensures { IfOk result (λ whole. IfSome (R.remaining source.old) (λ bytes. P.holds bytes whole)) }
{
    let mut part = [0; PART];
    // Not `io::copy`: that tells of a writer only what bytes it holds, where those are a function of it.
    for _ in 0..u64::MAX {
        match source.read(&mut part) {
            Ok(0) => return Ok(value),
            Ok(len) => value.add_part(&part[..len])?,
            Err(e) if e.kind() == io::ErrorKind::Interrupted => {}
            // Not `?`, which would hand on an interrupted read.
            Err(e) => return Err(e),
        }
    }
    Err(io::Error::from(io::ErrorKind::FileTooLarge))
}

#[cfg(test)]
mod tests {
    use super::*;
    use crate::numbers::Numbers;
    use std::test::Fail;

    // A source that is interrupted before each read, gives a byte at a time, and fails at the end where it is to.
    #[derive(Drop)]
    struct Faltering<'a> {
        bytes: &'a [u8],
        interrupt: bool,
        fail: bool,
    }

    impl Read for Faltering<'_> {
        fn read(&mut self, buf: &mut [u8]) -> io::Result<usize> {
            self.interrupt = !self.interrupt;
            if self.interrupt {
                return Err(io::Error::from(io::ErrorKind::Interrupted));
            }
            match self.bytes.split_first() {
                Some((byte, rest)) if !buf.is_empty() => {
                    buf[0] = *byte;
                    self.bytes = rest;
                    Ok(1)
                }
                None if self.fail => Err(io::Error::from(io::ErrorKind::UnexpectedEof)),
                _ => Ok(0),
            }
        }
    }

    #[test]
    fn interrupted_reads_are_tried_again(rt: HostRuntime) -> Result<(), Fail> {
        let bytes = &[1, 0, 0, 0, 2, 0, 0, 0, 3];
        let mut source = Faltering {
            bytes,
            interrupt: false,
            fail: false,
        };
        let numbers = read_all(&mut source, Numbers::with_byte_room(rt.alloc(), 0)?)?;
        assert_eq!(rt; numbers.as_slice(), &[1, 2][..]);
        Ok(())
    }

    #[test]
    fn other_errors_are_handed_on(rt: HostRuntime) -> Result<(), Fail> {
        let bytes = &[1, 0, 0, 0];
        let mut source = Faltering {
            bytes,
            interrupt: false,
            fail: true,
        };
        match read_all(&mut source, Numbers::with_byte_room(rt.alloc(), 0)?) {
            Ok(_) => assert!(rt; false),
            Err(e) => assert!(rt; e.kind() == io::ErrorKind::UnexpectedEof),
        }
        Ok(())
    }

    #[test]
    fn many_parts(rt: HostRuntime) -> Result<(), Fail> {
        let bytes = [1; 2 * PART + 3];
        let mut source = &bytes[..];
        let numbers = read_all(&mut source, Numbers::with_byte_room(rt.alloc(), PART)?)?;
        assert_eq!(rt; numbers.as_slice().len(), PART / 2);
        assert_eq!(rt; numbers.as_slice()[PART / 2 - 1], 0x0101_0101);
        Ok(())
    }
}
