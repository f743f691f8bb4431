// What the programs ask of the system, over the standard library. What fails is left out and told to nobody: an argument that does not fit is none, and
// a reader that fails has ended. No contract says what arguments there are.
#![tactic(auto)]

ghost use Rattle.std.specs.Prelude.{take};
ghost use Rattle.io.specs.Counts.{IsPrefixLen};
ghost use Rattle.std.specs.Io.KnownBytes.{Consumes};

use std::env::FillError;
use std::io::Read;
use std::rt::Env;

// Whether there is an argument i; argument 0 is the program's name.
pub fn has_argument(rt: &impl Env, i: usize) -> bool {
    !matches!(rt.arg(i, &mut []), Err(FillError::NotPresent))
}

// Argument i in front of the buffer, and how many bytes it has: none where it is missing or does not fit.
pub fn argument(rt: &impl Env, i: usize, out: &mut [u8]) -> usize
    ensures { IsPrefixLen result out.new }
{
    rt.arg(i, out).unwrap_or(0)
}

// Reads until the buffer is full, the reader ends or a read fails, and tells how many bytes stand in front of the buffer: those that the reader gave.
pub fn read_full<R: Read>(from: &mut R, out: &mut [u8]) -> usize
    ensures counts { IsPrefixLen result out.new }
    ensures given { Consumes (R.remaining from.old) (R.remaining from.new) (take result out.new) }
{
    let mut done = 0;
    while done < out.len() {
        match from.read(&mut out[done..]) {
            Ok(0) | Err(_) => break,
            Ok(n) => done += n,
        }
    }
    done
}

#[cfg(test)]
mod tests {
    use super::*;
    use std::io;

    // Gives so many bytes, one at a time, and then fails.
    #[derive(Drop)]
    struct Failing(u8);

    impl Read for Failing {
        fn read(&mut self, buf: &mut [u8]) -> io::Result<usize> {
            if self.0 == 0 || buf.is_empty() {
                return Err(io::Error::from(io::ErrorKind::Other));
            }
            self.0 -= 1;
            buf[0] = b'x';
            Ok(1)
        }
    }

    #[test]
    fn keeps_what_was_read(rt: HostRuntime) {
        let mut out = [0u8; 4];
        assert_eq!(rt; read_full(&mut Failing(3), &mut out), 3);
        assert_eq!(rt; out, *b"xxx\0");
        assert_eq!(rt; read_full(&mut Failing(9), &mut out), 4);
        assert_eq!(rt; out, *b"xxxx");
    }
}
