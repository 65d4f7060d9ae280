// Reading input into a lent buffer.
ghost use Rattle.std.specs.Prelude.{◌<◌, ◌≤◌, take, length, IfOk};
ghost use Rattle.std.specs.Io.KnownBytes.{Consumes, IsAtEnd};
ghost use Rattle.printing.specs.Input.{bytes_of};

use std::io;
use std::io::Read;

// A read failed, after so many bytes.
#[derive(Debug, Drop)]
pub struct ReadFailed {
    pub bytes: usize,
    pub error: io::Error,
}

impl From<ReadFailed> for io::Error {
    fn from(value: ReadFailed) -> io::Error {
        value.error
    }
}

// Reads until buf is full or the input ends. Input can come in pieces; they stand in buf one after the other.
// A `while`, since a step is as long as what was read.
pub fn read_full<R: Read>(reader: &mut R, buf: &mut [u8]) -> Result<usize, ReadFailed>
    ensures most { bytes_of result ≤ length buf.new }
    ensures front { Consumes (R.remaining reader.old) (R.remaining reader.new) (take (bytes_of result) buf.new) }
    ensures whole { IfOk result (λ n. n < length buf.new → IsAtEnd (R.remaining reader.new)) }
{
    let mut n: usize = 0;
    while n < buf.len() {
        let more = reader
            .read(&mut buf[n..])
            .map_err(|error| ReadFailed { bytes: n, error })?;
        if more == 0 {
            break;
        }
        n += more;
    }
    Ok(n)
}
