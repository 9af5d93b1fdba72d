//! Reads once into the rest of a buffer.
ghost use Rattle.std.specs.Prelude.{◌≡◌, ◌≢◌, ◌<◌, ◌≤◌, length, take, IfOk, IfErr, OnErr};
ghost use Rattle.std.specs.Io.KnownBytes.{Keeps};
ghost use Rattle.std.specs.IoError.{error_kind};
ghost use Rattle.http_messages.specs.ReadBuffer.{ReadsAt};

use std::io;
use std::io::{ErrorKind, Read};

// Reads once into `buf`, from `start` to `end`.
fn read_once<R: Read>(reader: &mut R, buf: &mut [u8], start: usize, end: usize) -> io::Result<usize>
    requires some { start < end }
    requires within { end ≤ length buf.old }
    ensures size { length buf.new ≡ length buf.old }
    ensures ok { IfOk result (λ n. ReadsAt buf.old buf.new start end n (R.remaining reader.old)
        (R.remaining reader.new)) }
    ensures err { OnErr result (take start buf.new ≡ take start buf.old) }
    ensures kept { OnErr result (Keeps (R.remaining reader.old) (R.remaining reader.new)) }
{
    let n = reader.read(&mut buf[start..end])?;
    Ok(n)
}

/// Reads into `buf`, from `start` to `end`. Retries an interrupted read, as often as the standard
/// library's own readers do.
pub fn read_at<R: Read>(
    reader: &mut R,
    buf: &mut [u8],
    start: usize,
    end: usize,
) -> io::Result<usize>
    requires some { start < end }
    requires within { end ≤ length buf.old }
    ensures ok { IfOk result (λ n. ReadsAt buf.old buf.new start end n (R.remaining reader.old)
        (R.remaining reader.new)) }
    ensures err { OnErr result (take start buf.new ≡ take start buf.old) }
    ensures kept { OnErr result (Keeps (R.remaining reader.old) (R.remaining reader.new)) }
    ensures retried { IfErr result (λ e. error_kind e ≢ ErrorKind.Interrupted) }
{
    'tries: for _ in 0..u64::MAX {
        match read_once(reader, buf, start, end) {
            Ok(n) => return Ok(n),
            Err(e) if e.kind() == ErrorKind::Interrupted => {}
            Err(e) => return Err(e),
        }
    }
    Err(ErrorKind::Other.into())
}
