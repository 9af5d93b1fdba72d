//! Writes whole texts to a writer.
ghost use Rattle.std.specs.Prelude.{◌≡◌, ◌≢◌, ℕ, ◌≤◌, List, length, take, ◌++◌, IfOk, IfErr, OnOk, OnErr};
ghost use Rattle.std.specs.Io.KnownBytes.{Appends, Keeps};
ghost use Rattle.std.specs.IoError.{error_kind};
ghost use Rattle.http_messages.specs.Sending.{AppendsPrefix};

use std::io;
use std::io::{ErrorKind, Write};

// Writes once. Retries an interrupted write, as often as the standard library's own writers do.
fn write_some<W: Write>(writer: &mut W, text: &[u8]) -> io::Result<usize>
    ensures ok { IfOk result (λ n. (n ≤ length text.now)
        × Appends (W.contents writer.old) (W.contents writer.new) (take n text.now)) }
    ensures err { OnErr result (Keeps (W.contents writer.old) (W.contents writer.new)) }
    ensures retried { IfErr result (λ e. error_kind e ≢ ErrorKind.Interrupted) }
{
    'tries: for _ in 0..u64::MAX {
        match writer.write(text) {
            Ok(n) => return Ok(n),
            Err(e) if e.kind() == ErrorKind::Interrupted => {}
            Err(e) => return Err(e),
        }
    }
    Err(ErrorKind::Other.into())
}

// Flushes. Retries an interrupted flush.
fn flush<W: Write>(writer: &mut W) -> io::Result<()>
    ensures kept { Keeps (W.contents writer.old) (W.contents writer.new) }
    ensures retried { IfErr result (λ e. error_kind e ≢ ErrorKind.Interrupted) }
{
    'tries: for _ in 0..u64::MAX {
        match writer.flush() {
            Ok(()) => return Ok(()),
            Err(e) if e.kind() == ErrorKind::Interrupted => {}
            Err(e) => return Err(e),
        }
    }
    Err(ErrorKind::Other.into())
}

/// Writes a text, and then flushes if `flushes` is true. Retries interrupted calls.
///
/// # Errors
///
/// The writer's error, or `WriteZero` if it takes no byte. A prefix of the text may have been
/// written.
pub fn send_all<W: Write>(writer: &mut W, text: &[u8], flushes: bool) -> io::Result<()>
    ensures ok { OnOk result (Appends (W.contents writer.old) (W.contents writer.new) text.now) }
    ensures err { OnErr result
        (AppendsPrefix (W.contents writer.old) (W.contents writer.new) text.now) }
    ensures retried { IfErr result (λ e. error_kind e ≢ ErrorKind.Interrupted) }
{
    let mut at = 0;
    'writes: while at < text.len() {
        match write_some(writer, &text[at..])? {
            0 => return Err(ErrorKind::WriteZero.into()),
            n => at += n,
        }
    }
    if flushes {
        flush(writer)?;
    }
    Ok(())
}

/// Why a text was not written in full: what kind of error stopped it.
#[derive(Clone, Copy, Debug, PartialEq, Eq)]
pub struct Unsent {
    pub kind: ErrorKind,
}

// Returns the kind of an error.
#[cold]
#[inline(never)]
fn kind_of(error: &io::Error) -> ErrorKind
    ensures { result ≡ error_kind error.now }
{
    error.kind()
}

// Writes what the first write left of a text, and flushes if `flushes` is true.
#[cold]
#[inline(never)]
fn send_rest<W: Write>(writer: &mut W, text: &[u8], flushes: bool) -> Result<(), Unsent>
    ensures ok { OnOk result (Appends (W.contents writer.old) (W.contents writer.new) text.now) }
    ensures err { OnErr result
        (AppendsPrefix (W.contents writer.old) (W.contents writer.new) text.now) }
    ensures retried { IfErr result (λ unsent. unsent.kind ≢ ErrorKind.Interrupted) }
{
    match send_all(writer, text, flushes) {
        Ok(()) => Ok(()),
        Err(e) => Err(Unsent { kind: e.kind() }),
    }
}

/// Writes a text as `send_all` does, in one short call if the writer takes all of it and `flushes`
/// is false. Retries interrupted calls.
///
/// # Errors
///
/// `Unsent` with the kind of the writer's error, or with `WriteZero` if the writer takes no byte
/// twice in turn. A prefix of the text may have been written.
#[inline(always)]
pub fn send_whole<W: Write>(writer: &mut W, text: &[u8], flushes: bool) -> Result<(), Unsent>
    ensures ok { OnOk result (Appends (W.contents writer.old) (W.contents writer.new) text.now) }
    ensures err { OnErr result
        (AppendsPrefix (W.contents writer.old) (W.contents writer.new) text.now) }
    ensures retried { IfErr result (λ unsent. unsent.kind ≢ ErrorKind.Interrupted) }
{
    let taken = match &writer.write(text) {
        Ok(n) => *n,
        Err(e) => match kind_of(e) {
            ErrorKind::Interrupted => 0,
            kind => return Err(Unsent { kind }),
        },
    };
    if taken == text.len() && !flushes {
        return Ok(());
    }
    send_rest(writer, &text[taken..], flushes)
}
