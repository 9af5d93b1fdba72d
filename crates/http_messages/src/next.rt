//! Reads the next message of a reader.
ghost use Rattle.std.specs.Prelude.{◌≡◌, ◌≤◌, length, IfOk, IfSome};
ghost use Rattle.std.specs.Io.KnownBytes.{Keeps};
ghost use Rattle.http_messages.specs.Arrived.{IsDecided};
ghost use Rattle.http_messages.specs.ReadBuffer.{buffered_bytes, remaining_input};
ghost use Rattle.http_messages.specs.Reading.{IsAtHand, IsBufferedAhead, IsRead};
ghost use Rattle.http_messages.specs.Table.{table};

use crate::arrived::{Arrived, next_arrived};
use crate::paths::Route;
use crate::read_buffer::ReadBuffer;
use httparse::spans::HeaderSpan;
use matchit::Router;
use std::io::Read;

/// Why there is no next message: the reader failed, or the allocation of the buffer did.
#[derive(Clone, Copy, Debug)]
pub enum NextFault {
    Read,
    Memory,
}

/// Reads until the buffered bytes begin with a message, with what is refused in place of one, or
/// with the end of the input. Returns that, and never a part.
///
/// Reads nothing if the bytes begin with a whole message already, or with a head that is refused.
/// Path, method and the form of the body are judged later.
///
/// # Errors
///
/// `Read` if the reader fails, `Memory` if the message does not fit into the buffer and the buffer
/// cannot grow.
pub fn next_message<R: Read>(
    buffer: &mut ReadBuffer,
    headers: &mut [HeaderSpan],
    router: &Router<Route>,
    reader: &mut R,
) -> Result<Arrived, NextFault>
    requires room { length headers.old ≡ 64 }
    requires router { router.now ≡ table }
    requires ahead { length (buffered_bytes buffer.old) ≤ 8192 }
    ensures room { length headers.new ≡ 64 }
    ensures input { Keeps (remaining_input buffer.old (R.remaining reader.old))
        (remaining_input buffer.new (R.remaining reader.new)) }
    ensures at_hand { IfOk result (IsAtHand (buffered_bytes buffer.new) (R.remaining reader.new)) }
    ensures ahead { IfOk result (IsBufferedAhead (buffered_bytes buffer.new)) }
    ensures unread { IsDecided (buffered_bytes buffer.old)
        → (buffered_bytes buffer.new ≡ buffered_bytes buffer.old)
        × (R.remaining reader.new ≡ R.remaining reader.old) }
    ensures read { IfSome (remaining_input buffer.old (R.remaining reader.old))
        (λ input. IsRead result input (R.remaining reader.new)) }
{
    let mut has_ended = false;
    'looks: loop {
        let arrived = next_arrived(buffer.buffered(), has_ended, headers, router);
        let Arrived::Part { wanted } = arrived else {
            return Ok(arrived);
        };
        has_ended = buffer.read_until(reader, wanted)?;
    }
}
