//! Writes files line by line.
ghost use Rattle.std.specs.Prelude.{◌≡◌, ◌≤◌, ◌++◌, ◌∷◌, [], ℕ, List, IfErr, IfOk, length, map, string_bytes};
ghost use Rattle.std.specs.Io.KnownBytes.{Appends};
ghost use Rattle.bulk.specs.Files.{AreSent, EndsWithin, IsSentPart, file_text};

use crate::line::LineBuffer;
use crate::watching::RowWatcher;
use std::io::Write;

/// An item with a line of its own in a file.
pub trait InLine {
    ghost text: { Self → List ℕ };

    /// Writes the item's line, instead of the line before.
    fn put_in(&self, line: &mut LineBuffer)
        ensures { string_bytes line.new.text ≡ text self.now };
}

// Sends the lines of these rows. Returns their number, or on failure how many were sent in full.
fn send_rows<L: InLine, W: Write, N: RowWatcher>(
    line: &mut LineBuffer,
    rows: &[L],
    writer: &mut W,
    watcher: &mut N,
) -> Result<u64, u64>
    ensures ok { IfOk result (λ count. (count ≡ length rows.now)
        × AreSent (W.contents writer.old) (W.contents writer.new) (map L.text rows.now)) }
    ensures err { IfErr result (IsSentPart (W.contents writer.old) (W.contents writer.new)
        (map L.text rows.now)) }
{
    let mut count: u64 = 0;
    for row in rows {
        row.put_in(line);
        match line.send(writer) {
            Ok(()) => {}
            Err(_) => return Err(count),
        }
        count += 1;
        watcher.row(count);
    }
    Ok(count)
}

/// Sends a header and then the lines of these rows, each flushed before the next. Returns the
/// number of rows, or on failure how many were sent in full. Notes each row with the watcher.
pub fn send_file<L: InLine, W: Write, N: RowWatcher>(
    line: &mut LineBuffer,
    header: &str,
    rows: &[L],
    writer: &mut W,
    watcher: &mut N,
) -> Result<u64, u64>
    requires { length header.now ≤ 127 }
    ensures ok { IfOk result (λ count. (count ≡ length rows.now)
        × Appends (W.contents writer.old) (W.contents writer.new)
        (file_text (header.now ++ 10 ∷ []) (map L.text rows.now))) }
    ensures err { IfErr result (λ count. EndsWithin (W.contents writer.old) (W.contents writer.new)
        (header.now ++ 10 ∷ []) (map L.text rows.now) count) }
{
    line.set_first(header);
    match line.send(writer) {
        Ok(()) => send_rows(line, rows, writer, watcher),
        Err(_) => Err(0),
    }
}
