//! Scans a body's bytes once, for an object of plain values.
//!
//! Accepts spaces and line feeds between the parts, and no escapes in texts.
ghost use Rattle.std.specs.Prelude.{◌≡◌, ◌≤◌, ◌∷◌, ◌++◌, [], true, length, take, Some, IfSome};
ghost use Rattle.std.specs.List.{list_all};
ghost use Rattle.std.specs.Char.{is_ascii_digit};
ghost use Rattle.std.specs.Str.{IsUtf8};
ghost use Rattle.json.specs.Print.{quoted, token_text, IsNumber};
ghost use Rattle.json.specs.Token.{number};
ghost use Rattle.serde_json.specs.Read.{number_of};
ghost use Rattle.serde_json.specs.Data.{unsigned};
ghost use Rattle.json_api.specs.Flat.{flat_data};
ghost use Rattle.json_api.specs.declared.flat.Scalar.TheVariants.{Whole as WholeValue};
ghost use Rattle.json_api.specs.Forms.{json_of};
ghost use Rattle.json_api.specs.Scanned.{is_plain as is_plain_byte, IsAfterGap, IsScalarThen, IsMemberThen};

use crate::flat::{MOST_MEMBERS, Member, Scalar};
use arrayvec::ArrayVec;
use http_messages::read_number;

// Whether each byte is a printable ASCII character other than a quote and a backslash, in rows of
// 32. A lookup takes half the time of four comparisons.
static PLAIN: [u8; 256] = *b"\
    00000000000000000000000000000000\
    11011111111111111111111111111111\
    11111111111111111111111111110111\
    11111111111111111111111111111110\
    00000000000000000000000000000000\
    00000000000000000000000000000000\
    00000000000000000000000000000000\
    00000000000000000000000000000000";

// Returns whether a byte represents itself in a text.
fn is_plain(byte: u8) -> bool
    ensures { result ≡ is_plain_byte byte }
{
    PLAIN[usize::from(byte)] == b'1'
}

// Returns the bytes after the leading spaces and line feeds.
fn skip_gap(bytes: &[u8]) -> &[u8]
    ensures { IsAfterGap bytes.now result.now }
{
    let mut rest = bytes;
    'gap: loop {
        match rest.split_first() {
            Some((byte, after)) if *byte == b' ' || *byte == b'\n' => rest = after,
            _ => return rest,
        }
    }
}

// Returns the bytes after `first`, if they begin with it.
fn strip_byte(bytes: &[u8], first: u8) -> Option<&[u8]>
    ensures { IfSome result (λ rest. bytes.now ≡ first ∷ rest.now) }
{
    match bytes.split_first() {
        Some((byte, rest)) if *byte == first => Some(rest),
        _ => None,
    }
}

// Returns the number of leading plain bytes.
fn plain_len(bytes: &[u8]) -> usize
    ensures within { result ≤ length bytes.now }
    ensures plain { list_all is_plain_byte (take result bytes.now) ≡ true }
{
    let mut len = 0;
    'bytes: while len < bytes.len() && is_plain(bytes[len]) {
        len += 1;
    }
    len
}

// Returns the number of leading digits.
fn digits_len(bytes: &[u8]) -> usize
    ensures within { result ≤ length bytes.now }
    ensures digits { list_all is_ascii_digit (take result bytes.now) ≡ true }
{
    let mut len = 0;
    'bytes: while len < bytes.len() && bytes[len].is_ascii_digit() {
        len += 1;
    }
    len
}

// Converts plain bytes to a text.
fn plain_text(bytes: &[u8]) -> &str
    requires { list_all is_plain_byte bytes.now ≡ true }
    ensures { result.now ≡ bytes.now }
{
    // Plain bytes are ASCII.
    unsafe { str::from_utf8_unchecked(bytes) }
}

// Reads a text in quotes. Returns it and the bytes after it.
// Inlined: each return moves what was read and the rest.
#[inline(always)]
pub(crate) fn text_at(bytes: &[u8]) -> Option<(&str, &[u8])>
    ensures utf8 { IfSome result (λ found. IsUtf8 found.0.now) }
    ensures text { IfSome result (λ found. bytes.now ≡ quoted found.0.now ++ found.1.now) }
{
    let inner = strip_byte(bytes, b'"')?;
    let (text, rest) = inner.split_at(plain_len(inner));
    let rest = strip_byte(rest, b'"')?;
    Some((plain_text(text), rest))
}

// Reads a whole number without leading zeros. Returns it and the bytes after it.
// Inlined: each return moves what was read and the rest.
#[inline(always)]
pub(crate) fn whole_at(bytes: &[u8]) -> Option<(u64, &[u8])>
    ensures { IfSome result (λ found. IsScalarThen bytes.now (WholeValue found.0) found.1.now) }
{
    let (digits, rest) = bytes.split_at(digits_len(bytes));
    if digits.len() > 1 && digits[0] == b'0' {
        return None;
    }
    Some((read_number(digits)?, rest))
}

// Reads a plain value. Returns it and the bytes after it.
pub(crate) fn scalar_at(bytes: &[u8]) -> Option<(Scalar<'_>, &[u8])>
    ensures { IfSome result (λ found. IsScalarThen bytes.now found.0 found.1.now) }
{
    match bytes.first()? {
        b'"' => {
            let (text, rest) = text_at(bytes)?;
            Some((Scalar::Text(text), rest))
        }
        b't' => Some((Scalar::Flag(true), bytes.strip_prefix(b"true")?)),
        b'f' => Some((Scalar::Flag(false), bytes.strip_prefix(b"false")?)),
        b'n' => Some((Scalar::Null, bytes.strip_prefix(b"null")?)),
        _ => {
            let (number, rest) = whole_at(bytes)?;
            Some((Scalar::Whole(number), rest))
        }
    }
}

// Reads a key and its value. Returns them and the bytes after them.
fn member_at(bytes: &[u8]) -> Option<(Member<'_>, &[u8])>
    ensures { IfSome result (λ found. IsMemberThen bytes.now found.0 found.1.now) }
{
    let (key, rest) = text_at(skip_gap(bytes))?;
    let (value, rest) = scalar_at(skip_gap(strip_byte(rest, b':')?))?;
    Some((Member { key, value }, rest))
}

/// Reads the members of the object in `body`. `None` does not imply that the body is invalid.
pub(crate) fn read_members<'a>(
    body: &'a [u8],
    members: &mut ArrayVec<Member<'a>, MOST_MEMBERS>,
) -> Option<()>
    requires { members.old.items ≡ [] }
    ensures { IfSome result (λ _. json_of body.now ≡ Some (flat_data members.new.items)) }
{
    let mut rest = strip_byte(body, b'{')?;
    'members: loop {
        let (member, after) = member_at(rest)?;
        let Ok(()) = members.try_push(member) else {
            return None;
        };
        if let Some(next) = strip_byte(after, b',') {
            rest = next;
        } else {
            return match strip_byte(skip_gap(after), b'}') {
                Some([]) => Some(()),
                _ => None,
            };
        }
    }
}
