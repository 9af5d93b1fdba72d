//! Writes HTTP responses into reserved memory.
ghost use Rattle.std.specs.Prelude.{◌≡◌, ℕ, ◌+◌, ◌≤◌, ◌<◌, ◌^◌, ◌++◌, length, codes, decimal, string_bytes, IfOk, OnOk, string_len, string_capacity};
ghost use Rattle.json_api.specs.Response.{response, head, head_start, IsAnswered, phrase};

use crate::append::put;
use crate::tail::Tail;
use http::StatusCode;
use std::alloc::{AllocError, Global};

/// The bytes reserved for each body; a registration, a donation, a fetch or a query may need more.
pub const SMALL_CAPACITY: usize = 512;

/// The most bytes of a response's head.
pub const HEAD_CAPACITY: usize = 160;

/// The buffer of a response: its body, then its whole text.
#[derive(Drop)]
pub struct ResponseBuffer {
    pub body: String,
    pub text: String,
}

// Returns the reason phrase of a status.
#[tactic(auto, using(crate::proofs::Phrases::short_phrase), unfolding(crate::specs::Response::phrase))]
fn phrase_of(status: StatusCode) -> &'static str
    ensures text { result.now ≡ phrase status }
    ensures short { IsAnswered status → length result.now ≤ 31 }
{
    status.canonical_reason().unwrap_or("")
}

// Appends the head of a response with this status, up to the length of the body.
fn put_status(out: &mut String, status: StatusCode)
    requires fits { string_len out.old + 136 ≤ string_capacity out.old }
    requires answered { IsAnswered status }
    ensures bytes { string_bytes out.new ≡ string_bytes out.old ++ head_start status }
    ensures len { string_len out.new ≤ string_len out.old + 136 }
    ensures capacity { string_capacity out.old ≤ string_capacity out.new }
{
    put(out, "HTTP/1.1 ");
    put(out, status.as_str());
    put(out, " ");
    put(out, phrase_of(status));
    put(
        out,
        "\r\ncontent-type: application/json\r\ncontent-length: ",
    );
}

// Appends the head of a success, up to the length of the body.
// Inlined: almost every message passes here.
#[tactic(auto, unfolding(crate::specs::Response::phrase))]
#[inline(always)]
fn put_ok(out: &mut String)
    requires fits { string_len out.old + 136 ≤ string_capacity out.old }
    ensures bytes { string_bytes out.new ≡ string_bytes out.old ++ head_start 200 }
    ensures len { string_len out.new ≤ string_len out.old + 136 }
    ensures capacity { string_capacity out.old ≤ string_capacity out.new }
{
    put(
        out,
        "HTTP/1.1 200 OK\r\ncontent-type: application/json\r\ncontent-length: ",
    );
}

// Appends the head of a response with this status, up to the length of the body. Almost every status
// is 200.
// Inlined: every message passes here.
#[inline(always)]
fn put_start(out: &mut String, status: u16)
    requires fits { string_len out.old + 136 ≤ string_capacity out.old }
    requires answered { IsAnswered status }
    ensures bytes { string_bytes out.new ≡ string_bytes out.old ++ head_start status }
    ensures len { string_len out.new ≤ string_len out.old + 136 }
    ensures capacity { string_capacity out.old ≤ string_capacity out.new }
{
    if status == 200 {
        return put_ok(out);
    }
    match StatusCode::from_u16(status) {
        Ok(status) => put_status(out, status),
        Err(_) => unreachable!(),
    }
}

// Appends the end of a head: the length of the body and the empty line, in one piece.
// Inlined: every message passes here.
#[inline(always)]
fn put_length(out: &mut String, length: u64)
    requires fits { string_len out.old + 24 ≤ string_capacity out.old }
    ensures bytes { string_bytes out.new
        ≡ string_bytes out.old ++ (decimal length ++ codes "\r\n\r\n") }
    ensures len { string_len out.new ≤ string_len out.old + 24 }
    ensures capacity { string_capacity out.old ≤ string_capacity out.new }
{
    let mut end = Tail::<24>::new();
    end.prepend("\r\n\r\n");
    end.prepend_number(length);
    put(out, end.as_str());
}

// Appends the head of a response with this status and a body of `length` bytes.
// Inlined: every message passes here.
#[inline(always)]
fn put_head(out: &mut String, status: u16, length: u64)
    requires fits { string_len out.old + 160 ≤ string_capacity out.old }
    requires answered { IsAnswered status }
    ensures bytes { string_bytes out.new ≡ string_bytes out.old ++ head status length }
    ensures len { string_len out.new ≤ string_len out.old + 160 }
    ensures capacity { string_capacity out.old ≤ string_capacity out.new }
{
    put_start(out, status);
    put_length(out, length);
}

impl ResponseBuffer {
    ghost use Rattle.json_api.specs.ResponseBuffers.{HasCapacity, IsEmpty, IsWritten};

    /// Reserves memory for a response with a body of at most 512 bytes.
    ///
    /// # Errors
    ///
    /// `AllocError` if an allocation fails.
    pub fn new(alloc: Global) -> Result<ResponseBuffer, AllocError>
        ensures capacity { IfOk result (HasCapacity 512) }
        ensures empty { IfOk result IsEmpty }
    {
        Ok(ResponseBuffer {
            body: String::with_capacity(alloc, SMALL_CAPACITY)?,
            text: String::with_capacity(alloc, SMALL_CAPACITY + HEAD_CAPACITY)?,
        })
    }

    /// Empties the buffer for the next response.
    pub fn clear(&mut self)
        ensures empty { IsEmpty self.new }
        ensures capacity { (n : ℕ) → HasCapacity n self.old → HasCapacity n self.new }
    {
        self.body.clear();
        self.text.clear();
    }

    /// Reserves memory for a body of `length` bytes. If that fails, the memory reserved before
    /// remains.
    ///
    /// # Errors
    ///
    /// `AllocError` if an allocation fails.
    pub fn take(&mut self, length: usize) -> Result<(), AllocError>
        requires empty { IsEmpty self.old }
        requires fits { length + 160 < 2 ^ 64 }
        ensures ok { OnOk result (HasCapacity length self.new) }
        ensures empty { IsEmpty self.new }
        ensures capacity { (n : ℕ) → HasCapacity n self.old → HasCapacity n self.new }
    {
        self.body.reserve(length)?;
        self.text.reserve(length + HEAD_CAPACITY)?;
        Ok(())
    }

    /// Reserves memory for the whole response with the body already written.
    ///
    /// # Errors
    ///
    /// `AllocError` if an allocation fails.
    pub fn fit(&mut self) -> Result<(), AllocError>
        requires empty { string_len self.old.text ≡ 0 }
        ensures ok { OnOk result (IsWritten self.new) }
        ensures body { string_bytes self.new.body ≡ string_bytes self.old.body }
        ensures capacity { (n : ℕ) → HasCapacity n self.old → HasCapacity n self.new }
    {
        self.text.reserve(self.body.len() + HEAD_CAPACITY)
    }

    /// Writes the whole response with this status and the body.
    // Inlined: every message passes here.
    #[inline(always)]
    pub fn finish(&mut self, status: u16)
        requires answered { IsAnswered status }
        requires written { IsWritten self.old }
        ensures text { string_bytes self.new.text
            ≡ string_bytes self.old.text ++ response status (string_bytes self.old.body) }
        ensures capacity { (n : ℕ) → HasCapacity n self.old → HasCapacity n self.new }
    {
        put_head(&mut self.text, status, self.body.len() as u64);
        put(&mut self.text, &self.body);
    }
}
