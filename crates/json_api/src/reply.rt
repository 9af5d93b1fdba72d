//! Appends the bodies of responses.
ghost use Rattle.std.specs.Prelude.{◌≡◌, ℕ, ◌+◌, ◌*◌, ◌≤◌, ◌++◌, OnOk, length, map, decimal, option_map, string_bytes, string_len, string_capacity};
ghost use Rattle.numbers.specs.declared.cic.Cic.{Cic as CicImpl};
ghost use Rattle.numbers.specs.declared.lrn.Lrn.{Lrn as LrnImpl};
ghost use Rattle.numbers.specs.Abstraction.{routing_of};
ghost use Rattle.model.specs.Abstraction.{status_of as status_model};
ghost use Rattle.model.specs.State.{release_of};
ghost use Rattle.version.specs.Abstraction.{routings_of, phase_model};
ghost use Rattle.requests.specs.Calls.{view_of, in_force_of, download_of};
ghost use Rattle.json_api.specs.Response.{refusal_body};
ghost use Rattle.telnp.specs.Answer.{answer_text};
ghost use Rattle.telnp.specs.Abstraction.{uri_of};
ghost use Rattle.json_api.specs.Failures.{failure_body};
ghost use Rattle.json_api.specs.ResponseBuffers.{HasCapacity, IsEmpty, IsWritten};
ghost use Rattle.json_api.specs.Texts.{cic_value, lrn_value, number_value, phase_value, status_word, cic_in, lrn_in, counts_text, parties_text, times_text, state_text, view_text, listed, row_text, registered_text, donated_text, action_word, sent_text, placed_text, download_text, downloads_text, routing_number_text, opened_code_text, ids_text, now_text, windows_set_text, uri_text};

use crate::append::{put, put_block, put_code, put_lrn, put_minute, put_number, put_spid};
use crate::fault::Failure;
use crate::list::{Item, put_list};
use crate::response::ResponseBuffer;
use crate::tail::Tail;
use delivery::{Download, RoutedRow};
use model::{Action, Status};
use numbers::{BlockId, Cic, CodeId, Lrn, Minute, Routing, Spid};
use requests::{Ids, VersionView};
use std::alloc::{AllocError, Global};
use telnp::TelUri;
use version::Phase;

/// The most bytes of a row in force, with a comma.
pub const ROW_CAPACITY: usize = 64;

/// The most bytes of an id, with a comma.
pub const ID_CAPACITY: usize = 21;

/// The most bytes of a download, with a comma.
pub const DOWNLOAD_CAPACITY: usize = 192;

/// Appends the body for a failure, of at most 64 bytes.
pub fn put_failure(out: &mut String, failure: Failure)
    requires { string_len out.old + 64 ≤ string_capacity out.old }
    ensures bytes { string_bytes out.new ≡ string_bytes out.old ++ failure_body failure }
    ensures len { string_len out.new ≤ string_len out.old + 64 }
    ensures capacity { string_capacity out.old ≤ string_capacity out.new }
{
    put(out, "{\"error\":\"");
    put(out, failure.name());
    put(out, "\",\"number\":");
    put_number(out, u64::from(failure.number()));
    put(out, "}");
}

// Writes a phase or null before the tail.
// Inlined: each view of a version passes here.
#[inline(always)]
fn prepend_phase(tail: &mut Tail<256>, phase: Option<Phase>)
    requires { length tail.old + 9 ≤ 256 }
    ensures text { tail.new ≡ phase_value (option_map phase_model phase) ++ tail.old }
    ensures len { length tail.new ≤ length tail.old + 9 }
{
    match phase {
        None => tail.prepend("null"),
        Some(Phase::Initial) => tail.prepend("\"initial\""),
        Some(Phase::Final) => tail.prepend("\"final\""),
        Some(Phase::Ended) => tail.prepend("\"ended\""),
    }
}

// Writes the name of a status before the tail.
// Inlined: each view of a version passes here.
#[inline(always)]
fn prepend_status(tail: &mut Tail<256>, status: Status)
    requires { length tail.old + 18 ≤ 256 }
    ensures text { tail.new ≡ status_word (status_model status) ++ tail.old }
    ensures len { length tail.new ≤ length tail.old + 18 }
{
    match status {
        Status::Pending => tail.prepend("pending"),
        Status::Conflict => tail.prepend("conflict"),
        Status::CancelPending(_) => tail.prepend("cancel-pending"),
        Status::SendingCreate | Status::SendingDelete | Status::SendingModify { .. } => {
            tail.prepend("sending");
        }
        Status::Active => tail.prepend("active"),
        Status::PartialFailure => tail.prepend("partial-failure"),
        Status::Failed => tail.prepend("failed"),
        Status::DisconnectPending(_) => tail.prepend("disconnect-pending"),
        Status::Old => tail.prepend("old"),
        Status::Canceled => tail.prepend("canceled"),
    }
}

// Writes the release minute of a disconnect-pending version, or null, before the tail.
// Inlined: each view of a version passes here.
#[inline(always)]
fn prepend_release(tail: &mut Tail<256>, status: Status)
    requires { length tail.old + 13 ≤ 256 }
    ensures text { tail.new ≡ number_value (release_of (status_model status)) ++ tail.old }
    ensures len { length tail.new ≤ length tail.old + 13 }
{
    match status {
        Status::DisconnectPending(release) => tail.prepend_minute(release),
        _ => tail.prepend("null"),
    }
}

// Writes a CIC in quotes, or null, before the tail.
fn prepend_cic_or_null(tail: &mut Tail<256>, cic: Option<Cic>)
    requires { length tail.old + 6 ≤ 256 }
    ensures text { tail.new ≡ cic_value (option_map (λ (c : CicImpl). c.number) cic) ++ tail.old }
    ensures len { length tail.new ≤ length tail.old + 6 }
{
    match cic {
        None => tail.prepend("null"),
        Some(cic) => {
            tail.prepend("\"");
            tail.prepend_cic(cic);
            tail.prepend("\"");
        }
    }
}

// Writes an LRN in quotes, or null, before the tail.
fn prepend_lrn_or_null(tail: &mut Tail<256>, lrn: Option<Lrn>)
    requires { length tail.old + 12 ≤ 256 }
    ensures text { tail.new ≡ lrn_value (option_map (λ (n : LrnImpl). n.number) lrn) ++ tail.old }
    ensures len { length tail.new ≤ length tail.old + 12 }
{
    match lrn {
        None => tail.prepend("null"),
        Some(lrn) => {
            tail.prepend("\"");
            tail.prepend_lrn(lrn);
            tail.prepend("\"");
        }
    }
}

fn cic_of(routing: Option<Routing>) -> Option<Cic>
    ensures { option_map (λ (c : CicImpl). c.number) result ≡ cic_in (routings_of routing) }
{
    routing?.cic
}

fn lrn_of(routing: Option<Routing>) -> Option<Lrn>
    ensures { option_map (λ (n : LrnImpl). n.number) result ≡ lrn_in (routings_of routing) }
{
    Some(routing?.lrn)
}

// Writes the members `attempt` to `id` before the tail.
// Inlined: the view is then not written to memory.
#[inline(always)]
fn prepend_counts(tail: &mut Tail<256>, view: &VersionView)
    requires { length tail.old + 90 ≤ 256 }
    ensures text { tail.new ≡ counts_text (view_of view.now) ++ tail.old }
    ensures len { length tail.new ≤ length tail.old + 90 }
{
    tail.prepend_number(view.id);
    tail.prepend(",\"id\":");
    tail.prepend_minute(view.version.due);
    tail.prepend(",\"due\":");
    prepend_cic_or_null(tail, cic_of(view.version.routing));
    tail.prepend(",\"cic\":");
    tail.prepend_number(view.version.attempt);
    tail.prepend("{\"attempt\":");
}

// Writes the members `lrn` to `old` before the tail.
// Inlined: the view is then not written to memory.
#[inline(always)]
fn prepend_parties(tail: &mut Tail<256>, view: &VersionView)
    requires { length tail.old + 45 ≤ 256 }
    ensures text { tail.new ≡ parties_text (view_of view.now) ++ tail.old }
    ensures len { length tail.new ≤ length tail.old + 45 }
{
    tail.prepend("\"");
    tail.prepend_spid(view.version.old_provider);
    tail.prepend("\",\"old\":\"");
    tail.prepend_spid(view.version.new_provider);
    tail.prepend(",\"new\":\"");
    prepend_lrn_or_null(tail, lrn_of(view.version.routing));
    tail.prepend(",\"lrn\":");
}

// Writes the members `phase` to `since` before the tail.
// Inlined: the view is then not written to memory.
#[inline(always)]
fn prepend_times(tail: &mut Tail<256>, view: &VersionView)
    requires { length tail.old + 64 ≤ 256 }
    ensures text { tail.new ≡ times_text (view_of view.now) ++ tail.old }
    ensures len { length tail.new ≤ length tail.old + 64 }
{
    tail.prepend_minute(view.version.since);
    tail.prepend(",\"since\":");
    prepend_release(tail, view.version.status);
    tail.prepend(",\"release\":");
    prepend_phase(tail, view.phase);
    tail.prepend(",\"phase\":");
}

// Writes the members `status` and `subject` before the tail.
// Inlined: the view is then not written to memory.
#[inline(always)]
fn prepend_state(tail: &mut Tail<256>, view: &VersionView)
    requires { length tail.old + 54 ≤ 256 }
    ensures text { tail.new ≡ state_text (view_of view.now) ++ tail.old }
    ensures len { length tail.new ≤ length tail.old + 54 }
{
    tail.prepend("\"}");
    tail.prepend_subject(view.version.subject);
    tail.prepend("\",\"subject\":\"");
    prepend_status(tail, view.version.status);
    tail.prepend(",\"status\":\"");
}

/// Appends the body with a version, of at most 400 bytes.
#[tactic(auto, unfolding(crate::specs::Texts::view_text))]
// Inlined: the view is then not written to memory.
#[inline(always)]
pub fn put_version(out: &mut String, view: &VersionView)
    requires { string_len out.old + 400 ≤ string_capacity out.old }
    ensures bytes { string_bytes out.new ≡ string_bytes out.old ++ view_text (view_of view.now) }
    ensures len { string_len out.new ≤ string_len out.old + 400 }
    ensures capacity { string_capacity out.old ≤ string_capacity out.new }
{
    let mut body = Tail::<256>::new();
    prepend_state(&mut body, view);
    prepend_times(&mut body, view);
    prepend_parties(&mut body, view);
    prepend_counts(&mut body, view);
    put(out, body.as_str());
}

/// Appends the body with an LRN and its carrier, of at most 64 bytes.
#[tactic(auto, unfolding(crate::specs::Texts::routing_number_text))]
pub fn put_routing_number(out: &mut String, lrn: Lrn, spid: Spid)
    requires { string_len out.old + 64 ≤ string_capacity out.old }
    ensures bytes { string_bytes out.new
        ≡ string_bytes out.old ++ routing_number_text lrn.number spid.number }
    ensures len { string_len out.new ≤ string_len out.old + 64 }
    ensures capacity { string_capacity out.old ≤ string_capacity out.new }
{
    put(out, "{\"lrn\":\"");
    put_lrn(out, lrn);
    put(out, "\",\"spid\":\"");
    put_spid(out, spid);
    put(out, "\"}");
}

/// Appends the body with a code and its holder, of at most 64 bytes.
#[tactic(auto, unfolding(crate::specs::Texts::opened_code_text))]
pub fn put_opened_code(out: &mut String, code: CodeId, spid: Spid)
    requires { string_len out.old + 64 ≤ string_capacity out.old }
    ensures bytes { string_bytes out.new
        ≡ string_bytes out.old ++ opened_code_text code.number spid.number }
    ensures len { string_len out.new ≤ string_len out.old + 64 }
    ensures capacity { string_capacity out.old ≤ string_capacity out.new }
{
    put(out, "{\"code\":\"");
    put_code(out, code);
    put(out, "\",\"spid\":\"");
    put_spid(out, spid);
    put(out, "\"}");
}

fn put_id_or_null(out: &mut String, id: Option<u64>)
    requires { string_len out.old + 20 ≤ string_capacity out.old }
    ensures bytes { string_bytes out.new ≡ string_bytes out.old ++ number_value id }
    ensures len { string_len out.new ≤ string_len out.old + 20 }
    ensures capacity { string_capacity out.old ≤ string_capacity out.new }
{
    match id {
        None => put(out, "null"),
        Some(id) => put_number(out, id),
    }
}

/// Appends the body with the ids of a number's versions, of at most 64 bytes.
#[tactic(auto, unfolding(crate::specs::Texts::ids_text))]
pub fn put_ids(out: &mut String, ids: Ids)
    requires { string_len out.old + 64 ≤ string_capacity out.old }
    ensures bytes { string_bytes out.new
        ≡ string_bytes out.old ++ ids_text ids.in_force ids.opened }
    ensures len { string_len out.new ≤ string_len out.old + 64 }
    ensures capacity { string_capacity out.old ≤ string_capacity out.new }
{
    put(out, "{\"in_force\":");
    put_id_or_null(out, ids.in_force);
    put(out, ",\"open\":");
    put_id_or_null(out, ids.opened);
    put(out, "}");
}

/// Appends the body with the present minute, of at most 64 bytes.
#[tactic(auto, unfolding(crate::specs::Texts::now_text))]
pub fn put_now(out: &mut String, now: Minute)
    requires { string_len out.old + 64 ≤ string_capacity out.old }
    ensures bytes { string_bytes out.new ≡ string_bytes out.old ++ now_text now.number }
    ensures len { string_len out.new ≤ string_len out.old + 64 }
    ensures capacity { string_capacity out.old ≤ string_capacity out.new }
{
    put(out, "{\"now\":");
    put_minute(out, now);
    put(out, "}");
}

/// Appends the body with the present minute and the number of the present windows, of at most 64
/// bytes.
#[tactic(auto, unfolding(crate::specs::Texts::windows_set_text))]
pub fn put_windows_set(out: &mut String, now: Minute, number: u16)
    requires { string_len out.old + 64 ≤ string_capacity out.old }
    ensures bytes { string_bytes out.new
        ≡ string_bytes out.old ++ windows_set_text now.number number }
    ensures len { string_len out.new ≤ string_len out.old + 64 }
    ensures capacity { string_capacity out.old ≤ string_capacity out.new }
{
    put(out, "{\"now\":");
    put_minute(out, now);
    put(out, ",\"set\":");
    put_number(out, u64::from(number));
    put(out, "}");
}

// Writes a row in force before the tail.
fn prepend_row(tail: &mut Tail<256>, row: &RoutedRow)
    requires { length tail.old + 63 ≤ 256 }
    ensures text { tail.new ≡ row_text (in_force_of row.now) ++ tail.old }
    ensures len { length tail.new ≤ length tail.old + 63 }
{
    tail.prepend("\"}");
    tail.prepend_subject(row.subject);
    tail.prepend(",\"subject\":\"");
    prepend_lrn_or_null(tail, Some(row.routing.lrn));
    tail.prepend(",\"lrn\":");
    prepend_cic_or_null(tail, row.routing.cic);
    tail.prepend("{\"cic\":");
}

// A row in force, as an item of a list.
impl Item for RoutedRow {
    ghost text = { λ r. row_text (in_force_of r) };

    ghost max_len = { 63 };

    fn put(&self, out: &mut String) {
        let mut text = Tail::<256>::new();
        prepend_row(&mut text, self);
        put(out, text.as_str());
    }
}

// Appends rows in force, with a comma between two.
#[tactic(auto, using(crate::proofs::ListLemmas::listed_of))]
fn put_rows(out: &mut String, rows: &[RoutedRow])
    requires { string_len out.old + length rows.now * 64 ≤ string_capacity out.old }
    ensures bytes { string_bytes out.new
        ≡ string_bytes out.old ++ listed row_text (map in_force_of rows.now) }
    ensures len { string_len out.new ≤ string_len out.old + length rows.now * 64 }
    ensures capacity { string_capacity out.old ≤ string_capacity out.new }
{
    put_list(out, rows);
}

/// Appends the body with a carrier and its starting rows, of at most 64 bytes and 64 for each row.
#[tactic(auto, unfolding(crate::specs::Texts::registered_text))]
pub fn put_registered(out: &mut String, spid: Spid, rows: &[RoutedRow])
    requires { string_len out.old + 64 + length rows.now * 64 ≤ string_capacity out.old }
    ensures bytes { string_bytes out.new
        ≡ string_bytes out.old ++ registered_text spid.number (map in_force_of rows.now) }
    ensures len { string_len out.new ≤ string_len out.old + 64 + length rows.now * 64 }
    ensures capacity { string_capacity out.old ≤ string_capacity out.new }
{
    put(out, "{\"rows\":[");
    put_rows(out, rows);
    put(out, "],\"spid\":\"");
    put_spid(out, spid);
    put(out, "\"}");
}

// An id, as an item of a list.
impl Item for u64 {
    ghost text = { λ id. decimal id };

    ghost max_len = { 20 };

    fn put(&self, out: &mut String) {
        put_number(out, *self);
    }
}

// Appends ids, with a comma between two.
fn put_id_list(out: &mut String, ids: &[u64])
    requires { string_len out.old + length ids.now * 21 ≤ string_capacity out.old }
    ensures bytes { string_bytes out.new ≡ string_bytes out.old ++ listed decimal ids.now }
    ensures len { string_len out.new ≤ string_len out.old + length ids.now * 21 }
    ensures capacity { string_capacity out.old ≤ string_capacity out.new }
{
    put_list(out, ids);
}

/// Appends the body with a donated block and the ids of its new versions, of at most 64 bytes and
/// 21 for each id.
#[tactic(auto, unfolding(crate::specs::Texts::donated_text))]
pub fn put_donated(out: &mut String, block: BlockId, ids: &[u64])
    requires { string_len out.old + 64 + length ids.now * 21 ≤ string_capacity out.old }
    ensures bytes { string_bytes out.new
        ≡ string_bytes out.old ++ donated_text block.number ids.now }
    ensures len { string_len out.new ≤ string_len out.old + 64 + length ids.now * 21 }
    ensures capacity { string_capacity out.old ≤ string_capacity out.new }
{
    put(out, "{\"block\":\"");
    put_block(out, block);
    put(out, "\",\"ids\":[");
    put_id_list(out, ids);
    put(out, "]}");
}

// Writes the name of an action before the tail.
fn prepend_action(tail: &mut Tail<256>, action: Action)
    requires { length tail.old + 6 ≤ 256 }
    ensures text { tail.new ≡ action_word action ++ tail.old }
    ensures len { length tail.new ≤ length tail.old + 6 }
{
    match action {
        Action::Create => tail.prepend("create"),
        Action::Delete => tail.prepend("delete"),
        Action::Modify => tail.prepend("modify"),
    }
}

// Writes the members `action` to `id` before the tail.
fn prepend_sent(tail: &mut Tail<256>, download: &Download)
    requires { length tail.old + 100 ≤ 256 }
    ensures text { tail.new ≡ sent_text (download_of download.now) ++ tail.old }
    ensures len { length tail.new ≤ length tail.old + 100 }
{
    tail.prepend_number(download.id);
    tail.prepend(",\"id\":");
    prepend_cic_or_null(tail, cic_of(download.routing));
    tail.prepend(",\"cic\":");
    tail.prepend_number(download.attempt);
    tail.prepend("\",\"attempt\":");
    prepend_action(tail, download.action);
    tail.prepend("{\"action\":\"");
}

// Writes the members `lrn` to `subject` before the tail.
fn prepend_placed(tail: &mut Tail<256>, download: &Download)
    requires { length tail.old + 80 ≤ 256 }
    ensures text { tail.new ≡ placed_text (download_of download.now) ++ tail.old }
    ensures len { length tail.new ≤ length tail.old + 80 }
{
    tail.prepend("\"}");
    tail.prepend_subject(download.subject);
    tail.prepend(",\"subject\":\"");
    tail.prepend_minute(download.minute);
    tail.prepend(",\"minute\":");
    prepend_lrn_or_null(tail, lrn_of(download.routing));
    tail.prepend(",\"lrn\":");
}

// A download, as an item of a list.
impl Item for Download {
    ghost text = { λ d. download_text (download_of d) };

    ghost max_len = { 191 };

    fn put(&self, out: &mut String) {
        let mut text = Tail::<256>::new();
        prepend_placed(&mut text, self);
        prepend_sent(&mut text, self);
        put(out, text.as_str());
    }
}

// Appends downloads, with a comma between two.
#[tactic(auto, using(crate::proofs::ListLemmas::listed_of))]
fn put_download_list(out: &mut String, downloads: &[Download])
    requires { string_len out.old + length downloads.now * 192 ≤ string_capacity out.old }
    ensures bytes { string_bytes out.new
        ≡ string_bytes out.old ++ listed download_text (map download_of downloads.now) }
    ensures len { string_len out.new ≤ string_len out.old + length downloads.now * 192 }
    ensures capacity { string_capacity out.old ≤ string_capacity out.new }
{
    put_list(out, downloads);
}

/// Appends the body with a carrier's first downloads, of at most 64 bytes and 192 for each
/// download.
pub fn put_downloads(out: &mut String, downloads: &[Download])
    requires { string_len out.old + 64 + length downloads.now * 192 ≤ string_capacity out.old }
    ensures bytes { string_bytes out.new
        ≡ string_bytes out.old ++ downloads_text (map download_of downloads.now) }
    ensures len { string_len out.new ≤ string_len out.old + 64 + length downloads.now * 192 }
    ensures capacity { string_capacity out.old ≤ string_capacity out.new }
{
    put(out, "{\"downloads\":[");
    put_download_list(out, downloads);
    put(out, "]}");
}

/// The most bytes of a query's body besides its URI.
pub const URI_CAPACITY: usize = 10;

/// Appends the body with a `tel` URI, of at most 10 bytes more than the URI. No byte of a `tel` URI
/// is a quote, a backslash or a control byte, so none has to be escaped (`uris_need_no_escape` of
/// `api`).
#[tactic(auto, unfolding(crate::specs::Texts::uri_text))]
pub fn put_uri(out: &mut String, uri: &str)
    requires { string_len out.old + length uri.now + 10 ≤ string_capacity out.old }
    ensures bytes { string_bytes out.new ≡ string_bytes out.old ++ uri_text uri.now }
    ensures len { string_len out.new ≤ string_len out.old + length uri.now + 10 }
    ensures capacity { string_capacity out.old ≤ string_capacity out.new }
{
    put(out, "{\"uri\":\"");
    put(out, uri);
    put(out, "\"}");
}

/// Writes the body with a `tel` URI whose number was looked up, and reserves memory for the whole
/// response. For a URI without parameters, the memory already reserved for responses suffices.
///
/// # Errors
///
/// `AllocError` if an allocation fails.
#[tactic(auto, unfolding(crate::specs::Texts::uri_text))]
pub fn put_looked_up(
    alloc: Global,
    response: &mut ResponseBuffer,
    uri: &TelUri<'_>,
    routing: Option<Routing>,
) -> Result<(), AllocError>
    requires { IsEmpty response.old }
    ensures ok { OnOk result (IsWritten response.new) }
    ensures body { OnOk result (string_bytes response.new.body
        ≡ uri_text (answer_text (uri_of uri.now) (option_map routing_of routing))) }
    ensures capacity { (n : ℕ) → HasCapacity n response.old → HasCapacity n response.new }
{
    response.body.push_str("{\"uri\":\"")?;
    uri.write_answer(alloc, routing, &mut response.body)?;
    response.body.push_str("\"}")?;
    response.fit()
}
