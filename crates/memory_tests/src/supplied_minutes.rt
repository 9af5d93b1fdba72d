//! Tests minutes that are supplied with messages.
use crate::fixture::{
    Exchange, FIRST_PORT, Transcript, are_answered, encode_request, encode_response, new_register,
    served_to_end,
};
use api::{Options, Ticks, serve};
use numbers::Minute;
use register::Register;
use std::alloc::{AllocError, Global};
use store::MemoryStore;

const IN_THE_FINAL_PHASE: &str =
    r#"{"attempt":0,"cic":null,"due":100,"id":1,"lrn":"2025440000","new":"AAAA","old":"BBBB","phase":"final","release":null,"since":0,"status":"pending","subject":"2025331234"}"#;

const SHOWN: Exchange<'static> = ("AAAA", "/versions/1", "", IN_THE_FINAL_PHASE);

// A request, the status of its response, and the minute that is supplied with it.
type TimedRow = (Exchange<'static>, &'static str, Option<u64>);

// A create is due at 100. A minute ends the first window, one that has passed is discarded, none
// changes nothing, and one with a refused message counts. The clock's path is not served.
static ROWS: [TimedRow; 6] = [
    (
        (
            "AAAA",
            "/subscriptionVersionNewSP-Create",
            r#"{"due":100,"lrn":"2025440000","new":"AAAA","old":"BBBB","tn":"2025331234"}"#,
            r#"{"attempt":0,"cic":null,"due":100,"id":1,"lrn":"2025440000","new":"AAAA","old":"BBBB","phase":"initial","release":null,"since":0,"status":"pending","subject":"2025331234"}"#,
        ),
        "200 OK",
        None,
    ),
    (SHOWN, "200 OK", Some(60)),
    (SHOWN, "200 OK", Some(30)),
    (SHOWN, "200 OK", None),
    (
        (
            "NPAC",
            "/clock",
            r#"{"minute":130}"#,
            r#"{"error":"no_path","number":42}"#,
        ),
        "404 Not Found",
        Some(120),
    ),
    (
        (
            "AAAA",
            "/versions/1",
            "",
            r#"{"attempt":0,"cic":null,"due":100,"id":1,"lrn":"2025440000","new":"AAAA","old":"BBBB","phase":"ended","release":null,"since":0,"status":"pending","subject":"2025331234"}"#,
        ),
        "200 OK",
        None,
    ),
];

// A source that supplies the minutes of the rows one after the other, and then none.
#[derive(Drop)]
struct RowMinutes {
    // The place of the next row.
    next: usize,
}

impl Ticks for RowMinutes {
    fn next(&mut self) -> Option<Minute> {
        let place = self.next;
        self.next = place.saturating_add(1);
        Minute::new(ROWS.get(place)?.2?)
    }
}

// Adds the messages of the rows, and their responses.
fn add_rows(alloc: Global, transcript: &mut Transcript) -> Result<(), AllocError> {
    for (exchange, status, _) in &ROWS {
        transcript.add(&Transcript {
            requests: encode_request(alloc, exchange)?,
            responses: encode_response(alloc, status, exchange.3)?,
        })?;
    }
    Ok(())
}

// Returns whether the register answers the texts like this while the minutes are supplied.
fn is_answered_in(
    alloc: Global,
    register: &mut Register<MemoryStore>,
    transcript: &Transcript,
) -> bool {
    let is_opened = are_answered(alloc, register, &FIRST_PORT[..5]) == Some(true);
    let mut responses = Vec::new(alloc);
    let options = Options { clock_route: false };
    let mut source = RowMinutes { next: 0 };
    let mut reader = transcript.requests.as_bytes();
    let served = serve(
        alloc,
        register,
        &mut source,
        &options,
        &mut reader,
        &mut responses,
    );
    let is_same = responses.as_slice() == transcript.responses.as_bytes();
    is_opened && is_same && served == served_to_end(6)
}

fn is_clock_moved(alloc: Global) -> Option<bool> {
    let mut transcript = Transcript::new(alloc);
    add_rows(alloc, &mut transcript).ok()?;
    let mut register = new_register(alloc)?;
    Some(is_answered_in(alloc, &mut register, &transcript))
}

#[test]
fn minutes_beside_messages_move_the_clock(rt: HostRuntime) {
    assert_eq!(rt; is_clock_moved(rt.alloc()), Some(true));
}
