//! A register over memory, and the first port, for the tests.
use api::{End, Fault, NoTicks, Options, Served, serve};
use register::Register;
use settle::Store;
use std::alloc::{AllocError, Global};
use std::io::Read;
use store::MemoryStore;
use windows::Windows;

/// The windows of the tests, in minutes.
pub const WINDOWS: &str =
    "initial_concurrence = 60\nfinal_concurrence = 60\nconflict_restriction = 30\nconflict_resolution = 120\nconflict_expiration = 1000\ncancellation_initial = 60\ncancellation_final = 60\npending_retention = 500\nbroadcast = 15\n";

/// A caller, a path, a body (empty for GET), and the body of the response.
pub type Exchange<'a> = (&'a str, &'a str, &'a str, &'a str);

pub static FIRST_PORT: [Exchange<'static>; 11] = [
    (
        "NPAC",
        "/carriers",
        r#"{"spid":"AAAA"}"#,
        r#"{"rows":[],"spid":"AAAA"}"#,
    ),
    (
        "NPAC",
        "/carriers",
        r#"{"spid":"BBBB"}"#,
        r#"{"rows":[],"spid":"BBBB"}"#,
    ),
    (
        "AAAA",
        "/lrns",
        r#"{"lrn":"2025440000"}"#,
        r#"{"lrn":"2025440000","spid":"AAAA"}"#,
    ),
    (
        "BBBB",
        "/lrns",
        r#"{"lrn":"2025330000"}"#,
        r#"{"lrn":"2025330000","spid":"BBBB"}"#,
    ),
    (
        "NPAC",
        "/codes",
        r#"{"code":"202533","spid":"BBBB"}"#,
        r#"{"code":"202533","spid":"BBBB"}"#,
    ),
    (
        "AAAA",
        "/subscriptionVersionNewSP-Create",
        r#"{"due":0,"lrn":"2025440000","new":"AAAA","old":"BBBB","tn":"2025331234"}"#,
        r#"{"attempt":0,"cic":null,"due":0,"id":1,"lrn":"2025440000","new":"AAAA","old":"BBBB","phase":"initial","release":null,"since":0,"status":"pending","subject":"2025331234"}"#,
    ),
    (
        "BBBB",
        "/subscriptionVersionOldSP-Create",
        r#"{"authorized":true,"due":0,"new":"AAAA","old":"BBBB","tn":"2025331234"}"#,
        r#"{"attempt":0,"cic":null,"due":0,"id":1,"lrn":"2025440000","new":"AAAA","old":"BBBB","phase":null,"release":null,"since":0,"status":"pending","subject":"2025331234"}"#,
    ),
    (
        "AAAA",
        "/subscriptionVersionActivate",
        r#"{"id":1}"#,
        r#"{"attempt":1,"cic":null,"due":0,"id":1,"lrn":"2025440000","new":"AAAA","old":"BBBB","phase":null,"release":null,"since":0,"status":"sending","subject":"2025331234"}"#,
    ),
    (
        "AAAA",
        "/downloads/acknowledge",
        r#"{"attempt":1,"id":1}"#,
        r#"{"attempt":1,"cic":null,"due":0,"id":1,"lrn":"2025440000","new":"AAAA","old":"BBBB","phase":null,"release":null,"since":0,"status":"sending","subject":"2025331234"}"#,
    ),
    (
        "BBBB",
        "/downloads/acknowledge",
        r#"{"attempt":1,"id":1}"#,
        r#"{"attempt":1,"cic":null,"due":0,"id":1,"lrn":"2025440000","new":"AAAA","old":"BBBB","phase":null,"release":null,"since":0,"status":"active","subject":"2025331234"}"#,
    ),
    (
        "AAAA",
        "/query",
        r#"{"uri":"tel:+12025331234"}"#,
        r#"{"uri":"tel:+12025331234;npdi;rn=+12025440000"}"#,
    ),
];

/// Requests and their responses.
#[derive(Drop)]
pub struct Transcript {
    pub requests: String,
    pub responses: String,
}

/// Returns the request of a row.
pub fn encode_request(alloc: Global, exchange: &Exchange<'_>) -> Result<String, AllocError> {
    let (caller, path, body, _) = *exchange;
    if body.is_empty() {
        return format!(in alloc; "GET {path} HTTP/1.1\r\nx-spid: {caller}\r\n\r\n");
    }
    let length = body.len();
    format!(in alloc;
        "POST {path} HTTP/1.1\r\nx-spid: {caller}\r\ncontent-length: {length}\r\n\r\n{body}"
    )
}

/// Returns the response with a status and a body.
pub fn encode_response(alloc: Global, status: &str, body: &str) -> Result<String, AllocError> {
    let length = body.len();
    format!(in alloc;
        "HTTP/1.1 {status}\r\ncontent-type: application/json\r\ncontent-length: {length}\r\n\r\n{body}"
    )
}

/// Returns the request and the response of a row.
pub fn transcript_of(alloc: Global, exchange: &Exchange<'_>) -> Result<Transcript, AllocError> {
    Ok(Transcript {
        requests: encode_request(alloc, exchange)?,
        responses: encode_response(alloc, "200 OK", exchange.3)?,
    })
}

impl Transcript {
    /// Creates texts without requests or responses.
    pub fn new(alloc: Global) -> Transcript {
        Transcript {
            requests: String::new(alloc),
            responses: String::new(alloc),
        }
    }

    /// Appends more requests and responses.
    pub fn add(&mut self, more: &Transcript) -> Result<(), AllocError> {
        self.requests.push_str(more.requests.as_str())?;
        self.responses.push_str(more.responses.as_str())
    }

    /// Appends the requests and responses of rows.
    pub fn add_all(&mut self, alloc: Global, exchanges: &[Exchange<'_>]) -> Result<(), AllocError> {
        for exchange in exchanges {
            self.add(&transcript_of(alloc, exchange)?)?;
        }
        Ok(())
    }
}

/// Returns the requests of rows, one after the other, and their responses.
pub fn transcript_of_all(alloc: Global, exchanges: &[Exchange<'_>]) -> Option<Transcript> {
    let mut transcript = Transcript::new(alloc);
    transcript.add_all(alloc, exchanges).ok()?;
    Some(transcript)
}

/// Opens a store with the windows of the tests.
pub fn open_register<S: Store + Drop>(alloc: Global, store: S) -> Option<Register<S>> {
    let windows = Windows::from_toml(alloc, WINDOWS).ok()?;
    Register::open(alloc, store, &windows).ok()
}

/// Creates a register over memory.
pub fn new_register(alloc: Global) -> Option<Register<MemoryStore>> {
    open_register(alloc, MemoryStore::new(alloc))
}

/// Serves the messages of a reader, with the path of the clock; returns the responses, and how
/// serving ended.
pub fn serve_reader<S: Store, R: Read>(
    alloc: Global,
    register: &mut Register<S>,
    reader: &mut R,
) -> (Vec<u8>, Result<Served, Fault>) {
    let mut responses = Vec::new(alloc);
    let options = Options { clock_route: true };
    let served = serve(
        alloc,
        register,
        &mut NoTicks,
        &options,
        reader,
        &mut responses,
    );
    (responses, served)
}

/// Returns whether the messages of a reader get these responses, and serving ends like this.
pub fn has_responses<S: Store, R: Read>(
    alloc: Global,
    register: &mut Register<S>,
    reader: &mut R,
    expected: &str,
    expected_end: Result<Served, Fault>,
) -> bool {
    let (responses, served) = serve_reader(alloc, register, reader);
    responses.as_slice() == expected.as_bytes() && served == expected_end
}

/// Returns whether these rows are answered as they should be.
pub fn are_answered<S: Store>(
    alloc: Global,
    register: &mut Register<S>,
    exchanges: &[Exchange<'_>],
) -> Option<bool> {
    let transcript = transcript_of_all(alloc, exchanges)?;
    let mut reader = transcript.requests.as_bytes();
    let end = served_to_end(exchanges.len() as u64);
    let responses = transcript.responses.as_str();
    Some(has_responses(alloc, register, &mut reader, responses, end))
}

/// Returns whether each row is answered with success, on one connection.
pub fn are_accepted<S: Store>(
    alloc: Global,
    register: &mut Register<S>,
    exchanges: &[Exchange<'_>],
) -> Option<bool> {
    let transcript = transcript_of_all(alloc, exchanges)?;
    let mut reader = transcript.requests.as_bytes();
    let (responses, served) = serve_reader(alloc, register, &mut reader);
    let text = str::from_utf8(responses.as_slice()).ok()?;
    let is_success = text
        .split("HTTP/1.1 ")
        .skip(1)
        .all(|response| response.starts_with("200 "));
    Some(is_success && served == served_to_end(exchanges.len() as u64))
}

/// Returns whether this is the response to a message.
pub fn is_answered<S: Store>(
    alloc: Global,
    register: &mut Register<S>,
    request: &str,
    response: &str,
) -> bool {
    let mut reader = request.as_bytes();
    has_responses(alloc, register, &mut reader, response, served_to_end(1))
}

/// Returns the result of serving `count` messages to the end of the input.
pub fn served_to_end(count: u64) -> Result<Served, Fault> {
    Ok(Served {
        count,
        end: End::Input,
    })
}
