//! Three worked histories: their requests and responses, from the stories of `tests/stories`.
use crate::messages::{Exchanges, Request};
use crate::protective_number::{BLOCK_IS_HELD, NUMBER_FAILS, NUMBER_IS_SENT_AGAIN};

/// A worked history.
#[derive(Clone, Copy)]
pub struct History<'a> {
    /// The exchanges before it.
    pub before: &'a [Exchanges<'a>],
    /// Its own exchanges, in parts.
    pub parts: &'a [Exchanges<'a>],
}

const NEW: &str = "/subscriptionVersionNewSP-Create";

const OLD: &str = "/subscriptionVersionOldSP-Create";

const ACTIVATE: &str = "/subscriptionVersionActivate";

const ACKNOWLEDGE: &str = "/downloads/acknowledge";

const FIRST: &str = r#"{"attempt":1,"id":1}"#;

const RELEASE: &str = r#"{"attempt":2,"id":1}"#;

const AGAIN: &str = r#"{"attempt":1,"id":2}"#;

const QUERY: Request<'static> = ("CCCC", "/query", r#"{"uri":"tel:+12025331234"}"#);

const USED_QUERY: Request<'static> = ("CCCC", "/query", r#"{"uri":"tel:+12025337001"}"#);

const QUESTION: Request<'static> = ("CCCC", "/versions/1", "");

const OK: &str = "200 OK";

const ROUTED: &str = r#"{"uri":"tel:+12025331234;npdi;rn=+12025440000"}"#;

const NOT_ROUTED: &str = r#"{"uri":"tel:+12025331234;npdi"}"#;

// The story `opening`.
const OPENING: Exchanges<'static> = &[
    (
        ("NPAC", "/carriers", r#"{"spid":"AAAA"}"#),
        OK,
        r#"{"rows":[],"spid":"AAAA"}"#,
    ),
    (
        ("NPAC", "/carriers", r#"{"spid":"BBBB"}"#),
        OK,
        r#"{"rows":[],"spid":"BBBB"}"#,
    ),
    (
        ("NPAC", "/carriers", r#"{"spid":"CCCC"}"#),
        OK,
        r#"{"rows":[],"spid":"CCCC"}"#,
    ),
    (
        ("AAAA", "/lrns", r#"{"lrn":"2025440000"}"#),
        OK,
        r#"{"lrn":"2025440000","spid":"AAAA"}"#,
    ),
    (
        ("BBBB", "/lrns", r#"{"lrn":"2025330000"}"#),
        OK,
        r#"{"lrn":"2025330000","spid":"BBBB"}"#,
    ),
    (
        ("CCCC", "/lrns", r#"{"lrn":"2025550000"}"#),
        OK,
        r#"{"lrn":"2025550000","spid":"CCCC"}"#,
    ),
    (
        ("NPAC", "/codes", r#"{"code":"202533","spid":"BBBB"}"#),
        OK,
        r#"{"code":"202533","spid":"BBBB"}"#,
    ),
];

// The version of a port with one create, with both, being sent, and in force.
const INITIAL: &str = concat!(
    r#"{"attempt":0,"cic":null,"due":0,"id":1,"lrn":"2025440000","new":"AAAA","old":"BBBB","#,
    r#""phase":"initial","release":null,"since":0,"status":"pending","subject":"2025331234"}"#
);

const CONCURRED: &str = concat!(
    r#"{"attempt":0,"cic":null,"due":0,"id":1,"lrn":"2025440000","new":"AAAA","old":"BBBB","#,
    r#""phase":null,"release":null,"since":0,"status":"pending","subject":"2025331234"}"#
);

const SENT: &str = concat!(
    r#"{"attempt":1,"cic":null,"due":0,"id":1,"lrn":"2025440000","new":"AAAA","old":"BBBB","#,
    r#""phase":null,"release":null,"since":0,"status":"sending","subject":"2025331234"}"#
);

const IN_FORCE: &str = concat!(
    r#"{"attempt":1,"cic":null,"due":0,"id":1,"lrn":"2025440000","new":"AAAA","old":"BBBB","#,
    r#""phase":null,"release":null,"since":0,"status":"active","subject":"2025331234"}"#
);

// The story `active-port`, without its opening, and a query as in `disconnected`.
const PORTED: Exchanges<'static> = &[
    (
        (
            "AAAA",
            NEW,
            r#"{"due":0,"lrn":"2025440000","new":"AAAA","old":"BBBB","tn":"2025331234"}"#,
        ),
        OK,
        INITIAL,
    ),
    (
        (
            "BBBB",
            OLD,
            r#"{"authorized":true,"due":0,"new":"AAAA","old":"BBBB","tn":"2025331234"}"#,
        ),
        OK,
        CONCURRED,
    ),
    (("AAAA", ACTIVATE, r#"{"id":1}"#), OK, SENT),
    (("AAAA", ACKNOWLEDGE, FIRST), OK, SENT),
    (("BBBB", ACKNOWLEDGE, FIRST), OK, SENT),
    (("CCCC", ACKNOWLEDGE, FIRST), OK, IN_FORCE),
    (QUERY, OK, ROUTED),
];

// The version while its release is planned, while the release is being sent, and afterwards.
const PLANNED: &str = concat!(
    r#"{"attempt":1,"cic":null,"due":0,"id":1,"lrn":"2025440000","new":"AAAA","old":"BBBB","#,
    r#""phase":null,"release":400,"since":300,"status":"disconnect-pending","#,
    r#""subject":"2025331234"}"#
);

const RELEASING: &str = concat!(
    r#"{"attempt":2,"cic":null,"due":0,"id":1,"lrn":"2025440000","new":"AAAA","old":"BBBB","#,
    r#""phase":null,"release":null,"since":400,"status":"sending","subject":"2025331234"}"#
);

const RELEASED: &str = concat!(
    r#"{"attempt":2,"cic":null,"due":0,"id":1,"lrn":"2025440000","new":"AAAA","old":"BBBB","#,
    r#""phase":null,"release":null,"since":401,"status":"old","subject":"2025331234"}"#
);

// The story `planned-disconnect-acknowledged` after `active-port`, up to the query that finds the
// number released. A question, as in `planned-disconnect-of-nobody`, finds that the release minute
// has come: so each request makes one commit at most.
const GIVEN_BACK: Exchanges<'static> = &[
    (
        ("NPAC", "/clock", r#"{"minute":300}"#),
        OK,
        r#"{"now":300}"#,
    ),
    (
        (
            "AAAA",
            "/subscriptionVersionDisconnect",
            r#"{"id":1,"release":400}"#,
        ),
        OK,
        PLANNED,
    ),
    (
        ("NPAC", "/carriers", r#"{"spid":"DDDD"}"#),
        OK,
        r#"{"rows":[{"cic":null,"lrn":"2025440000","subject":"2025331234"}],"spid":"DDDD"}"#,
    ),
    (
        ("NPAC", "/clock", r#"{"minute":401}"#),
        OK,
        r#"{"now":401}"#,
    ),
    (QUESTION, OK, RELEASING),
    (("AAAA", ACKNOWLEDGE, RELEASE), OK, RELEASING),
    (("BBBB", ACKNOWLEDGE, RELEASE), OK, RELEASING),
    (("CCCC", ACKNOWLEDGE, RELEASE), OK, RELEASING),
    (QUERY, OK, ROUTED),
    (("DDDD", ACKNOWLEDGE, RELEASE), OK, RELEASED),
    (QUERY, OK, NOT_ROUTED),
];

// The next version of the number: with one create, with both, being sent, and in force.
const INITIAL_AGAIN: &str = concat!(
    r#"{"attempt":0,"cic":null,"due":401,"id":2,"lrn":"2025440000","new":"AAAA","old":"BBBB","#,
    r#""phase":"initial","release":null,"since":401,"status":"pending","subject":"2025331234"}"#
);

const CONCURRED_AGAIN: &str = concat!(
    r#"{"attempt":0,"cic":null,"due":401,"id":2,"lrn":"2025440000","new":"AAAA","old":"BBBB","#,
    r#""phase":null,"release":null,"since":401,"status":"pending","subject":"2025331234"}"#
);

const SENT_AGAIN: &str = concat!(
    r#"{"attempt":1,"cic":null,"due":401,"id":2,"lrn":"2025440000","new":"AAAA","old":"BBBB","#,
    r#""phase":null,"release":null,"since":401,"status":"sending","subject":"2025331234"}"#
);

const IN_FORCE_AGAIN: &str = concat!(
    r#"{"attempt":1,"cic":null,"due":401,"id":2,"lrn":"2025440000","new":"AAAA","old":"BBBB","#,
    r#""phase":null,"release":null,"since":401,"status":"active","subject":"2025331234"}"#
);

// The port of the story `ported-again`, at 401 instead of 30, and with the newcomer DDDD.
const PORTED_AGAIN: Exchanges<'static> = &[
    (
        (
            "AAAA",
            NEW,
            r#"{"due":401,"lrn":"2025440000","new":"AAAA","old":"BBBB","tn":"2025331234"}"#,
        ),
        OK,
        INITIAL_AGAIN,
    ),
    (
        (
            "BBBB",
            OLD,
            r#"{"authorized":true,"due":401,"new":"AAAA","old":"BBBB","tn":"2025331234"}"#,
        ),
        OK,
        CONCURRED_AGAIN,
    ),
    (("AAAA", ACTIVATE, r#"{"id":2}"#), OK, SENT_AGAIN),
    (("BBBB", ACKNOWLEDGE, AGAIN), OK, SENT_AGAIN),
    (("AAAA", ACKNOWLEDGE, AGAIN), OK, SENT_AGAIN),
    (("DDDD", ACKNOWLEDGE, AGAIN), OK, SENT_AGAIN),
    (("CCCC", ACKNOWLEDGE, AGAIN), OK, IN_FORCE_AGAIN),
    (QUESTION, OK, RELEASED),
    (QUERY, OK, ROUTED),
];

// The versions of two used numbers of a block while they are being sent, and the first in force.
const FIRST_SENT: &str = concat!(
    r#"{"attempt":1,"cic":null,"due":0,"id":1,"lrn":"2025330000","new":"BBBB","old":"BBBB","#,
    r#""phase":null,"release":null,"since":0,"status":"sending","subject":"2025337001"}"#
);

const FIRST_IN_FORCE: &str = concat!(
    r#"{"attempt":1,"cic":null,"due":0,"id":1,"lrn":"2025330000","new":"BBBB","old":"BBBB","#,
    r#""phase":null,"release":null,"since":5,"status":"active","subject":"2025337001"}"#
);

const SECOND_SENT: &str = concat!(
    r#"{"attempt":1,"cic":null,"due":0,"id":2,"lrn":"2025330000","new":"BBBB","old":"BBBB","#,
    r#""phase":null,"release":null,"since":0,"status":"sending","subject":"2025337002"}"#
);

// The stories `donated-block` and `first-used-number`, up to the minute before the second number
// fails.
const DONATED: Exchanges<'static> = &[
    (
        (
            "BBBB",
            "/blocks/donate",
            r#"{"block":"2025337","lrn":"2025330000","used":["001","002"]}"#,
        ),
        OK,
        r#"{"block":"2025337","ids":[1,2]}"#,
    ),
    (USED_QUERY, OK, r#"{"uri":"tel:+12025337001;npdi"}"#),
    (("NPAC", "/clock", r#"{"minute":5}"#), OK, r#"{"now":5}"#),
    (("AAAA", ACKNOWLEDGE, FIRST), OK, FIRST_SENT),
    (("BBBB", ACKNOWLEDGE, FIRST), OK, FIRST_SENT),
    (("CCCC", ACKNOWLEDGE, FIRST), OK, FIRST_IN_FORCE),
    (
        USED_QUERY,
        OK,
        r#"{"uri":"tel:+12025337001;npdi;rn=+12025330000"}"#,
    ),
    (("NPAC", "/clock", r#"{"minute":14}"#), OK, r#"{"now":14}"#),
    (("CCCC", "/versions/2", ""), OK, SECOND_SENT),
];

/// A port, from the first create to the acknowledgements of all carriers.
pub static PORT: History<'static> = History {
    before: &[OPENING],
    parts: &[PORTED],
};

/// A planned release, and the next port of the number.
pub static PLANNED_RELEASE: History<'static> = History {
    before: &[OPENING, PORTED],
    parts: &[GIVEN_BACK, PORTED_AGAIN],
};

/// Two numbers of a donated block are in use. Nobody acknowledges the second, which fails and is
/// sent again. Then the block is assigned.
pub static FAILED_NUMBER: History<'static> = History {
    before: &[OPENING],
    parts: &[DONATED, NUMBER_FAILS, NUMBER_IS_SENT_AGAIN, BLOCK_IS_HELD],
};
