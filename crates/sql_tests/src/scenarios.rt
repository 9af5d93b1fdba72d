//! The messages to a register before it is stopped, and those during which it is stopped.
use crate::messages::{Messages, Request, Requests};

/// Messages during which the files stop.
#[derive(Clone, Copy)]
pub struct Scenario<'a> {
    pub name: &'static str,
    /// The messages before.
    pub setup: &'a [Requests<'a>],
    /// Statements that then bring the file to an older format.
    pub older_format: &'a [&'a str],
    /// Whether the files stop while they are opened, too.
    pub is_opening_stopped: bool,
    /// Messages that do what the messages do first, each in a commit of its own.
    pub steps: Requests<'a>,
    pub messages: Messages<'a>,
    /// The next message once the messages are executed. It changes nothing.
    pub next_request: Request<'a>,
}

/// A scenario without messages.
pub const EMPTY: Scenario<'static> = Scenario {
    name: "",
    setup: &[],
    older_format: &[],
    is_opening_stopped: false,
    steps: &[],
    messages: Messages {
        batches: &[],
        is_grouped: false,
    },
    next_request: VERSION_QUESTION,
};

// Three carriers, each with a routing number, and a code that BBBB holds.
const OPENING: Requests<'static> = &[
    ("NPAC", "/carriers", r#"{"spid":"AAAA"}"#),
    ("NPAC", "/carriers", r#"{"spid":"BBBB"}"#),
    ("NPAC", "/carriers", r#"{"spid":"CCCC"}"#),
    ("AAAA", "/lrns", r#"{"lrn":"2025440000"}"#),
    ("BBBB", "/lrns", r#"{"lrn":"2025330000"}"#),
    ("CCCC", "/lrns", r#"{"lrn":"2025550000"}"#),
    ("NPAC", "/codes", r#"{"code":"202533","spid":"BBBB"}"#),
];

// A port that both providers have created.
const CREATED: Requests<'static> = &[
    (
        "AAAA",
        "/subscriptionVersionNewSP-Create",
        r#"{"cic":"0288","due":0,"lrn":"2025440000","new":"AAAA","old":"BBBB","tn":"2025331234"}"#,
    ),
    (
        "BBBB",
        "/subscriptionVersionOldSP-Create",
        r#"{"authorized":true,"due":0,"new":"AAAA","old":"BBBB","tn":"2025331234"}"#,
    ),
];

// The port is activated, and two of three carriers acknowledge it.
const SENT: Requests<'static> = &[
    ("AAAA", "/subscriptionVersionActivate", r#"{"id":1}"#),
    ("AAAA", "/downloads/acknowledge", r#"{"attempt":1,"id":1}"#),
    ("CCCC", "/downloads/acknowledge", r#"{"attempt":1,"id":1}"#),
];

// A block with one number in use is donated, and each carrier acknowledges that number.
const DONATED: Requests<'static> = &[
    (
        "BBBB",
        "/blocks/donate",
        r#"{"block":"2025337","lrn":"2025330000","used":["001"]}"#,
    ),
    ("AAAA", "/downloads/acknowledge", r#"{"attempt":1,"id":1}"#),
    ("BBBB", "/downloads/acknowledge", r#"{"attempt":1,"id":1}"#),
    ("CCCC", "/downloads/acknowledge", r#"{"attempt":1,"id":1}"#),
];

// Windows that end: at 15 the second version's broadcast, which only AAAA has acknowledged; at 20
// the fifth's, which nobody has; at 120 the concurrence windows of the first, which has only the
// old provider's create; at 600, which is 500 minutes after its due minute, the retention of the
// fourth; at 1000 the conflict of the third.
const WINDOWED: Requests<'static> = &[
    (
        "BBBB",
        "/subscriptionVersionOldSP-Create",
        r#"{"authorized":true,"due":300,"new":"AAAA","old":"BBBB","tn":"2025331001"}"#,
    ),
    (
        "AAAA",
        "/subscriptionVersionNewSP-Create",
        r#"{"due":0,"lrn":"2025440000","new":"AAAA","old":"BBBB","tn":"2025331002"}"#,
    ),
    (
        "BBBB",
        "/subscriptionVersionOldSP-Create",
        r#"{"authorized":true,"due":0,"new":"AAAA","old":"BBBB","tn":"2025331002"}"#,
    ),
    ("AAAA", "/subscriptionVersionActivate", r#"{"id":2}"#),
    ("AAAA", "/downloads/acknowledge", r#"{"attempt":1,"id":2}"#),
    (
        "CCCC",
        "/subscriptionVersionNewSP-Create",
        r#"{"due":500,"lrn":"2025550000","new":"CCCC","old":"BBBB","tn":"2025331003"}"#,
    ),
    (
        "BBBB",
        "/subscriptionVersionOldSP-Create",
        r#"{"authorized":true,"due":500,"new":"CCCC","old":"BBBB","tn":"2025331003"}"#,
    ),
    ("BBBB", "/subscriptionVersionConflict", r#"{"id":3}"#),
    (
        "CCCC",
        "/subscriptionVersionNewSP-Create",
        r#"{"due":100,"lrn":"2025550000","new":"CCCC","old":"BBBB","tn":"2025331004"}"#,
    ),
    (
        "BBBB",
        "/subscriptionVersionOldSP-Create",
        r#"{"authorized":true,"due":100,"new":"CCCC","old":"BBBB","tn":"2025331004"}"#,
    ),
    ("NPAC", "/clock", r#"{"minute":5}"#),
    (
        "AAAA",
        "/subscriptionVersionNewSP-Create",
        r#"{"due":5,"lrn":"2025440000","new":"AAAA","old":"BBBB","tn":"2025331005"}"#,
    ),
    (
        "BBBB",
        "/subscriptionVersionOldSP-Create",
        r#"{"authorized":true,"due":5,"new":"AAAA","old":"BBBB","tn":"2025331005"}"#,
    ),
    ("AAAA", "/subscriptionVersionActivate", r#"{"id":5}"#),
];

const JUMPED: Request<'static> = ("NPAC", "/clock", r#"{"minute":2000}"#);

// After the jump a sixth port is sent, which a newcomer has to acknowledge too.
const SENT_AFTERWARDS: Requests<'static> = &[
    JUMPED,
    (
        "AAAA",
        "/subscriptionVersionNewSP-Create",
        r#"{"due":2000,"lrn":"2025440000","new":"AAAA","old":"BBBB","tn":"2025331006"}"#,
    ),
    (
        "BBBB",
        "/subscriptionVersionOldSP-Create",
        r#"{"authorized":true,"due":2000,"new":"AAAA","old":"BBBB","tn":"2025331006"}"#,
    ),
    ("AAAA", "/subscriptionVersionActivate", r#"{"id":6}"#),
];

// A question about each version whose window has ended, the earliest first.
const SETTLED: Requests<'static> = &[
    ("NPAC", "/versions/2", ""),
    ("NPAC", "/versions/5", ""),
    ("NPAC", "/versions/1", ""),
    ("NPAC", "/versions/4", ""),
    ("NPAC", "/versions/3", ""),
];

const ACKNOWLEDGED: Request<'static> = (
    "BBBB",
    "/downloads/acknowledge",
    r#"{"attempt":1,"id":1}"#,
);

const THREE_DONATED: Request<'static> = (
    "BBBB",
    "/blocks/donate",
    r#"{"block":"2025337","lrn":"2025330000","used":["001","002","003"]}"#,
);

// From now on the number is routed without a carrier code.
const REROUTED: Request<'static> = (
    "AAAA",
    "/subscriptionVersionModify",
    r#"{"id":1,"lrn":"2025440000"}"#,
);

// All carriers but BBBB acknowledge that.
const REROUTED_SENT: Requests<'static> = &[
    ACKNOWLEDGED,
    REROUTED,
    ("AAAA", "/downloads/acknowledge", r#"{"attempt":2,"id":1}"#),
    ("CCCC", "/downloads/acknowledge", r#"{"attempt":2,"id":1}"#),
];

// The number is in force, and is to be released at 400.
const PLANNED: Request<'static> = (
    "AAAA",
    "/subscriptionVersionDisconnect",
    r#"{"id":1,"release":400}"#,
);

const VERSION_QUESTION: Request<'static> = ("NPAC", "/versions/1", "");

// At 10 it is released at once. Two of three carriers acknowledge that at 11.
const RELEASED: Requests<'static> = &[
    ("NPAC", "/clock", r#"{"minute":10}"#),
    DISCONNECT_NOW,
    ("NPAC", "/clock", r#"{"minute":11}"#),
    ("AAAA", "/downloads/acknowledge", r#"{"attempt":2,"id":1}"#),
    ("CCCC", "/downloads/acknowledge", r#"{"attempt":2,"id":1}"#),
    ("NPAC", "/clock", r#"{"minute":30}"#),
];

const DISCONNECT_NOW: Request<'static> = ("AAAA", "/subscriptionVersionDisconnect", r#"{"id":1}"#);

// At 30 both providers create it again. The download of its release is still pending for the third
// carrier.
const CREATED_AGAIN: Requests<'static> = &[
    VERSION_QUESTION,
    (
        "AAAA",
        "/subscriptionVersionNewSP-Create",
        r#"{"due":30,"lrn":"2025440000","new":"AAAA","old":"BBBB","tn":"2025331234"}"#,
    ),
    (
        "BBBB",
        "/subscriptionVersionOldSP-Create",
        r#"{"authorized":true,"due":30,"new":"AAAA","old":"BBBB","tn":"2025331234"}"#,
    ),
];

const ACTIVATED_AGAIN: Request<'static> = ("AAAA", "/subscriptionVersionActivate", r#"{"id":2}"#);

const LATE: Request<'static> = ("BBBB", "/downloads/acknowledge", r#"{"attempt":2,"id":1}"#);

// The windows that the register was opened with, set again.
const NINE_WINDOWS: Request<'static> = (
    "NPAC",
    "/windows",
    r#"{"broadcast":15,"cancellation_final":60,"cancellation_initial":60,"conflict_expiration":1000,"conflict_resolution":120,"conflict_restriction":30,"final_concurrence":60,"initial_concurrence":60,"pending_retention":500}"#,
);

/// Requests about a port and its routing.
pub static PORTS: [Scenario<'static>; 5] = [
    // A download is sent to each of three carriers.
    Scenario {
        name: "an activation",
        setup: &[OPENING, CREATED],
        is_opening_stopped: true,
        messages: Messages {
            batches: &[&[("AAAA", "/subscriptionVersionActivate", r#"{"id":1}"#)]],
            is_grouped: false,
        },
        next_request: ("AAAA", "/subscriptionVersionActivate", r#"{"id":1}"#),
        ..EMPTY
    },
    // The last acknowledgement closes a broadcast.
    Scenario {
        name: "a last acknowledgement",
        setup: &[OPENING, CREATED, SENT],
        messages: Messages {
            batches: &[&[ACKNOWLEDGED]],
            is_grouped: false,
        },
        next_request: ACKNOWLEDGED,
        ..EMPTY
    },
    // A routing is modified, and sent to each of three carriers.
    Scenario {
        name: "a modify",
        setup: &[OPENING, CREATED, SENT, &[ACKNOWLEDGED]],
        messages: Messages {
            batches: &[&[REROUTED]],
            is_grouped: false,
        },
        next_request: REROUTED,
        ..EMPTY
    },
    // The last acknowledgement of a modify replaces the routing.
    Scenario {
        name: "a last acknowledgement of a modify",
        setup: &[OPENING, CREATED, SENT, REROUTED_SENT],
        messages: Messages {
            batches: &[&[("BBBB", "/downloads/acknowledge", r#"{"attempt":2,"id":1}"#)]],
            is_grouped: false,
        },
        next_request: ("BBBB", "/downloads/acknowledge", r#"{"attempt":2,"id":1}"#),
        ..EMPTY
    },
    // The windows are set again, which makes another set of the same windows. Setting them once more
    // would make a third, so the next message is a question about a version.
    Scenario {
        name: "a change of windows",
        setup: &[OPENING, CREATED],
        messages: Messages {
            batches: &[&[NINE_WINDOWS]],
            is_grouped: false,
        },
        ..EMPTY
    },
];

/// Requests about a block, and those that find windows that have ended.
pub static BLOCKS: [Scenario<'static>; 4] = [
    // A block with three numbers in use is donated: each gets a version, which is sent to each
    // carrier.
    Scenario {
        name: "a donation",
        setup: &[OPENING],
        messages: Messages {
            batches: &[&[THREE_DONATED]],
            is_grouped: false,
        },
        next_request: THREE_DONATED,
        ..EMPTY
    },
    // A donated block is assigned to a carrier.
    Scenario {
        name: "an assignment",
        setup: &[OPENING, DONATED],
        messages: Messages {
            batches: &[&[(
                "NPAC",
                "/blocks/assign",
                r#"{"block":"2025337","holder":"CCCC","lrn":"2025550000"}"#,
            )]],
            is_grouped: false,
        },
        next_request: (
            "NPAC",
            "/blocks/assign",
            r#"{"block":"2025337","holder":"CCCC","lrn":"2025550000"}"#,
        ),
        ..EMPTY
    },
    // The clock jumps over the ends of five windows.
    Scenario {
        name: "a jump of the clock",
        setup: &[OPENING, WINDOWED],
        messages: Messages {
            batches: &[&[JUMPED]],
            is_grouped: false,
        },
        next_request: JUMPED,
        ..EMPTY
    },
    // A newcomer finds five windows that have ended.
    Scenario {
        name: "a newcomer",
        setup: &[OPENING, WINDOWED, SENT_AFTERWARDS],
        steps: SETTLED,
        messages: Messages {
            batches: &[&[("NPAC", "/carriers", r#"{"spid":"DDDD"}"#)]],
            is_grouped: false,
        },
        next_request: ("NPAC", "/carriers", r#"{"spid":"DDDD"}"#),
        ..EMPTY
    },
];

/// Requests about the release of a number, and its next port.
pub static RELEASES: [Scenario<'static>; 6] = [
    // The release of a number is planned.
    Scenario {
        name: "a planned release",
        setup: &[OPENING, CREATED, SENT, &[ACKNOWLEDGED]],
        messages: Messages {
            batches: &[&[PLANNED]],
            is_grouped: false,
        },
        next_request: PLANNED,
        ..EMPTY
    },
    // The minute of a planned release has come: a question finds it, and a delete is sent.
    Scenario {
        name: "a planned delete",
        setup: &[
            OPENING,
            CREATED,
            SENT,
            &[
                ACKNOWLEDGED,
                PLANNED,
                ("NPAC", "/clock", r#"{"minute":401}"#),
            ],
        ],
        messages: Messages {
            batches: &[&[VERSION_QUESTION]],
            is_grouped: false,
        },
        ..EMPTY
    },
    // Nobody acknowledges the delete: its broadcast closes, and the number stays in force.
    Scenario {
        name: "a delete that fails",
        setup: &[
            OPENING,
            CREATED,
            SENT,
            &[
                ACKNOWLEDGED,
                PLANNED,
                ("NPAC", "/clock", r#"{"minute":401}"#),
                VERSION_QUESTION,
                ("NPAC", "/clock", r#"{"minute":1000}"#),
            ],
        ],
        messages: Messages {
            batches: &[&[VERSION_QUESTION]],
            is_grouped: false,
        },
        ..EMPTY
    },
    // A number is released at once.
    Scenario {
        name: "a disconnect",
        setup: &[OPENING, CREATED, SENT, &[ACKNOWLEDGED]],
        messages: Messages {
            batches: &[&[DISCONNECT_NOW]],
            is_grouped: false,
        },
        next_request: DISCONNECT_NOW,
        ..EMPTY
    },
    // A released number is ported again while its release is pending for a carrier.
    Scenario {
        name: "a port of a released number",
        setup: &[
            OPENING,
            CREATED,
            SENT,
            &[ACKNOWLEDGED],
            RELEASED,
            CREATED_AGAIN,
        ],
        messages: Messages {
            batches: &[&[ACTIVATED_AGAIN]],
            is_grouped: false,
        },
        next_request: ACTIVATED_AGAIN,
        ..EMPTY
    },
    // That carrier acknowledges the release, and the download of the next port is pending after it.
    Scenario {
        name: "a late acknowledgement",
        setup: &[
            OPENING,
            CREATED,
            SENT,
            &[ACKNOWLEDGED],
            RELEASED,
            CREATED_AGAIN,
            &[ACTIVATED_AGAIN],
        ],
        messages: Messages {
            batches: &[&[LATE]],
            is_grouped: false,
        },
        next_request: LATE,
        ..EMPTY
    },
];

/// Groups of a few messages.
pub static GROUPS: [Scenario<'static>; 3] = [
    // A download is sent to each of three carriers.
    Scenario {
        name: "a group of one message",
        setup: &[OPENING, CREATED],
        messages: Messages {
            batches: &[&[("AAAA", "/subscriptionVersionActivate", r#"{"id":1}"#)]],
            is_grouped: true,
        },
        ..EMPTY
    },
    // Both providers create a port.
    Scenario {
        name: "a group of two messages",
        setup: &[OPENING],
        messages: Messages {
            batches: &[CREATED],
            is_grouped: true,
        },
        ..EMPTY
    },
    // A port from its creation until the number is in force, and then its routing is modified.
    Scenario {
        name: "a group of seven messages",
        setup: &[OPENING],
        messages: Messages {
            batches: &[CREATED, SENT, &[ACKNOWLEDGED, REROUTED]],
            is_grouped: true,
        },
        ..EMPTY
    },
];

/// Groups of many messages.
pub static LARGE_GROUPS: [Scenario<'static>; 1] = [
    // A number is ported, released and ported again, and then the windows are set 47 times.
    Scenario {
        name: "a group of 64 messages",
        setup: &[OPENING],
        messages: Messages {
            batches: &[
                CREATED,
                SENT,
                &[ACKNOWLEDGED],
                RELEASED,
                CREATED_AGAIN,
                &[ACTIVATED_AGAIN, LATE],
                &[NINE_WINDOWS; 47],
            ],
            is_grouped: true,
        },
        ..EMPTY
    },
];

// The statements that turn a file into the format without sets of windows.
const WITHOUT_SETS: &str = "\
    INSERT INTO version SELECT id, subject, old, new, due, lrn, cic, old_at, new_at, status, sends, \
    since, attempt, release, spent, protective, cancelled_by, deadline, holds, opens FROM version2; \
    INSERT INTO clock SELECT 0, (SELECT now FROM clock2), (SELECT next_id FROM clock2), \
    initial_concurrence, final_concurrence, conflict_restriction, conflict_resolution, \
    conflict_expiration, cancellation_initial, cancellation_final, pending_retention, broadcast FROM \
    window_set; \
    DROP TABLE clock2; DROP TABLE version2; DROP TABLE window_set";

// The statement that turns that file into the first format, which has no modifies.
const WITHOUT_MODIFIES: &str = "DROP TABLE next_routing";

// A question about a version with a window yet to end, in a file with five of them.
const OPENED: Scenario<'static> = Scenario {
    setup: &[OPENING, WINDOWED],
    is_opening_stopped: true,
    messages: Messages {
        batches: &[&[("NPAC", "/versions/4", "")]],
        is_grouped: false,
    },
    next_request: ("NPAC", "/versions/4", ""),
    ..EMPTY
};

/// Files in older formats, which are migrated.
pub static MIGRATIONS: [Scenario<'static>; 2] = [
    Scenario {
        name: "a file without sets of windows",
        older_format: &[WITHOUT_SETS],
        ..OPENED
    },
    Scenario {
        name: "a file without sets of windows and modifies",
        older_format: &[WITHOUT_SETS, WITHOUT_MODIFIES],
        ..OPENED
    },
];
