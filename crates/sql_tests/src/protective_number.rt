//! The requests and responses of the stories `first-used-number` and `held-block` (`tests/stories`),
//! from the minute before the second used number fails.
use crate::messages::{Exchanges, Request};

const ASSIGN: &str = "/blocks/assign";

const ACKNOWLEDGE: &str = "/downloads/acknowledge";

const TO_CCCC: &str = r#"{"block":"2025337","holder":"CCCC","lrn":"2025550000"}"#;

const OF_SECOND: &str = r#"{"attempt":2,"id":2}"#;

const OF_BLOCK: &str = r#"{"attempt":1,"id":3}"#;

const SECOND_QUESTION: Request<'static> = ("CCCC", "/versions/2", "");

const OK: &str = "200 OK";

const CONFLICT: &str = "409 Conflict";

const NONE_PENDING: &str = r#"{"downloads":[]}"#;

// The version of the first used number, in force.
const FIRST_IN_FORCE: &str = concat!(
    r#"{"attempt":1,"cic":null,"due":0,"id":1,"lrn":"2025330000","new":"BBBB","old":"BBBB","#,
    r#""phase":null,"release":null,"since":5,"status":"active","subject":"2025337001"}"#
);

// That of the second: after nobody has acknowledged it, sent again, and in force.
const SECOND_FAILED: &str = concat!(
    r#"{"attempt":1,"cic":null,"due":0,"id":2,"lrn":"2025330000","new":"BBBB","old":"BBBB","#,
    r#""phase":null,"release":null,"since":15,"status":"failed","subject":"2025337002"}"#
);

const SECOND_SENT_AGAIN: &str = concat!(
    r#"{"attempt":2,"cic":null,"due":0,"id":2,"lrn":"2025330000","new":"BBBB","old":"BBBB","#,
    r#""phase":null,"release":null,"since":20,"status":"sending","subject":"2025337002"}"#
);

const SECOND_IN_FORCE: &str = concat!(
    r#"{"attempt":2,"cic":null,"due":0,"id":2,"lrn":"2025330000","new":"BBBB","old":"BBBB","#,
    r#""phase":null,"release":null,"since":21,"status":"active","subject":"2025337002"}"#
);

// The block's version while it is being sent, and in force.
const BLOCK_SENT: &str = concat!(
    r#"{"attempt":1,"cic":null,"due":22,"id":3,"lrn":"2025550000","new":"CCCC","old":"BBBB","#,
    r#""phase":null,"release":null,"since":22,"status":"sending","subject":"2025337"}"#
);

const BLOCK_HELD: &str = concat!(
    r#"{"attempt":1,"cic":null,"due":22,"id":3,"lrn":"2025550000","new":"CCCC","old":"BBBB","#,
    r#""phase":null,"release":null,"since":23,"status":"active","subject":"2025337"}"#
);

/// The second number fails at 15; then the block cannot be assigned, nor its version cancelled.
pub const NUMBER_FAILS: Exchanges<'static> = &[
    (("NPAC", "/clock", r#"{"minute":15}"#), OK, r#"{"now":15}"#),
    (SECOND_QUESTION, OK, SECOND_FAILED),
    (("AAAA", "/downloads/10", ""), OK, NONE_PENDING),
    (("BBBB", "/downloads/10", ""), OK, NONE_PENDING),
    (("CCCC", "/downloads/10", ""), OK, NONE_PENDING),
    (("CCCC", "/versions/1", ""), OK, FIRST_IN_FORCE),
    (("NPAC", "/clock", r#"{"minute":20}"#), OK, r#"{"now":20}"#),
    (
        ("NPAC", ASSIGN, TO_CCCC),
        CONFLICT,
        r#"{"error":"open_ports","number":23}"#,
    ),
    (
        ("BBBB", "/subscriptionVersionCancel", r#"{"id":2}"#),
        CONFLICT,
        r#"{"error":"protected","number":21}"#,
    ),
];

/// It is sent again, and one carrier acknowledges that.
pub const NUMBER_IS_SENT_AGAIN: Exchanges<'static> = &[
    (
        ("BBBB", "/subscriptionVersionActivate", r#"{"id":2}"#),
        OK,
        SECOND_SENT_AGAIN,
    ),
    (("NPAC", "/clock", r#"{"minute":21}"#), OK, r#"{"now":21}"#),
    (("AAAA", ACKNOWLEDGE, OF_SECOND), OK, SECOND_SENT_AGAIN),
];

/// The others acknowledge it too. The block is assigned and acknowledged, and routes the numbers that
/// have no version of their own.
pub const BLOCK_IS_HELD: Exchanges<'static> = &[
    (("BBBB", ACKNOWLEDGE, OF_SECOND), OK, SECOND_SENT_AGAIN),
    (("CCCC", ACKNOWLEDGE, OF_SECOND), OK, SECOND_IN_FORCE),
    (("NPAC", "/clock", r#"{"minute":22}"#), OK, r#"{"now":22}"#),
    (("NPAC", ASSIGN, TO_CCCC), OK, BLOCK_SENT),
    (
        ("CCCC", "/blocks/release", r#"{"block":"2025337"}"#),
        CONFLICT,
        r#"{"error":"wrong_status","number":13}"#,
    ),
    (
        ("CCCC", "/query", r#"{"uri":"tel:+12025337003"}"#),
        OK,
        r#"{"uri":"tel:+12025337003;npdi"}"#,
    ),
    (("NPAC", "/clock", r#"{"minute":23}"#), OK, r#"{"now":23}"#),
    (("AAAA", ACKNOWLEDGE, OF_BLOCK), OK, BLOCK_SENT),
    (("BBBB", ACKNOWLEDGE, OF_BLOCK), OK, BLOCK_SENT),
    (("CCCC", ACKNOWLEDGE, OF_BLOCK), OK, BLOCK_HELD),
    (
        ("AAAA", "/query", r#"{"uri":"tel:+12025337001"}"#),
        OK,
        r#"{"uri":"tel:+12025337001;npdi;rn=+12025330000"}"#,
    ),
    (
        ("AAAA", "/query", r#"{"uri":"tel:+12025337002"}"#),
        OK,
        r#"{"uri":"tel:+12025337002;npdi;rn=+12025330000"}"#,
    ),
    (
        ("AAAA", "/query", r#"{"uri":"tel:+12025337003"}"#),
        OK,
        r#"{"uri":"tel:+12025337003;npdi;rn=+12025550000"}"#,
    ),
    (
        ("AAAA", "/query", r#"{"uri":"tel:+12025336003"}"#),
        OK,
        r#"{"uri":"tel:+12025336003;npdi"}"#,
    ),
];
