//! Tests values and their texts.
use numbers::{BlockId, Cic, CodeId, Line, Lrn, Minute, Spid, Subject, Tn};
use std::alloc::Global;

#[derive(Clone, Copy)]
enum Kind {
    Block,
    Cic,
    Code,
    Line,
    Lrn,
    Minute,
    Spid,
    Tn,
}

// Reads a text, and writes the value read.
fn rewrite(kind: Kind, text: &str, out: &mut String) -> Option<()> {
    let written = match kind {
        Kind::Block => Subject::Block(BlockId::read(text)?).write(out),
        Kind::Cic => Cic::read(text)?.write(out),
        Kind::Code => CodeId::read(text)?.write(out),
        Kind::Line => Line::read(text)?.write(out),
        Kind::Lrn => Lrn::read(text)?.write(out),
        Kind::Minute => Minute::read(text)?.write(out),
        Kind::Spid => Spid::read(text)?.write(out),
        Kind::Tn => Subject::Number(Tn::read(text)?).write(out),
    };
    written.ok()
}

// A text, and whether it is one of its kind.
type Row<'a> = (Kind, &'a str, bool);

// Returns the first text that is read and should not be, or is not read or written as it should be.
fn first_misread(alloc: Global, rows: &[Row<'static>]) -> Option<&'static str> {
    for (kind, text, is_valid) in rows {
        let mut out = String::new(alloc);
        let is_rewritten = rewrite(*kind, text, &mut out).is_some() && out.as_str() == *text;
        if is_rewritten != *is_valid {
            return Some(text);
        }
    }
    None
}

static TEXTS: [Row<'static>; 44] = [
    (Kind::Tn, "2025331234", true),
    (Kind::Block, "2025337", true),
    (Kind::Code, "202534", true),
    (Kind::Line, "001", true),
    (Kind::Lrn, "0025440000", true),
    (Kind::Cic, "0288", true),
    (Kind::Spid, "A0Z9", true),
    (Kind::Spid, "NPAC", true),
    (Kind::Minute, "0", true),
    (Kind::Minute, "7", true),
    (Kind::Minute, "1099511627775", true),
    (Kind::Tn, "", false),
    (Kind::Tn, "2025331234 ", false),
    (Kind::Tn, " 2025331234", false),
    (Kind::Tn, "20253312345", false),
    (Kind::Tn, "202533123", false),
    (Kind::Tn, "1025331234", false),
    (Kind::Tn, "0025331234", false),
    (Kind::Tn, "2021331234", false),
    (Kind::Tn, "2020331234", false),
    (Kind::Tn, "202533123x", false),
    (Kind::Tn, "+202533123", false),
    (Kind::Minute, "", false),
    (Kind::Minute, "00", false),
    (Kind::Minute, "01", false),
    (Kind::Minute, "+1", false),
    (Kind::Minute, " 1", false),
    (Kind::Minute, "1 ", false),
    (Kind::Minute, "1099511627776", false),
    (Kind::Minute, "99999999999999999999", false),
    (Kind::Spid, "", false),
    (Kind::Spid, "aAAA", false),
    (Kind::Spid, "AAA", false),
    (Kind::Spid, "AAAAA", false),
    (Kind::Spid, "AAA ", false),
    (Kind::Spid, "AA-A", false),
    (Kind::Spid, "AA\u{e9}", false),
    (Kind::Code, "202133", false),
    (Kind::Code, "2025331", false),
    (Kind::Block, "1025331", false),
    (Kind::Line, "1", false),
    (Kind::Line, "0001", false),
    (Kind::Lrn, "202544000", false),
    (Kind::Cic, "028", false),
];

// Returns whether a number has these parts, and is made of them.
fn are_parts() -> Option<bool> {
    let tn = Tn::read("2025331234")?;
    let block = BlockId::read("2025331")?;
    let line = Line::read("234")?;
    Some(
        tn.block() == block
            && tn.line() == line
            && tn.code() == block.code()
            && block.tn(line) == tn,
    )
}

// Returns whether the number before a block, the block, and its first number are in the order of
// their texts.
fn are_in_order() -> Option<bool> {
    let before = Subject::Number(Tn::read("2025330999")?);
    let block = Subject::Block(BlockId::read("2025331")?);
    let first = Subject::Number(Tn::read("2025331000")?);
    Some(before < block && block < first)
}

#[test]
fn values_are_read_and_written(rt: HostRuntime) {
    let found = (
        first_misread(rt.alloc(), &TEXTS),
        are_parts(),
        are_in_order(),
    );
    assert_eq!(rt; found, (None, Some(true), Some(true)));
    assert!(rt; Minute::new(Minute::LIMIT).is_none() && Minute::ZERO.number == 0);
    assert!(rt; Spid::read("NPAC") == Some(Spid::NPAC) && Minute::read("7") == Minute::new(7));
}
