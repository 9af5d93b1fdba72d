//! The cause of a refusal, and its words.
ghost use Rattle.std.specs.Prelude.{◌≡◌, IfOk, string_bytes};
ghost use Rattle.diagnosis.specs.Words.{cause_words, departure_words, part_words};

use crate::reason::Reason;
use std::alloc::{AllocError, Global};

/// A kind of part of a schema.
#[derive(Clone, Copy, Debug, PartialEq, Eq)]
pub enum Part {
    Table,
    Column,
    Index,
    /// A view, a trigger, or a table or an index that this program cannot read.
    Other,
}

impl Part {
    fn words(self) -> &'static str
        ensures { result.now ≡ part_words self }
    {
        match self {
            Part::Table => "table",
            Part::Column => "column",
            Part::Index => "index",
            Part::Other => "view, trigger or table",
        }
    }
}

/// How a part of a schema departs from that of a register.
#[derive(Clone, Copy, Debug, PartialEq, Eq)]
pub enum Departure {
    Missing,
    Added,
    Changed,
}

impl Departure {
    fn words(self) -> &'static str
        ensures { result.now ≡ departure_words self }
    {
        match self {
            Departure::Missing => "is missing",
            Departure::Added => "is not a register's",
            Departure::Changed => "has another type or rule than a register's",
        }
    }
}

/// Why a file is refused as a register's.
#[derive(Debug, Drop)]
pub enum Cause {
    Plain(Reason),
    /// A part of the schema departs from a register's.
    Schema {
        departure: Departure,
        part: Part,
        /// The part's name. That of a column follows its table's and a dot.
        name: String,
    },
    /// A row cannot be read.
    Row {
        table: &'static str,
        /// The first column of the row's key.
        key: String,
    },
    /// A table of an earlier format has a row beside the tables of the present one.
    OldRow {
        table: &'static str,
    },
}

impl Cause {
    /// Returns the cause in words, whose subject is the file or a part of it.
    ///
    /// # Errors
    ///
    /// `AllocError` if an allocation fails.
    pub fn words(&self, alloc: Global) -> Result<String, AllocError>
        ensures { IfOk result (λ text. string_bytes text ≡ cause_words self.now) }
    {
        match self {
            Cause::Plain(reason) => {
                let words = reason.words();
                format!(in alloc; "{words}")
            }
            Cause::Schema {
                departure,
                part,
                name,
            } => {
                let part = part.words();
                let name = name.as_str();
                let departure = departure.words();
                format!(in alloc; "the {part} {name} {departure}")
            }
            Cause::Row { table, key } => {
                let key = key.as_str();
                format!(in alloc; "the row {key} of the table {table} cannot be read")
            }
            Cause::OldRow { table } => {
                format!(in alloc; "the table {table} of an earlier format has a row")
            }
        }
    }
}
