// How many rows of a schema, or of a document, are still to come.
ghost use Rattle.std.specs.Prelude.{◌≡◌};
ghost use Rattle.line_order.specs.Places.{complete, after_line};

use crate::heads::{DocumentHead, SchemaChoice, TableHead};
use crate::keywords::Keyword;
use std::fmt;

/// The rows that are still to come: a schema's types and fields, or a document's definitions and rows.
#[derive(Clone, Copy, PartialEq, Eq, Default, Debug)]
pub struct RowsLeft {
    pub types: u32,
    pub fields: u32,
    pub definitions: u32,
    pub rows: u32,
}

impl RowsLeft {
    /// Whether no row is to come.
    pub fn is_complete(self) -> bool
        ensures { result ≡ complete self }
    {
        self == RowsLeft::default()
    }

    /// What is left after a line with this keyword.
    pub fn after(self, keyword: Keyword) -> RowsLeft
        ensures { result ≡ after_line keyword self }
    {
        match keyword {
            Keyword::Type => RowsLeft {
                types: self.types.saturating_sub(1),
                ..self
            },
            Keyword::Field => RowsLeft {
                fields: self.fields.saturating_sub(1),
                ..self
            },
            Keyword::Definition => RowsLeft {
                definitions: self.definitions.saturating_sub(1),
                ..self
            },
            Keyword::Row => RowsLeft {
                rows: self.rows.saturating_sub(1),
                ..self
            },
            Keyword::Schema | Keyword::Name | Keyword::Ask | Keyword::Document | Keyword::Other =>
                self,
        }
    }
}

impl From<SchemaChoice<TableHead>> for RowsLeft {
    ghost use Rattle.std.specs.Prelude.{◌≡◌};
    ghost use Rattle.line_order.specs.Places.{rows_of_schema};

    ghost from_gives = { λ head left. left ≡ rows_of_schema head };

    fn from(head: SchemaChoice<TableHead>) -> RowsLeft {
        match head {
            SchemaChoice::Open => RowsLeft::default(),
            SchemaChoice::Table(head) => RowsLeft {
                types: head.types,
                fields: head.fields,
                ..RowsLeft::default()
            },
        }
    }
}

impl From<DocumentHead> for RowsLeft {
    ghost use Rattle.std.specs.Prelude.{◌≡◌};
    ghost use Rattle.line_order.specs.Places.{rows_of_document};

    ghost from_gives = { λ head left. left ≡ rows_of_document head };

    fn from(head: DocumentHead) -> RowsLeft {
        RowsLeft {
            definitions: head.definitions,
            rows: head.rows,
            ..RowsLeft::default()
        }
    }
}

impl fmt::Display for RowsLeft {
    fn fmt<W: fmt::Write>(&self, f: &mut fmt::Formatter<W>) -> fmt::Result {
        let parts = [
            Counted(u64::from(self.types), "type"),
            Counted(u64::from(self.fields), "field"),
            Counted(u64::from(self.definitions), "definition"),
            Counted(u64::from(self.rows), "row"),
        ];
        let mut parts = parts.iter().filter(|part| part.0 > 0);
        if let Some(first) = parts.next() {
            write!(f, "{first}")?;
        }
        for part in parts {
            write!(f, " and {part}")?;
        }
        Ok(())
    }
}

/// So many of what the noun names: `1 type`, `2 types`.
#[derive(Clone, Copy)]
pub struct Counted(pub u64, pub &'static str);

impl fmt::Display for Counted {
    fn fmt<W: fmt::Write>(&self, f: &mut fmt::Formatter<W>) -> fmt::Result {
        let Counted(count, noun) = *self;
        if count == 1 {
            write!(f, "1 {noun}")
        } else {
            write!(f, "{count} {noun}s")
        }
    }
}
