// Why rows are no schema, in words, and the refusal that says so.
ghost use Rattle.std.specs.Prelude.{◌≡◌};
ghost use Rattle.table_schema.specs.Faults.{row_reason, schema_refusal, make_refusal};
ghost use Rattle.table_schema.specs.declared.fault.MakeFault.TheVariants as made;

use refusal::{Layer, Reason, Refusal};
use std::alloc::AllocError;
use thiserror::Error;

/// What is wrong with a row, in words that follow the row.
#[derive(Clone, Copy, PartialEq, Eq, Debug, Error)]
pub enum RowFault {
    /// A name that is 0.
    #[error("lacks a name")]
    NameMissing,
    /// A type's kind that is not 1 to 6.
    #[error("is of no known kind")]
    KindUnknown,
    /// A type, or a field of a type, that came before.
    #[error("comes twice")]
    Repeated,
    /// A field's owner that is no object or interface of the rows.
    #[error("is in no object or interface of the schema")]
    OwnerUnfit,
}

impl From<RowFault> for Reason {
    ghost from_gives = { λ fault r. r ≡ row_reason fault };

    fn from(fault: RowFault) -> Reason {
        match fault {
            RowFault::NameMissing => Reason::NameMissing,
            RowFault::KindUnknown => Reason::KindUnknown,
            RowFault::Repeated => Reason::Repeated,
            RowFault::OwnerUnfit => Reason::OwnerUnfit,
        }
    }
}

/// Why rows are refused. A row is told by its place plus 1.
#[derive(Clone, Copy, PartialEq, Eq, Debug, Error)]
pub enum SchemaFault {
    /// More types or more fields than a schema holds.
    #[error("it has more types or fields than a schema holds")]
    OverLimit,
    /// Nothing is wrong with the rows, and the slots that were lent are not an empty index of the size that is asked for.
    #[error("the slots that were lent do not fit it")]
    SlotsUnfit,
    /// The first faulty row is one of the types.
    #[error("type {1} {0}")]
    InTypes(RowFault, u32),
    /// The types are in order, and the first faulty row is one of the fields.
    #[error("field {1} {0}")]
    InFields(RowFault, u32),
}

impl From<SchemaFault> for Refusal {
    ghost from_gives = { λ fault r. r ≡ schema_refusal fault };

    fn from(fault: SchemaFault) -> Refusal {
        let (reason, row) = match fault {
            SchemaFault::OverLimit => (Reason::SchemaOverLimit, 0),
            SchemaFault::SlotsUnfit => (Reason::IndexUnfit, 0),
            SchemaFault::InTypes(fault, row) | SchemaFault::InFields(fault, row) => {
                (Reason::from(fault), row)
            }
        };
        Refusal {
            reason,
            layer: Layer::Schema,
            row,
        }
    }
}

/// Why no schema was made: its rows are refused, or there was no memory.
#[derive(Clone, Copy, PartialEq, Eq, Debug)]
pub enum MakeFault {
    Rows(SchemaFault),
    NoMemory,
}

impl From<MakeFault> for Refusal {
    ghost from_gives = { λ fault r. r ≡ make_refusal fault };

    fn from(fault: MakeFault) -> Refusal {
        match fault {
            MakeFault::Rows(fault) => Refusal::from(fault),
            MakeFault::NoMemory => Refusal {
                reason: Reason::NoMemory,
                layer: Layer::Schema,
                row: 0,
            },
        }
    }
}

// Kept, conversions by hand: what is promised of making a schema names the error, and a derived conversion promises
// nothing.
impl From<SchemaFault> for MakeFault {
    ghost from_gives = { λ e r. r ≡ made.Rows e };

    fn from(e: SchemaFault) -> MakeFault {
        MakeFault::Rows(e)
    }
}

impl From<AllocError> for MakeFault {
    ghost from_gives = { λ _ r. r ≡ made.NoMemory };

    fn from(_e: AllocError) -> MakeFault {
        MakeFault::NoMemory
    }
}
