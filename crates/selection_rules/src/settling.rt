// What becomes of one selection in the type around it: stored with a place and a set type, dropped, or an error.
ghost use Rattle.std.specs.Prelude.{◌≡◌};
ghost use Rattle.document.specs.Rows.{selection_of};
ghost use Rattle.selection_rules.specs.Settle.{found_field, settled};

use document::{SelectionKind, SelectionRow};
use schema::{FieldDefinition, FieldLookupError, Schema, TypeKind};

/// What is wrong with a selection.
#[derive(Clone, Copy)]
pub enum SelectionFault {
    /// An inline fragment's condition is no known type.
    UnknownCondition,
    /// A field of this scalar type has selections beneath it.
    OnScalar(u32),
    /// A field of this enum type has selections beneath it.
    OnEnum(u32),
    /// The type around the field does not have it.
    UnknownField,
}

/// What becomes of a selection.
// Kept: no `Option` or `Result` has these three outcomes, and a caller names each of them.
#[derive(Clone, Copy)]
pub enum Settled {
    /// It is stored, with the place of its definition and the type of the set beneath it.
    Kept { place: u32, set_type: u32 },
    /// It is left out without an error: the type around it is not known.
    Dropped,
    /// It is left out with an error.
    Faulty(SelectionFault),
}

// What becomes of a field that was found.
fn settle_found<S: Schema>(schema: &S, found: FieldDefinition, beneath: bool) -> Settled
    ensures { result ≡ found_field (S.Schema.meaning schema.now) found beneath }
{
    if beneath {
        match schema.kind(found.inner) {
            Some(TypeKind::Scalar) => return Settled::Faulty(SelectionFault::OnScalar(found.inner)),
            Some(TypeKind::Enum) => return Settled::Faulty(SelectionFault::OnEnum(found.inner)),
            _ => {}
        }
    }
    Settled::Kept {
        place: found.place,
        set_type: found.inner,
    }
}

/// What becomes of a selection in the type around it, which has selections beneath it or not.
pub fn settle<S: Schema>(schema: &S, around: u32, row: &SelectionRow, beneath: bool) -> Settled
    ensures { result ≡ settled (S.Schema.meaning schema.now) around (selection_of row.now) beneath }
{
    match row.selection_kind() {
        Some(SelectionKind::Field) => match schema.type_field(around, row.name) {
            Ok(found) => settle_found(schema, found, beneath),
            Err(FieldLookupError::NoSuchField) => Settled::Faulty(SelectionFault::UnknownField),
            Err(FieldLookupError::NoSuchType) => Settled::Dropped,
        },
        Some(SelectionKind::Spread) => Settled::Kept {
            place: 0,
            set_type: 0,
        },
        _ if row.condition == 0 => Settled::Kept {
            place: 0,
            set_type: around,
        },
        _ if schema.knows(row.condition) => Settled::Kept {
            place: 0,
            set_type: row.condition,
        },
        _ => Settled::Faulty(SelectionFault::UnknownCondition),
    }
}
