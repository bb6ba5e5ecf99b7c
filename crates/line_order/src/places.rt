// Where a line may stand, and what is wrong where it may not.
ghost use Rattle.std.specs.Prelude.{◌≡◌};
ghost use Rattle.refusal.specs.Firsts.{verdict_of};
ghost use Rattle.line_order.specs.Places.{place_fault};

use crate::keywords::Keyword;
use crate::rows_left::RowsLeft;
use thiserror::Error;

/// Why a line may not stand where it does, or the text may not end where it does.
#[derive(Clone, Copy, Debug, Error)]
pub enum Misplaced {
    /// A line that belongs to a schema stands before the first one.
    #[error("a line with {0} belongs to a schema: begin one first")]
    NoSchemaYet(Keyword),
    /// A row more than the schema or the document has.
    #[error("a {0} too many: {counting}", counting = .0.counting())]
    TooManyRows(Keyword),
    /// The line stands where rows are still to come.
    #[error("a line with {0} comes too soon; still to come: {1}")]
    RowsMissing(Keyword, RowsLeft),
    /// The text ends where rows are still to come.
    #[error("the text ends too soon; still to come: {0}")]
    EndsEarly(RowsLeft),
}

/// Refuses a line that may not stand where these rows are left, or before any schema. First come the types, then the
/// fields, then questions and documents for one builder or several up to the next schema; a document's definitions come first, then its rows. A
/// name may be given anywhere.
pub fn check_place(left: Option<RowsLeft>, keyword: Keyword) -> Result<(), Misplaced>
    ensures { result ≡ verdict_of (place_fault keyword left) }
{
    let Some(left) = left else {
        return match keyword {
            Keyword::Name | Keyword::Schema => Ok(()),
            _ => Err(Misplaced::NoSchemaYet(keyword)),
        };
    };
    match keyword {
        Keyword::Name => Ok(()),
        Keyword::Type if left.types > 0 => Ok(()),
        Keyword::Field if left.types > 0 => Err(Misplaced::RowsMissing(keyword, left)),
        Keyword::Field if left.fields > 0 => Ok(()),
        Keyword::Definition if left.definitions > 0 => Ok(()),
        Keyword::Row if left.definitions > 0 => Err(Misplaced::RowsMissing(keyword, left)),
        Keyword::Row if left.rows > 0 => Ok(()),
        Keyword::Type | Keyword::Field | Keyword::Definition | Keyword::Row => Err(
            Misplaced::TooManyRows(keyword),
        ),
        Keyword::Schema | Keyword::Ask | Keyword::Document | Keyword::Other if left.is_complete() =>
            Ok(()),
        Keyword::Schema | Keyword::Ask | Keyword::Document | Keyword::Other => Err(
            Misplaced::RowsMissing(keyword, left),
        ),
    }
}
