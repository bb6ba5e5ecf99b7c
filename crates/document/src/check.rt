// Whether definitions are in order, and tables short enough; else the first fault.
ghost use Rattle.std.specs.Prelude.{◌≡◌, ℕ, ◌≤◌, Bool, not, map, length, None};
ghost use Rattle.refusal.specs.Firsts.{verdict_of};
ghost use Rattle.document.specs.Rows.{selection_view};
ghost use Rattle.document.specs.Verdict.{misplaced, definition_fault, definitions_fault, rows_fault, size_fault, orphan_fault, document_fault};

use crate::fault::DocumentFault;
use crate::rows::DefinitionRow;
use layout::RowFault;

/// How many definitions a document holds.
pub const MAX_DEFINITIONS: usize = 256;

/// How many selection rows a document holds.
pub const MAX_ROWS: usize = 4096;

/// How deep the selections of a document stand.
pub const MAX_DEPTH: u32 = 32;

// Whether the definition's range is out of place, where it is to begin at `start`.
fn is_misplaced(row: &DefinitionRow, start: u32, last: bool, rows: usize) -> bool
    ensures { result ≡ misplaced row.now start last rows }
{
    row.first != start
        || row.end < row.first
        || row.end as usize > rows
        || (last && row.end as usize != rows)
        || (row.is_type_system() && row.first != row.end)
}

// Whether a definition is in order, else what is wrong with it, the smaller number first.
fn check_definition(
    row: &DefinitionRow,
    start: u32,
    last: bool,
    rows: usize,
) -> Result<(), RowFault>
    ensures { result ≡ verdict_of (definition_fault row.now start last rows) }
{
    if row.is_unnamed() {
        return Err(RowFault::NameMissing);
    }
    if row.is_broken() || is_misplaced(row, start, last, rows) {
        return Err(RowFault::Broken);
    }
    Ok(())
}

/// Whether the definitions are in order, for so many rows.
pub fn check_definitions(definitions: &[DefinitionRow], rows: usize) -> Result<(), DocumentFault>
    requires { length definitions.now ≤ 256 }
    ensures { result ≡ verdict_of (definitions_fault rows 0 0 definitions.now) }
{
    let mut start = 0;
    for (i, row) in definitions.iter().enumerate() {
        let last = i + 1 == definitions.len();
        check_definition(row, start, last, rows).map_err(|fault| DocumentFault::InDefinitions(
            fault,
            (i + 1) as u32,
        ))?;
        start = row.end;
    }
    Ok(())
}

/// Whether tables of these lengths are short enough.
pub fn check_sizes(definitions: usize, rows: usize) -> Result<(), DocumentFault>
    ensures { result ≡ verdict_of (size_fault definitions rows) }
{
    if definitions > MAX_DEFINITIONS {
        return Err(DocumentFault::TooManyDefinitions);
    }
    if rows > MAX_ROWS {
        return Err(DocumentFault::TooManyRows);
    }
    Ok(())
}
