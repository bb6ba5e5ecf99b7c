// Whether two finished documents are the same.
ghost use Rattle.std.specs.Prelude.{◌≡◌, Decides};
ghost use Rattle.finished_tables.specs.Indexes.{HasIndexes};
ghost use Rattle.finished_rules.specs.SameTables.{SameDocuments};
ghost use Rattle.comparison.specs.Comparing.{Compares};
ghost use Rattle.comparison.specs.Ranged.{ReadyDocument, operation_table, fragment_table};

use crate::fault::CompareFault;
use crate::tables::{DefinitionTable, same_anonymous, same_table};
use finished_tables::IndexedDocument;

// The named operations of a document as a table.
fn operations<'t>(document: &IndexedDocument<'t>) -> DefinitionTable<'t>
    ensures { result ≡ operation_table document.now }
{
    DefinitionTable {
        definitions: document.stored.operations,
        slots: document.operation_slots,
        rows: document.stored.rows,
    }
}

// The fragments of a document as a table.
fn fragments<'t>(document: &IndexedDocument<'t>) -> DefinitionTable<'t>
    ensures { result ≡ fragment_table document.now }
{
    DefinitionTable {
        definitions: document.stored.fragments,
        slots: document.fragment_slots,
        rows: document.stored.rows,
    }
}

// Whether the indexes of both documents are those of their stored names.
fn have_indexes(a: &IndexedDocument<'_>, b: &IndexedDocument<'_>) -> bool
    ensures { Decides result (HasIndexes a.now × HasIndexes b.now) }
{
    a.has_indexes() && b.has_indexes()
}

// Whether two documents are the same whose tables are in order.
fn same_documents(a: &IndexedDocument<'_>, b: &IndexedDocument<'_>) -> bool
    requires first { ReadyDocument a.now }
    requires second { ReadyDocument b.now }
    ensures { Decides result (SameDocuments a.now.stored b.now.stored) }
{
    same_anonymous(
        a.stored.anonymous,
        a.stored.rows,
        b.stored.anonymous,
        b.stored.rows,
    ) && same_table(&operations(a), &operations(b))
        && same_table(&fragments(a), &fragments(b))
}

/// Whether two finished documents are the same: in all members but locations, and whatever the order of their definitions.
/// Refused where the stored definitions and rows of the first break their layout, else where those of the second do, else
/// where an index of either does not fit.
pub fn compare(a: &IndexedDocument<'_>, b: &IndexedDocument<'_>) -> Result<bool, CompareFault>
    ensures { Compares a.now b.now result }
{
    a.stored.check().map_err(CompareFault::First)?;
    b.stored.check().map_err(CompareFault::Second)?;
    if !have_indexes(a, b) {
        return Err(CompareFault::IndexUnfit);
    }
    Ok(same_documents(a, b))
}
