// The definitions of one table: whether each is whole and in place, and which of them a row is in.
ghost use Rattle.std.specs.Prelude.{◌≡◌, ◌==◌, length, count_by, take};
ghost use Rattle.std.specs.List.{list_any};
ghost use Rattle.stored_tables.specs.Verdict.{first_place, whole_as, misplaced, broken_definition, holds};
ghost use Rattle.stored_tables.specs.Ranges.{from_row, bound_behind, first_bound};

use crate::definition::StoredDefinition;
use document::DefinitionKind;

impl StoredDefinition {
    // Whether the head is that of a definition that its table may hold: a named operation, or a fragment whose set type is
    // its condition.
    fn is_whole(&self, kind: DefinitionKind) -> bool
        ensures { result ≡ whole_as kind self.now }
    {
        !self.row.is_broken()
            && match kind {
                DefinitionKind::Operation => self.row.is_named_operation(),
                DefinitionKind::Fragment => {
                    self.row.is_fragment()
                        && !self.row.is_unnamed()
                        && self.set_type == self.row.condition
                }
                DefinitionKind::TypeSystem => false,
            }
    }

    // Whether the range is out of place, where it may begin at `start`.
    pub fn is_misplaced(&self, start: u32, rows: usize) -> bool
        ensures { result ≡ misplaced start rows self.now }
    {
        self.row.first < start || self.row.end < self.row.first || self.row.end as usize > rows
    }

    // Whether the row stands in the range.
    pub fn holds(&self, row: usize) -> bool
        ensures { result ≡ holds row self.now }
    {
        self.row.first as usize <= row && row < self.row.end as usize
    }

    // The first of the rows behind this one from which on the range begins or has ended; their number, if there is none.
    pub fn bound_behind(&self, row: usize, rows: usize) -> usize
        ensures { result ≡ bound_behind row rows self.now }
    {
        let first = self.row.first as usize;
        let end = self.row.end as usize;
        if row < first {
            first.min(rows)
        } else if row < end {
            end.min(rows)
        } else {
            rows
        }
    }
}

// Whether one of the definitions has the name.
fn is_taken(definitions: &[StoredDefinition], name: u32) -> bool
    ensures { result ≡ list_any (λ d. d.row.name == name) definitions.now }
{
    definitions
        .iter()
        .any(|definition| definition.row.name == name)
}

// The first definition of a table that breaks the layout: by its head, its range, or a name that came before.
pub fn first_broken(
    definitions: &[StoredDefinition],
    kind: DefinitionKind,
    rows: usize,
) -> Option<usize>
    ensures { result ≡ first_place (broken_definition (whole_as kind) rows definitions.now) 0 (length definitions.now) }
{
    let mut start = 0;
    for (i, definition) in definitions.iter().enumerate() {
        if !definition.is_whole(kind)
            || definition.is_misplaced(start, rows)
            || is_taken(&definitions[..i], definition.row.name)
        {
            return Some(i);
        }
        start = definition.row.end;
    }
    None
}

// What is left of definitions once those are passed over whose ranges end before the row, or at it.
pub fn ending_behind(definitions: &[StoredDefinition], row: usize) -> &[StoredDefinition]
    ensures { result.now ≡ from_row row definitions.now }
{
    let mut rest = definitions;
    while let [first, later @ ..] = rest {
        if first.row.end as usize > row {
            break;
        }
        rest = later;
    }
    rest
}

// How many of the first, where there is one, hold the row.
pub fn held_by_first(definitions: &[StoredDefinition], row: usize) -> usize
    ensures { result ≡ count_by (holds row) (take 1 definitions.now) }
{
    match definitions {
        [first, ..] if first.holds(row) => 1,
        _ => 0,
    }
}

// The same for the first of definitions, where there is one.
pub fn first_bound(definitions: &[StoredDefinition], row: usize, rows: usize) -> usize
    ensures { result ≡ first_bound row rows definitions.now }
{
    match definitions {
        [first, ..] => first.bound_behind(row, rows),
        [] => rows,
    }
}
