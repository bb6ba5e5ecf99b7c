// The turns of a walk. Rows stand in preorder, so walking a definition is a scan of its range; the stack holds a step for
// each definition that is open.
ghost use Rattle.std.specs.Prelude.{◌≡◌, ◌<◌, map, length};
ghost use Rattle.ordered_index.specs.Keys.{same_name, name_hash};
ghost use Rattle.ordered_index.specs.Sound.{Sound};
ghost use Rattle.stored_tables.specs.Layout.{name_of};
ghost use Rattle.walking.specs.Tables.{InShape};
ghost use Rattle.walking.specs.Turning.{going, Ready, Turned, FirstNamed};

use document::SelectionKind;
use finished_tables::IndexedDocument;
use ordered_index::find;

/// Rows of a definition that are still to be walked.
#[derive(Clone, Copy, Default)]
pub struct WalkStep {
    pub next: u32,
    pub end: u32,
}

/// Whether a walk looks at the rows beneath a field.
#[derive(Clone, Copy)]
pub enum Scope {
    Deep,
    Flat,
}

// The fragment of this name, unless it is marked.
fn unmarked(document: &IndexedDocument<'_>, name: u32, marks: &[u8]) -> Option<usize>
    requires sound { Sound same_name name_hash (map name_of document.now.stored.fragments.now) document.now.fragment_slots.now }
    requires each { length marks.now ≡ length document.now.stored.fragments.now }
    ensures { FirstNamed document.now.stored marks.now name result }
{
    let place = find(document.stored.fragments, document.fragment_slots, &name)?;
    if marks[place] != 0 {
        return None;
    }
    Some(place)
}

/// One turn of a walk that has open steps: the place of the field that it comes upon, if it does.
pub fn turn(
    document: &IndexedDocument<'_>,
    scope: Scope,
    stack: &mut [WalkStep],
    depth: &mut usize,
    marks: &mut [u8],
) -> Option<u32>
    requires sound { Sound same_name name_hash (map name_of document.now.stored.fragments.now) document.now.fragment_slots.now }
    requires shape { InShape document.now.stored }
    requires above { 0 < depth.old }
    requires ready { Ready document.now.stored (going stack.old depth.old marks.old) }
    ensures { Turned document.now.stored scope (going stack.old depth.old marks.old) (going stack.new depth.new marks.new) result }
{
    let top = *depth - 1;
    let WalkStep { next, end } = stack[top];
    if next >= end {
        *depth = top;
        return None;
    }
    let row = document.stored.rows[next as usize].selection;
    stack[top].next = next + 1;
    match row.selection_kind() {
        Some(SelectionKind::Field) => {
            match scope {
                Scope::Deep => {}
                Scope::Flat => stack[top].next = row.end,
            }
            Some(next)
        }
        Some(SelectionKind::Spread) => {
            if let Some(place) = unmarked(document, row.name, marks) {
                let fragment = document.stored.fragments[place].row;
                marks[place] = 1;
                stack[*depth] = WalkStep {
                    next: fragment.first,
                    end: fragment.end,
                };
                *depth += 1;
            }
            None
        }
        Some(SelectionKind::InlineFragment) => None,
        None => None,
    }
}
