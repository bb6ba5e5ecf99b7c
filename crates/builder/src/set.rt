// The build of one set of selections: what is kept is stored in order, what is faulty is listed with its path.
ghost use Rattle.std.specs.Prelude.{◌≡◌, ℕ, ◌+◌, ◌<◌, ◌≤◌, List, [], ◌∷◌, length};
ghost use Rattle.layout.specs.Forest.{Forest, none};
ghost use Rattle.document.specs.Rows.{Selection, selection_of};
ghost use Rattle.document.specs.Sets.{Holds};
ghost use Rattle.document.specs.Needs.{way};
ghost use Rattle.selection_rules.specs.declared.stored.StoredRow.{StoredRow};
ghost use Rattle.selection_rules.specs.Errors.{Path, path_at, error_row};
ghost use Rattle.selection_rules.specs.Stored.{stored_in, stored_row};
ghost use Rattle.selection_rules.specs.Sets.{path_to, settled_in, error_of, build, errors as errors-of};
ghost use Rattle.builder.specs.Filling.{path_of, output, with_set, Room};

use crate::filled::Filled;
use crate::path::OpenPath;
use document::{Document, SelectionKind, SelectionRow, SelectionSet};
use schema::Schema;
use selection_rules::{BuildError, SelectionFault, SelectionPath, Settled, StoredRow, settle};

// The error of a selection with a fault, in the type around it.
fn selection_error(
    fault: SelectionFault,
    path: SelectionPath,
    around: u32,
    row: &SelectionRow,
) -> BuildError
    ensures { (n : ℕ) (p : Path) → path ≡ path_at n p → result ≡ error_row n (error_of fault p around (selection_of row.now)) }
{
    match fault {
        SelectionFault::UnknownCondition => {
            BuildError::UndefinedTypeInInlineFragmentTypeCondition {
                location: row.condition_location,
                type_name: row.condition,
                path,
            }
        }
        SelectionFault::OnScalar(type_name) => BuildError::SubselectionOnScalarType {
            location: row.location,
            type_name,
            path,
        },
        SelectionFault::OnEnum(type_name) => BuildError::SubselectionOnEnumType {
            location: row.location,
            type_name,
            path,
        },
        SelectionFault::UnknownField => BuildError::UndefinedField {
            location: row.name_location,
            type_name: around,
            field_name: row.name,
            path,
        },
    }
}

// Lists the error of a selection with a fault. The path handed over is that of the set, and is so again at the end; the path
// that is listed is that of the selection itself.
fn list_fault(
    fault: SelectionFault,
    path: &mut OpenPath,
    around: u32,
    row: &SelectionRow,
    errors: &mut [BuildError],
    path_keys: &mut [u32],
    filled: Filled,
) -> Filled
    requires shallow { path.old.depth < 32 }
    requires errors_fit { filled.errors < length errors.old }
    requires keys_fit { filled.path_keys + way path.old.depth (selection_of row.now) ≤ length path_keys.old }
    requires keys_few { filled.path_keys + way path.old.depth (selection_of row.now) ≤ 131072 }
    ensures listed { (rows : List StoredRow) → output rows errors.new path_keys.new result ≡ with_set (output rows errors.old path_keys.old filled) none (error_of fault (path_to (path_of path.old) (selection_of row.now)) around (selection_of row.now) ∷ []) }
    ensures path { path_of path.new ≡ path_of path.old }
    ensures depth { path.new.depth ≡ path.old.depth }
{
    let depth = path.depth();
    path.enter(row);
    let at = path.write(path_keys, filled.path_keys);
    path.leave(depth);
    errors[filled.errors] = selection_error(fault, at, around, row);
    Filled {
        rows: filled.rows,
        errors: filled.errors + 1,
        path_keys: at.end_key as usize,
    }
}

// What becomes of a selection in the type around it, told with the type around what stands beneath it: nothing stands
// beneath a spread, so that type is the one around the spread.
// Kept beside `settle`, which promises the set type 0 for a spread.
fn settle_in<S: Schema>(schema: &S, around: u32, row: &SelectionRow, beneath: bool) -> Settled
    ensures { result ≡ settled_in (S.Schema.meaning schema.now) around (selection_of row.now) beneath }
{
    if row.selection_kind() == Some(SelectionKind::Spread) {
        return Settled::Kept {
            place: 0,
            set_type: around,
        };
    }
    settle(schema, around, row, beneath)
}

// The row of a selection whose set is not closed yet, where the type around what stands beneath it is `inner`. A spread has
// no set, so that this stands beside `StoredRow::open`.
fn open_in(row: &SelectionRow, place: u32, inner: u32) -> StoredRow
    ensures { result ≡ stored_row (stored_in (selection_of row.now) place inner) 0 }
{
    let set_type = match row.selection_kind() {
        Some(SelectionKind::Spread) => 0,
        _ => inner,
    };
    StoredRow::open(row, place, set_type)
}

// Builds a set in the type around it. The tables have room for all that it can store and list. The path is that of the set,
// and is so again at the end.
// Kept: three lent tables and a count of what is filled, side by side. A struct of `&mut` slices is no plainer: each
// function would have to promise of each slice that it is still the same one. And a loop over the steps of a set: a
// chain of them would need a bound, and the tables change at each step.
pub fn build_set<S: Schema>(
    schema: &S,
    document: &Document<'_>,
    set: SelectionSet,
    around: u32,
    path: &mut OpenPath,
    rows: &mut [StoredRow],
    errors: &mut [BuildError],
    path_keys: &mut [u32],
    filled: Filled,
) -> Filled
    requires room { (f : Forest Selection) × Room document.now.rows.now set path.old.depth (output rows.old errors.old path_keys.old filled) f }
    ensures built { (f : Forest Selection) → Holds document.now.rows.now set f → output rows.new errors.new path_keys.new result ≡ with_set (output rows.old errors.old path_keys.old filled) (build (S.Schema.meaning schema.now) around f) (errors-of (S.Schema.meaning schema.now) (path_of path.old) around f) }
    ensures path { path_of path.new ≡ path_of path.old }
    ensures depth { path.new.depth ≡ path.old.depth }
{
    let depth = path.depth();
    let mut done = filled;
    let mut rest = set;
    while let Some(step) = document.next_selection(rest) {
        let row = step.row;
        let is_leaf = step.beneath.is_empty();
        match settle_in(schema, around, &row, !is_leaf) {
            Settled::Kept {
                place,
                set_type: inner,
            } => {
                let at = done.rows;
                rows[at] = open_in(&row, place, inner);
                done.rows += 1;
                // Nothing is built beneath a leaf.
                if !is_leaf {
                    path.enter(&row);
                    done = build_set(
                        schema,
                        document,
                        step.beneath,
                        inner,
                        path,
                        rows,
                        errors,
                        path_keys,
                        done,
                    );
                    path.leave(depth);
                }
                rows[at].selection.end = done.rows as u32;
            }
            Settled::Dropped => {}
            Settled::Faulty(fault) => {
                done = list_fault(fault, path, around, &row, errors, path_keys, done);
            }
        }
        rest = step.after;
    }
    done
}
