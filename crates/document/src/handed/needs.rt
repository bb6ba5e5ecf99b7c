// How many places building a document can need.
ghost use Rattle.std.specs.Prelude.{◌≡◌, ℕ, ◌+◌, ◌≤◌, List, length, Some, count_by, MatchResult};
ghost use Rattle.layout.specs.Forest.{Forest, depth};
ghost use Rattle.document.specs.Rows.{Selection, selection_of, head_of, is_fragment, named_operation};
ghost use Rattle.document.specs.Document.{Definition, IsDocument, ReadsAsNone};
ghost use Rattle.document.specs.Verdict.{document_fault, told_fault};
ghost use Rattle.document.specs.Sets.{Holds};
ghost use Rattle.document.specs.Needs.{way, forest_keys, keys_in, needs_of};

use super::Document;
use super::sets::SelectionSet;
use crate::fault::DocumentFault;
use crate::kinds::SelectionKind;
use crate::rows::SelectionRow;

/// Places for a document: in the tables of operations, fragments and rows, in the error list, and for path keys.
#[derive(Clone, Copy, PartialEq, Eq, Debug)]
pub struct Needs {
    pub operations: usize,
    pub fragments: usize,
    pub rows: usize,
    pub errors: usize,
    pub path_keys: usize,
}

// How many fields are open beneath a selection, where so many are open around it.
fn fields_beneath(above: usize, row: &SelectionRow) -> usize
    requires { above ≤ 32 }
    ensures { result ≡ way above (selection_of row.now) }
{
    match row.selection_kind() {
        Some(SelectionKind::Field) => above + 1,
        _ => above,
    }
}

impl Document<'_> {
    // The path keys of a set, around which so many fields are open.
    // Kept, a loop by hand: as the set stands for a forest, each step leads on, and no count of steps is carried along.
    // Beneath the last row of a set, the loop goes on one level lower, so that a chain costs no call for each of its rows.
    fn path_keys_in_set(&self, set: SelectionSet, above: usize) -> usize
        requires few { length self.now.rows.now ≤ 4096 }
        requires stands { (f : Forest Selection) × Holds self.now.rows.now set f × (above + depth f ≤ 32) }
        ensures { (f : Forest Selection) → Holds self.now.rows.now set f → result ≡ forest_keys above f }
    {
        let mut total = 0;
        let mut rest = set;
        let mut around = above;
        while let Some(step) = self.next_selection(rest) {
            let beneath = fields_beneath(around, &step.row);
            total += beneath;
            if step.after.is_empty() {
                rest = step.beneath;
                around = beneath;
            } else {
                // A row with none beneath it costs no call.
                if !step.beneath.is_empty() {
                    total += self.path_keys_in_set(step.beneath, beneath);
                }
                rest = step.after;
            }
        }
        total
    }

    // The path keys of the document.
    fn path_keys(&self) -> usize
        requires { (d : List Definition) × IsDocument self.now.definitions.now self.now.rows.now d }
        ensures { (d : List Definition) → IsDocument self.now.definitions.now self.now.rows.now d → result ≡ keys_in d }
    {
        // Kept, no `map` and `sum`: each call rests on the definition's own forest, and the chain's proof did not close.
        let mut total = 0;
        for row in self.definitions {
            total += self.path_keys_in_set(row.selections(), 0);
        }
        total
    }

    fn named_operations(&self) -> usize
        ensures { result ≡ count_by (λ d. named_operation (head_of d)) self.now.definitions.now }
    {
        self.definitions
            .iter()
            .filter(|row| row.is_named_operation())
            .count()
    }

    fn fragments(&self) -> usize
        ensures { result ≡ count_by (λ d. is_fragment (head_of d)) self.now.definitions.now }
    {
        self.definitions
            .iter()
            .filter(|row| row.is_fragment())
            .count()
    }

    /// How many places building the document can need; or the first fault, where the tables are no document.
    pub fn needs(&self) -> Result<Needs, DocumentFault>
        ensures verdict { told_fault result ≡ document_fault self.now.definitions.now self.now.rows.now }
        ensures needs { MatchResult result (λ n. ((d : List Definition) × IsDocument self.now.definitions.now self.now.rows.now d × (n ≡ needs_of d))) (λ _. ReadsAsNone self.now.definitions.now self.now.rows.now) }
    {
        self.check()?;
        Ok(Needs {
            operations: self.named_operations(),
            fragments: self.fragments(),
            rows: self.rows.len(),
            errors: 2 * self.definitions.len() + self.rows.len(),
            path_keys: self.path_keys(),
        })
    }
}
