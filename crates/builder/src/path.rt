// The path to the selection that is being built: the definition, and the response keys of the open fields.
ghost use Rattle.std.specs.Prelude.{◌≡◌, ◌+◌, ◌<◌, ◌≤◌, [], length};
ghost use Rattle.document.specs.Rows.{selection_of};
ghost use Rattle.document.specs.Needs.{way};
ghost use Rattle.selection_rules.specs.Errors.{path_at};
ghost use Rattle.selection_rules.specs.Sets.{path_to};

use document::{SelectionKind, SelectionRow};
use selection_rules::{ExecutableDefinitionName, SelectionPath, response_key};

/// An open path: as many of the keys are in use as fields are open.
// Kept: an array with a depth beside it, since a builder has no heap. One path is lent all the way down, and each set leaves it
// as it was.
#[derive(Clone, Copy)]
pub struct OpenPath {
    root: ExecutableDefinitionName,
    keys: [u32; 32],
    depth: usize,
    ghost within: { depth ≤ 32 },
}

impl OpenPath {
    ghost use Rattle.builder.specs.Filling.{put, path_of, cut_to};

    // The path of a definition's own set.
    pub fn start(root: ExecutableDefinitionName) -> OpenPath
        ensures path { path_of result ≡ record { root = root; keys = [] } }
        ensures depth { result.depth ≡ 0 }
    {
        OpenPath {
            root,
            keys: [0; 32],
            depth: 0,
        }
    }

    // How many fields are open.
    pub fn depth(&self) -> usize
        ensures { result ≡ self.now.depth }
    {
        self.depth
    }

    // Goes on to a selection, and to what stands beneath it: a field opens its key.
    pub fn enter(&mut self, row: &SelectionRow)
        requires { self.old.depth < 32 }
        ensures path { path_of self.new ≡ path_to (path_of self.old) (selection_of row.now) }
        ensures depth { self.new.depth ≡ way self.old.depth (selection_of row.now) }
    {
        if row.selection_kind() == Some(SelectionKind::Field) {
            self.keys[self.depth] = response_key(row);
            self.depth += 1;
        }
    }

    // Goes back to where fewer fields were open.
    pub fn leave(&mut self, depth: usize)
        requires { depth ≤ self.old.depth }
        ensures path { path_of self.new ≡ cut_to depth (path_of self.old) }
        ensures depth { self.new.depth ≡ depth }
    {
        self.depth = depth;
    }

    // Writes the open keys into the table, from the place `at` on, and tells the path that stands there.
    pub fn write(&self, path_keys: &mut [u32], at: usize) -> SelectionPath
        requires room { at + self.now.depth ≤ length path_keys.old }
        requires few { at + self.now.depth ≤ 131072 }
        ensures keys { path_keys.new ≡ put path_keys.old at (path_of self.now).keys }
        ensures path { result ≡ path_at at (path_of self.now) }
        ensures count { length (path_of self.now).keys ≡ self.now.depth }
    {
        let end = at + self.depth;
        path_keys[at..end].copy_from_slice(&self.keys[0..self.depth]);
        SelectionPath {
            root: self.root,
            first_key: at as u32,
            end_key: end as u32,
        }
    }
}
