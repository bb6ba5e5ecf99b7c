// The rows of a document as they are handed over; any member may hold anything.
ghost use Rattle.std.specs.Prelude.{◌≡◌};
ghost use Rattle.document.specs.Kinds.{selection_kind, definition_kind};
ghost use Rattle.document.specs.Rows.{selection_of, selection_unnamed, selection_broken, selection_view, head_of, head_unnamed, head_broken, is_fragment, is_type_system, named_operation, definition_numbers, selection_numbers};

use crate::kinds::{DefinitionKind, SelectionKind};
use layout::{Row, RowView};

/// A definition: an operation (kind 1), a fragment (2), or a part of the type system (3 to 17).
// Kept, the kinds of rows are numbers: so they are handed over, and may be of no kind.
#[derive(Clone, Copy, Default)]
pub struct DefinitionRow {
    pub kind: u32,
    pub operation_type: u32,
    pub name: u32,
    pub condition: u32,
    pub variables: u32,
    pub directives: u32,
    pub location: u32,
    pub name_location: u32,
    pub condition_location: u32,
    pub first: u32,
    pub end: u32,
}

/// A selection: a field (kind 1), a spread (2) or an inline fragment (3). Beneath it stand the rows up to its end.
#[derive(Clone, Copy, Default)]
pub struct SelectionRow {
    pub kind: u32,
    pub name: u32,
    pub alias: u32,
    pub condition: u32,
    pub arguments: u32,
    pub directives: u32,
    pub location: u32,
    pub name_location: u32,
    pub condition_location: u32,
    pub end: u32,
}

/// The definition with these members, in the order of the format.
impl From<[u32; 11]> for DefinitionRow {
    ghost from_gives = { λ numbers row. numbers ≡ definition_numbers row };

    fn from(numbers: [u32; 11]) -> DefinitionRow {
        let [
            kind,
            operation_type,
            name,
            condition,
            variables,
            directives,
            location,
            name_location,
            condition_location,
            first,
            end,
        ] = numbers;
        DefinitionRow {
            kind,
            operation_type,
            name,
            condition,
            variables,
            directives,
            location,
            name_location,
            condition_location,
            first,
            end,
        }
    }
}

/// The selection with these members, in the order of the format.
impl From<[u32; 10]> for SelectionRow {
    ghost from_gives = { λ numbers row. numbers ≡ selection_numbers row };

    fn from(numbers: [u32; 10]) -> SelectionRow {
        let [
            kind,
            name,
            alias,
            condition,
            arguments,
            directives,
            location,
            name_location,
            condition_location,
            end,
        ] = numbers;
        SelectionRow {
            kind,
            name,
            alias,
            condition,
            arguments,
            directives,
            location,
            name_location,
            condition_location,
            end,
        }
    }
}

impl SelectionRow {
    /// What the selection is, if its kind is one.
    pub fn selection_kind(&self) -> Option<SelectionKind>
        ensures { result ≡ selection_kind self.now.kind }
    {
        SelectionKind::try_from(self.kind).ok()
    }

    /// The members, in the order of the format.
    pub fn numbers(&self) -> [u32; 10]
        ensures { result ≡ selection_numbers self.now }
    {
        [
            self.kind,
            self.name,
            self.alias,
            self.condition,
            self.arguments,
            self.directives,
            self.location,
            self.name_location,
            self.condition_location,
            self.end,
        ]
    }
}

impl DefinitionRow {
    /// The members, in the order of the format.
    pub fn numbers(&self) -> [u32; 11]
        ensures { result ≡ definition_numbers self.now }
    {
        [
            self.kind,
            self.operation_type,
            self.name,
            self.condition,
            self.variables,
            self.directives,
            self.location,
            self.name_location,
            self.condition_location,
            self.first,
            self.end,
        ]
    }

    /// What the definition is, if its kind is one.
    pub fn definition_kind(&self) -> Option<DefinitionKind>
        ensures { result ≡ definition_kind self.now.kind }
    {
        DefinitionKind::try_from(self.kind).ok()
    }

    /// Whether a name is 0 that this kind of definition needs.
    pub fn is_unnamed(&self) -> bool
        ensures { result ≡ head_unnamed (head_of self.now) }
    {
        self.is_fragment() && (self.name == 0 || self.condition == 0)
    }

    /// Whether the definition is an operation that has a name.
    pub fn is_named_operation(&self) -> bool
        ensures { result ≡ named_operation (head_of self.now) }
    {
        matches!(self.definition_kind(), Some(DefinitionKind::Operation)) && self.name != 0
    }

    /// Whether the definition is a fragment.
    pub fn is_fragment(&self) -> bool
        ensures { result ≡ is_fragment (head_of self.now) }
    {
        matches!(self.definition_kind(), Some(DefinitionKind::Fragment))
    }

    /// Whether the definition is one of the type system.
    pub(crate) fn is_type_system(&self) -> bool
        ensures { result ≡ is_type_system (head_of self.now) }
    {
        matches!(self.definition_kind(), Some(DefinitionKind::TypeSystem))
    }

    /// Whether a member that this kind of definition does not use is not 0, or there is no such kind.
    pub fn is_broken(&self) -> bool
        ensures { result ≡ head_broken (head_of self.now) }
    {
        match self.definition_kind() {
            Some(DefinitionKind::Operation) => {
                self.operation_type > 2 || self.condition != 0 || self.condition_location != 0
            }
            Some(DefinitionKind::Fragment) => self.operation_type != 0 || self.variables != 0,
            Some(DefinitionKind::TypeSystem) => {
                self.operation_type != 0
                    || self.condition != 0
                    || self.variables != 0
                    || self.directives != 0
                    || self.name_location != 0
                    || self.condition_location != 0
            }
            None => true,
        }
    }
}

impl Row for SelectionRow {
    ghost seen = { selection_view };

    // The kind is found once. Members that a kind does not use are joined by `|`, not `||`: looking at all of them at once
    // takes less time than at one after the other.
    fn view(&self) -> RowView {
        let kind = self.selection_kind();
        let (unnamed, broken) = match kind {
            Some(SelectionKind::Field) => (
                self.name == 0,
                (self.condition != 0) | (self.condition_location != 0),
            ),
            Some(SelectionKind::Spread) => (
                self.name == 0,
                (self.alias != 0)
                    | (self.condition != 0)
                    | (self.arguments != 0)
                    | (self.name_location != 0)
                    | (self.condition_location != 0),
            ),
            Some(SelectionKind::InlineFragment) => (
                false,
                (self.name != 0)
                    | (self.alias != 0)
                    | (self.arguments != 0)
                    | (self.name_location != 0),
            ),
            None => (false, true),
        };
        RowView {
            end: self.end,
            leaf: matches!(kind, Some(SelectionKind::Spread)),
            unnamed,
            broken,
        }
    }
}
