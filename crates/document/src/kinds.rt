// What rows are, as enums; the rows themselves hold numbers, and a number may be none of a kind.
ghost use Rattle.std.specs.Prelude.{◌≡◌};
ghost use Rattle.refusal.specs.Numbered.{case_or_unknown};
ghost use Rattle.document.specs.Kinds.{selection_kind, definition_kind};

use refusal::UnknownNumber;

/// What a selection is.
#[derive(Clone, Copy, PartialEq, Eq, Debug)]
pub enum SelectionKind {
    Field = 1,
    Spread = 2,
    InlineFragment = 3,
}

/// What a definition is: an operation by the number 1, a fragment by 2, a part of the type system by 3 to 17.
#[derive(Clone, Copy, PartialEq, Eq, Debug)]
pub enum DefinitionKind {
    Operation,
    Fragment,
    TypeSystem,
}

impl TryFrom<u32> for SelectionKind {
    type Error = UnknownNumber;

    ghost try_from_gives = { λ number kind. kind ≡ case_or_unknown number (selection_kind number) };

    fn try_from(number: u32) -> Result<Self, UnknownNumber> {
        match number {
            1 => Ok(SelectionKind::Field),
            2 => Ok(SelectionKind::Spread),
            3 => Ok(SelectionKind::InlineFragment),
            _ => Err(UnknownNumber(number)),
        }
    }
}

impl TryFrom<u32> for DefinitionKind {
    type Error = UnknownNumber;

    ghost try_from_gives = { λ number kind. kind ≡ case_or_unknown number (definition_kind number) };

    fn try_from(number: u32) -> Result<Self, UnknownNumber> {
        match number {
            1 => Ok(DefinitionKind::Operation),
            2 => Ok(DefinitionKind::Fragment),
            3..=17 => Ok(DefinitionKind::TypeSystem),
            _ => Err(UnknownNumber(number)),
        }
    }
}
