// What the layout asks of a row: its end, whether it may have rows beneath it, and what is wrong with its members.
ghost use Rattle.std.specs.Prelude.{◌≡◌};
ghost use Rattle.layout.specs.declared.row.RowView.{RowView};

use refusal::Reason;
use thiserror::Error;

/// What is wrong with a row, in words that follow the row.
#[derive(Clone, Copy, PartialEq, Eq, Debug, Error)]
pub enum RowFault {
    /// A name that is 0 where one is needed.
    #[error("lacks a name")]
    NameMissing,
    /// A member or the end breaks the layout.
    #[error("breaks the layout")]
    Broken,
    /// The row stands deeper than is allowed. Every caller of `check_range` allows 32, so the words name it.
    #[error("stands deeper than 32")]
    TooDeep,
}

impl From<RowFault> for Reason {
    ghost use Rattle.layout.specs.Places.{row_reason};

    ghost from_gives = { λ fault reason. reason ≡ row_reason fault };

    fn from(fault: RowFault) -> Reason {
        match fault {
            RowFault::NameMissing => Reason::NameMissing,
            RowFault::Broken => Reason::Broken,
            RowFault::TooDeep => Reason::TooDeep,
        }
    }
}

/// What the layout sees of a row.
#[derive(Clone, Copy)]
pub struct RowView {
    /// The place after the rows beneath the row.
    pub end: u32,
    /// Whether nothing may stand beneath the row.
    pub leaf: bool,
    /// Whether a name is 0 that is needed.
    pub unnamed: bool,
    /// Whether another member breaks its rule.
    pub broken: bool,
}

/// A row with an end.
pub trait Row: Copy {
    ghost seen: { Self → RowView };

    fn view(&self) -> RowView
        ensures { result ≡ seen self.now };
}

/// The first row that does not fit: what is wrong with it, and its place plus 1.
#[derive(Clone, Copy)]
pub struct Misfit {
    pub fault: RowFault,
    pub row: usize,
}
