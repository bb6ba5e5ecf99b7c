// What a refused call tells: the reason, the layer at fault, and the faulty row; and a number that stands for no case.
#![tactic(auto)]

ghost use Rattle.std.specs.Prelude.{◌≡◌};
ghost use Rattle.refusal.specs.Layers.{layer_number, reason_number};

use thiserror::Error;

/// The layers of the library, from the bottom up.
#[derive(Clone, Copy, PartialEq, Eq, Debug)]
pub enum Layer {
    Schema = 1,
    DocumentTables = 2,
    Builder = 3,
    FinishedDocument = 4,
}

impl Layer {
    /// The number of the layer: 1 to 4.
    pub fn number(self) -> u32
        ensures { result ≡ layer_number self }
    {
        self as u32
    }
}

/// Why a call is refused.
#[derive(Clone, Copy, PartialEq, Eq, Debug)]
pub enum Reason {
    /// A schema has more types or fields than its limit.
    SchemaOverLimit = 1,
    /// A document has too many definitions.
    TooManyDefinitions = 2,
    /// A document has too many rows.
    TooManyRows = 3,
    /// A stored table is shorter than its count.
    TableTooShort = 4,
    /// A name is 0 where one is needed.
    NameMissing = 5,
    /// A type's kind is not 1 to 6.
    KindUnknown = 6,
    /// A type, or a field of a type, comes twice.
    Repeated = 7,
    /// A field's owner is no object or interface.
    OwnerUnfit = 8,
    /// A stored definition or row that is handed back breaks its layout.
    StoredBroken = 9,
    /// A handed row breaks its layout.
    Broken = 10,
    /// A row stands deeper than is allowed.
    TooDeep = 11,
    /// What is stored and what is needed pass a limit or a table.
    NoRoom = 12,
    /// The tables that are lent to a walk are too short.
    WalkTooShort = 13,
    /// No operation is stored at a place.
    NoOperation = 14,
    /// An index is short, or is none of the entries beside it.
    IndexUnfit = 15,
    /// There was no memory.
    NoMemory = 26,
}

impl Reason {
    /// The number of the reason: 1 to 15, or 26.
    pub fn number(self) -> u32
        ensures { result ≡ reason_number self }
    {
        self as u32
    }
}

/// A refusal. The row is the place of the faulty row plus 1, or 0 where no row is at fault.
#[derive(Clone, Copy, PartialEq, Eq, Debug)]
pub struct Refusal {
    pub reason: Reason,
    pub layer: Layer,
    pub row: u32,
}

/// A number that stands for no case of an enum.
#[derive(Clone, Copy, PartialEq, Eq, Debug, Error)]
#[error("no case has the number {0}")]
pub struct UnknownNumber(pub u32);
