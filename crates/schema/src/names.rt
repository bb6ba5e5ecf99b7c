// Names as numbers, and the eleven names that have the same number everywhere.
ghost use Rattle.std.specs.Prelude.{◌≡◌, Some, None};
ghost use Rattle.schema.specs.Names.{name_or_none, fixed_text};

/// A name of a type, a field or an argument, as the number that it was given; 0 is no name.
pub type Name = u32;

pub const QUERY: Name = 1;

pub const MUTATION: Name = 2;

pub const SUBSCRIPTION: Name = 3;

pub const TYPENAME_FIELD: Name = 4;

pub const SCHEMA_FIELD: Name = 5;

pub const TYPE_FIELD: Name = 6;

pub const STRING: Name = 7;

pub const SCHEMA_TYPE: Name = 8;

pub const TYPE_TYPE: Name = 9;

pub const NAME_ARGUMENT: Name = 10;

pub const UNKNOWN: Name = 11;

/// The texts of the fixed names: that of the number n stands at n - 1.
pub const FIXED_NAMES: [&'static str; 11] = [
    "Query",
    "Mutation",
    "Subscription",
    "__typename",
    "__schema",
    "__type",
    "String",
    "__Schema",
    "__Type",
    "name",
    "UNKNOWN",
];

/// The name of this number, if it is one: 0 is no name.
pub fn name_or_none(number: u32) -> Option<Name>
    ensures { result ≡ name_or_none number }
{
    (number != 0).then_some(number)
}

/// The text of a fixed name, or `None` where the number is that of no fixed name.
pub fn fixed_name(number: Name) -> Option<&'static str>
    ensures { elim result [ Some text ↦ Some text.now | None ↦ None ] ≡ fixed_text number }
{
    match number {
        QUERY..=UNKNOWN => Some(FIXED_NAMES[number as usize - 1]),
        _ => None,
    }
}
