// What becomes of a definition before its selections are looked at: the errors of its own, and whether it is stored.
ghost use Rattle.std.specs.Prelude.{◌≡◌, false, length};
ghost use Rattle.document.specs.Rows.{head_of, head_broken};
ghost use Rattle.building_rules.specs.Definitions.{operation_of, taken_at};
ghost use Rattle.builder.specs.Holding.{taken_by, location_of};
ghost use Rattle.builder.specs.Naming.{state_now};
ghost use Rattle.builder.specs.Ruling.{operations_stored, arriving_name, root_ruling, named_ruling, further_ruling, operation_ruling, fragment_ruling, Ruled};

use crate::named::Stored;
use document::DefinitionRow;
use schema::{Name, OperationType, Schema, name_or_none};
use selection_rules::BuildError;

/// At most two errors, in this order; the type around the selections, where the definition is stored; and whether the
/// collision of the stored anonymous operation with another one has been listed by then.
#[derive(Clone, Copy)]
pub struct Ruling {
    pub first: Option<BuildError>,
    pub second: Option<BuildError>,
    pub set_type: Option<u32>,
    pub multiple_anonymous: bool,
}

/// Which operations are stored; an anonymous one is told by its location.
// Kept: that these four states are matched together with the operation that arrives is a rule of the project.
#[derive(Clone, Copy)]
pub enum StoredOperations {
    Neither,
    AnonymousOnly(u32),
    NamedOnly,
    Both(u32),
}

// The name of an operation that arrives, if it has one.
fn arriving_name(row: &DefinitionRow) -> Option<Name>
    ensures { result ≡ arriving_name (head_of row.now) }
{
    name_or_none(row.name)
}

pub fn operation_type(row: &DefinitionRow) -> OperationType
    ensures { result ≡ operation_of (head_of row.now) }
{
    OperationType::try_from(row.operation_type).unwrap_or(OperationType::Subscription)
}

// An operation that nothing stands against is stored, if the schema has a root for its type.
fn rule_root<S: Schema>(
    schema: &S,
    row: &DefinitionRow,
    first: Option<BuildError>,
    multiple_anonymous: bool,
) -> Ruling
    ensures { result ≡ root_ruling first multiple_anonymous ((S.Schema.meaning schema.now).root (operation_of (head_of row.now))) (head_of row.now) }
{
    let operation_type = operation_type(row);
    let set_type = schema.root_operation(operation_type);
    let second = match set_type {
        Some(_) => None,
        None => Some(BuildError::UndefinedRootOperation {
            location: row.location,
            operation_type,
        }),
    };
    Ruling {
        first,
        second,
        set_type,
        multiple_anonymous,
    }
}

impl Stored<'_> {
    fn operations_stored(&self) -> StoredOperations
        ensures { result ≡ operations_stored (location_of self.now.anonymous) (length self.now.operations.definitions.now) }
    {
        match (self.anonymous, self.operations.definitions) {
            (None, []) => StoredOperations::Neither,
            (None, _) => StoredOperations::NamedOnly,
            (Some(anonymous), []) => StoredOperations::AnonymousOnly(anonymous.row.location),
            (Some(anonymous), _) => StoredOperations::Both(anonymous.row.location),
        }
    }

    // A named operation: its name is taken, or nothing stands against it. An error may go before.
    fn rule_named<S: Schema>(
        &self,
        schema: &S,
        row: &DefinitionRow,
        first: Option<BuildError>,
    ) -> Ruling
        ensures { result ≡ named_ruling (S.Schema.meaning schema.now) first self.now.multiple_anonymous (taken_at row.now.name (taken_by self.now.operations.definitions.now (length self.now.operations.definitions.now))) (head_of row.now) }
    {
        let Some(previous_location) = self.operations.location_of(row.name) else {
            return rule_root(schema, row, first, self.multiple_anonymous);
        };
        Ruling {
            first,
            second: Some(BuildError::OperationNameCollision {
                location: row.name_location,
                name: row.name,
                previous_location,
            }),
            set_type: None,
            multiple_anonymous: self.multiple_anonymous,
        }
    }

    // A further anonymous operation, where one is stored at the location `at`: the stored one is told of once.
    fn rule_further_anonymous(&self, at: u32, row: &DefinitionRow) -> Ruling
        ensures { result ≡ further_ruling self.now.multiple_anonymous at (head_of row.now) }
    {
        let first = if self.multiple_anonymous {
            None
        } else {
            Some(BuildError::AmbiguousAnonymousOperation { location: at })
        };
        Ruling {
            first,
            second: Some(BuildError::AmbiguousAnonymousOperation {
                location: row.location,
            }),
            set_type: None,
            multiple_anonymous: true,
        }
    }

    // An operation, by those that are stored.
    fn rule_operation<S: Schema>(&self, schema: &S, row: &DefinitionRow) -> Ruling
        ensures { result ≡ operation_ruling (S.Schema.meaning schema.now) self.now.multiple_anonymous (taken_at row.now.name (taken_by self.now.operations.definitions.now (length self.now.operations.definitions.now))) (head_of row.now) (operations_stored (location_of self.now.anonymous) (length self.now.operations.definitions.now)) (arriving_name (head_of row.now)) }
    {
        match (self.operations_stored(), arriving_name(row)) {
            (StoredOperations::Neither, None) => {
                rule_root(schema, row, None, self.multiple_anonymous)
            }
            (StoredOperations::NamedOnly, None) => Ruling {
                first: Some(BuildError::AmbiguousAnonymousOperation {
                    location: row.location,
                }),
                second: None,
                set_type: None,
                multiple_anonymous: self.multiple_anonymous,
            },
            (StoredOperations::AnonymousOnly(at) | StoredOperations::Both(at), None) => {
                self.rule_further_anonymous(at, row)
            }
            (StoredOperations::Neither | StoredOperations::NamedOnly, Some(_)) => {
                self.rule_named(schema, row, None)
            }
            (StoredOperations::AnonymousOnly(at) | StoredOperations::Both(at), Some(_)) => {
                let first = Some(BuildError::AmbiguousAnonymousOperation { location: at });
                self.rule_named(schema, row, first)
            }
        }
    }

    // A fragment: its name is taken, or its condition is not known, or it is stored.
    fn rule_fragment<S: Schema>(&self, schema: &S, row: &DefinitionRow) -> Ruling
        ensures { result ≡ fragment_ruling self.now.multiple_anonymous (taken_at row.now.name (taken_by self.now.fragments.definitions.now (length self.now.fragments.definitions.now))) ((S.Schema.meaning schema.now).known row.now.condition) (head_of row.now) }
    {
        let (first, set_type) = match self.fragments.location_of(row.name) {
            Some(previous_location) => (
                Some(BuildError::FragmentNameCollision {
                    location: row.name_location,
                    name: row.name,
                    previous_location,
                }),
                None,
            ),
            None if schema.knows(row.condition) => (None, Some(row.condition)),
            None => (
                Some(BuildError::UndefinedTypeInNamedFragmentTypeCondition {
                    location: row.condition_location,
                    type_name: row.condition,
                    fragment_name: row.name,
                }),
                None,
            ),
        };
        Ruling {
            first,
            second: None,
            set_type,
            multiple_anonymous: self.multiple_anonymous,
        }
    }

    /// What becomes of a definition that keeps the rules of its kind.
    pub fn rule<S: Schema>(&self, schema: &S, row: &DefinitionRow, strict: bool) -> Ruling
        requires whole { head_broken (head_of row.now) ≡ false }
        ensures { Ruled (S.Schema.meaning schema.now) (state_now self.now) (head_of row.now) strict result }
    {
        // Kept: a match over the row's number, with a range that the flag guards, is a rule of the project at this place.
        let first = match row.kind {
            1 => return self.rule_operation(schema, row),
            2 => return self.rule_fragment(schema, row),
            3..=17 if strict => Some(BuildError::TypeSystemDefinition {
                location: row.location,
                name: row.name,
                kind: row.kind,
            }),
            _ => None,
        };
        Ruling {
            first,
            second: None,
            set_type: None,
            multiple_anonymous: self.multiple_anonymous,
        }
    }
}
