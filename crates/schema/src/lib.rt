// What a GraphQL schema answers to the one who builds or validates a document: the type at which an operation
// starts, whether a type is known, of which kind it is, and what a field of it is. The interface is the trait `Schema`.
// The crate has a schema that knows everything (`OpenSchema`), the meta-fields over any schema (`MetaLayer`),
// a schema that is borrowed (a reference to one), and code that works with every schema (`ask`, `knows_by_field`).
#![tactic(auto)]

pub mod answers;
pub mod borrowed;
pub mod interface;
pub mod lookup;
pub mod meta;
pub mod names;
pub mod open;

pub use answers::{FieldDefinition, FieldLookupError, OperationType, TypeKind};
pub use borrowed::field_or_meta_field;
pub use interface::Schema;
pub use lookup::{Answer, Question, ask, knows_by_field};
pub use meta::MetaLayer;
pub use names::{Name, fixed_name, name_or_none};
pub use open::OpenSchema;
