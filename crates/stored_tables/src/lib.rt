// What a builder keeps in the tables that its caller lends: stored definitions and stored rows. They are handed back at
// each call and may hold anything by then, so they are checked.
//
// `StoredDocument::check` tells the first definition or row that breaks the layout. What is kept, laid out, has none.
#![tactic(auto)]

ghost use Rattle.stored_tables.specs.Statement.{LaidOutIsInOrder};

mod definition;
mod fault;
mod ranges;
mod stored;
mod tables;

pub use definition::StoredDefinition;
pub use fault::StoredFault;
pub use stored::StoredDocument;
pub use tables::Tables;

/// Kept definitions that can stand in tables, laid out, are without a fault. The function does nothing; its promise is the
/// theorem.
pub fn laid_out_tables_are_in_order()
    ensures { LaidOutIsInOrder }
{}
