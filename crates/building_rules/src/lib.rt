// The rules of building executable documents, definition by definition, over any schema; and what they come to.
// Each function does nothing; its promise is a theorem on the rules.
#![tactic(auto)]

ghost use Rattle.building_rules.specs.Statement.{ExactlyWhenValid};
ghost use Rattle.building_rules.specs.Whole.{ValidKeptWhole};
ghost use Rattle.building_rules.specs.Keeping.{KeptExactly, KeptInOrder};
ghost use Rattle.building_rules.specs.Runs.{RunsGoOn};
ghost use Rattle.building_rules.specs.Bounds.{BuildsFit, NeedsOfDocuments};
ghost use Rattle.building_rules.specs.Needed.{ClosedIsNeeded, SomeAreValid};
ghost use Rattle.building_rules.specs.Calls.{DocumentsAreRead, HistoriesGrow};
ghost use Rattle.building_rules.specs.Storable.{KeptIsStorable};
ghost use Rattle.building_rules.specs.Chosen.{KeptAreChosen};

use schema::Schema;

/// Where the schema knows each type that it answers with, definitions list no error exactly when they keep the eight rules
/// of the specification.
pub fn no_errors_exactly_when_valid<S: Schema>(schema: &S)
    ensures { ExactlyWhenValid (S.Schema.meaning schema.now) }
{}

/// The condition is needed: a schema that answers with an unknown type can pass over an error. And it can be met, by valid
/// documents and by others.
pub fn knowing_the_types_is_needed()
    ensures { ClosedIsNeeded × SomeAreValid }
{}

/// Of valid definitions every operation and every fragment is kept, in their order, with all selections.
pub fn valid_documents_are_kept_whole<S: Schema>(schema: &S)
    ensures { ValidKeptWhole (S.Schema.meaning schema.now) }
{}

/// Of any selections, valid or not, exactly those are stored that are fit and stand beneath fit ones only, each with the
/// place and the type that the schema answers.
pub fn fit_selections_are_kept()
    ensures { KeptExactly }
{}

/// What is stored stands in the order, and beneath the selections, in which it was handed in.
pub fn selections_keep_their_order()
    ensures { KeptInOrder }
{}

/// Definitions that come later go on where the earlier ones left off: errors, stored definitions and state.
pub fn later_definitions_go_on()
    ensures { RunsGoOn }
{}

/// Definitions never need more places than their needs tell beforehand, whatever stands before them.
pub fn builds_fit_their_needs()
    ensures { BuildsFit × NeedsOfDocuments }
{}

/// The document that is read from two tables is the one whose layout they are.
pub fn documents_are_read()
    ensures { DocumentsAreRead }
{}

/// The accepted definitions of a history with one call more are those of the history, and then those of the call.
pub fn histories_grow()
    ensures { HistoriesGrow }
{}

/// What is kept of definitions that keep the rules of documents can stand in tables: it keeps the rules of what is stored,
/// and no name is kept twice.
pub fn kept_definitions_can_be_stored()
    ensures { KeptIsStorable }
{}

/// Which definitions are kept, told by those that are kept before them: the operations and fragments that none of these
/// stands against, and whose root or condition the schema knows.
pub fn kept_definitions_are_chosen()
    ensures { KeptAreChosen }
{}
