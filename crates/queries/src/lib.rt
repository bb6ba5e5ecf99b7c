// Eight queries to a schema of meters, and what the rules of building and of walking make of each.
// Each function does nothing; its promise is a theorem on them.
#![tactic(auto)]

ghost use Rattle.queries.specs.Meters.{MetersAreASchema};
ghost use Rattle.queries.specs.Queries.{AllStand};

/// The rows of the meters have no fault as a schema, which keeps the law and knows each type that it answers with.
pub fn the_meters_are_a_schema()
    ensures { MetersAreASchema }
{}

/// Each of the eight queries is a document, lists the errors and comes to the stored definitions and selections that stand
/// beside it; and a walk from each operation comes upon the fields at the places beside it.
pub fn the_queries_stand()
    ensures { AllStand }
{}
