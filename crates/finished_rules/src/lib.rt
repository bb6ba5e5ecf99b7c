// What is asked of finished documents, said of what is kept: when two of them are the same, and which fields an operation
// reaches. Each function does nothing; its promise is a theorem.
#![tactic(auto)]

ghost use Rattle.finished_rules.specs.Answered.{BuildIsAnswered, RowsFollow, KeptIsAnswered, AnswersFollow};
ghost use Rattle.finished_rules.specs.Tables.{TablesReadBack};
ghost use Rattle.finished_rules.specs.Compared.{TablesCompare};
ghost use Rattle.finished_rules.specs.Numbers.{TablePlaces};
ghost use Rattle.finished_rules.specs.Reached.{TablesReach};

/// Kept rows have the places and the set types that the schema answers, and kept definitions the types around them.
pub fn kept_definitions_are_as_answered()
    ensures { BuildIsAnswered × KeptIsAnswered }
{}

/// Where the members that were handed in agree, so do those that the schema answered.
pub fn answers_follow_what_was_handed_in()
    ensures { RowsFollow × AnswersFollow }
{}

/// What is read back from the tables of kept definitions is each of them, by its role and in its order, with its rows.
pub fn tables_are_read_back()
    ensures { TablesReadBack }
{}

/// Over one schema, the tables of two lists of accepted definitions are the same exactly when each definition that is kept of
/// either is the same as one that is kept of the other.
pub fn tables_compare_what_is_kept()
    ensures { TablesCompare }
{}

/// Each row that is kept has its place in the table of rows, and each definition that is kept has one entry, in the table of
/// its role, with the range of its rows.
pub fn kept_definitions_have_their_places()
    ensures { TablePlaces }
{}

/// In tables that hold what is kept, a stored definition reaches the fields that the kept one reaches, at the same places.
pub fn tables_reach_what_is_kept()
    ensures { TablesReach }
{}
