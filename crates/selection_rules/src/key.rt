// The key of a field in a response.
ghost use Rattle.std.specs.Prelude.{◌≡◌};
ghost use Rattle.document.specs.Rows.{selection_of};
ghost use Rattle.selection_rules.specs.Sets.{response_key};

use document::SelectionRow;
use schema::Name;

/// The key of a field in a response: its alias, else its name.
pub fn response_key(row: &SelectionRow) -> Name
    ensures { result ≡ response_key (selection_of row.now) }
{
    if row.alias == 0 { row.name } else { row.alias }
}
