// Taking in the definitions of a document, in their order: each is ruled on, and built and kept where it is to be stored.
ghost use Rattle.std.specs.Prelude.{◌≡◌, false, List};
ghost use Rattle.layout.specs.Forest.{Forest};
ghost use Rattle.document.specs.Rows.{Selection, head_of, head_broken};
ghost use Rattle.document.specs.Document.{Definition, IsDocument};
ghost use Rattle.document.specs.Sets.{Holds};
ghost use Rattle.building_rules.specs.Definitions.{accepted_from};
ghost use Rattle.builder.specs.Holding.{table, state, held, one_in, taken_in};
ghost use Rattle.builder.specs.Ruling.{Ruled};
ghost use Rattle.builder.specs.Storing.{Indexed};
ghost use Rattle.builder.specs.Taking.{handed_in, Ready, AllReady};

use crate::named::{Named, Stored};
use crate::path::OpenPath;
use crate::progress::Progress;
use crate::ruling::Ruling;
use crate::set::build_set;
use crate::store::{keep_definition, list_ruling, root_name_of};
use document::{DefinitionRow, Document, SelectionSet};
use ordered_index::in_use;
use schema::Schema;
use selection_rules::{BuildError, StoredRow};
use stored_tables::StoredDefinition;

// What becomes of a definition, by what is stored. All that is stored is lent for as long.
fn rule_on<'t, S: Schema>(
    schema: &S,
    row: &DefinitionRow,
    strict: bool,
    progress: Progress,
    operations: &'t [StoredDefinition],
    operation_slots: &'t [u32],
    fragments: &'t [StoredDefinition],
    fragment_slots: &'t [u32],
) -> Ruling
    requires whole { head_broken (head_of row.now) ≡ false }
    requires operations { Indexed (table operations.now operation_slots.now progress.operations) }
    requires fragments { Indexed (table fragments.now fragment_slots.now progress.fragments) }
    ensures { Ruled (S.Schema.meaning schema.now) (state progress.anonymous progress.multiple_anonymous operations.now progress.operations fragments.now progress.fragments) (head_of row.now) strict result }
{
    let stored = Stored {
        operations: Named {
            definitions: in_use(operations, progress.operations),
            slots: operation_slots,
        },
        fragments: Named {
            definitions: in_use(fragments, progress.fragments),
            slots: fragment_slots,
        },
        anonymous: progress.anonymous,
        multiple_anonymous: progress.multiple_anonymous,
    };
    stored.rule(schema, row, strict)
}

// Takes in one definition, whose selections are those of the set.
fn take_definition<S: Schema>(
    schema: &S,
    document: &Document<'_>,
    row: &DefinitionRow,
    set: SelectionSet,
    strict: bool,
    progress: Progress,
    operations: &mut [StoredDefinition],
    operation_slots: &mut [u32],
    fragments: &mut [StoredDefinition],
    fragment_slots: &mut [u32],
    rows: &mut [StoredRow],
    errors: &mut [BuildError],
    path_keys: &mut [u32],
) -> Progress
    requires ready { (f : Forest Selection) × Ready document.now.rows.now set (handed_in (head_of row.now) f strict) (held progress operations.old operation_slots.old fragments.old fragment_slots.old rows.old errors.old path_keys.old) }
    ensures taken { (f : Forest Selection) → Holds document.now.rows.now set f → held result operations.new operation_slots.new fragments.new fragment_slots.new rows.new errors.new path_keys.new ≡ one_in (S.Schema.meaning schema.now) (held progress operations.old operation_slots.old fragments.old fragment_slots.old rows.old errors.old path_keys.old) (handed_in (head_of row.now) f strict) }
    ensures operations { Indexed (table operations.new operation_slots.new result.operations) }
    ensures fragments { Indexed (table fragments.new fragment_slots.new result.fragments) }
{
    let ruling = rule_on(
        schema,
        row,
        strict,
        progress,
        operations,
        operation_slots,
        fragments,
        fragment_slots,
    );
    let mut next = progress;
    next.multiple_anonymous = ruling.multiple_anonymous;
    next.filled.errors = list_ruling(&ruling, errors, progress.filled.errors);
    let Some(set_type) = ruling.set_type else {
        return next;
    };
    let first = next.filled.rows;
    let mut path = OpenPath::start(root_name_of(row));
    next.filled = build_set(
        schema,
        document,
        set,
        set_type,
        &mut path,
        rows,
        errors,
        path_keys,
        next.filled,
    );
    let definition = StoredDefinition::new(row, first as u32, next.filled.rows as u32, set_type);
    keep_definition(
        definition,
        next,
        operations,
        operation_slots,
        fragments,
        fragment_slots,
    )
}

// Takes in all definitions of a document.
pub fn take_document<S: Schema>(
    schema: &S,
    document: &Document<'_>,
    strict: bool,
    progress: Progress,
    operations: &mut [StoredDefinition],
    operation_slots: &mut [u32],
    fragments: &mut [StoredDefinition],
    fragment_slots: &mut [u32],
    rows: &mut [StoredRow],
    errors: &mut [BuildError],
    path_keys: &mut [u32],
) -> Progress
    requires ready { (d : List Definition) × AllReady document.now.definitions.now document.now.rows.now strict d (held progress operations.old operation_slots.old fragments.old fragment_slots.old rows.old errors.old path_keys.old) }
    ensures taken { (d : List Definition) → IsDocument document.now.definitions.now document.now.rows.now d → held result operations.new operation_slots.new fragments.new fragment_slots.new rows.new errors.new path_keys.new ≡ taken_in (S.Schema.meaning schema.now) (held progress operations.old operation_slots.old fragments.old fragment_slots.old rows.old errors.old path_keys.old) (accepted_from strict d) }
    ensures operations { Indexed (table operations.new operation_slots.new result.operations) }
    ensures fragments { Indexed (table fragments.new fragment_slots.new result.fragments) }
{
    let mut next = progress;
    for (place, row) in document.definitions.iter().enumerate() {
        next = take_definition(
            schema,
            document,
            row,
            document.selections(place),
            strict,
            next,
            operations,
            operation_slots,
            fragments,
            fragment_slots,
            rows,
            errors,
            path_keys,
        );
    }
    next
}
