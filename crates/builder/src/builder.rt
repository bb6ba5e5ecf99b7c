// The builder of executable documents: it adds documents, one after the other, into tables that its caller lends.
ghost use Rattle.std.specs.Prelude.{◌≡◌, ◌≤◌, false, List, [], ◌∷◌, ◌++◌, length, take, drop, replicate, IfErr, IfOk, ◌↔◌, nat_lt};
ghost use Rattle.std.specs.Result.{is_err};
ghost use Rattle.ordered_index.specs.Keys.{same_name, name_hash};
ghost use Rattle.ordered_index.specs.Sound.{Sound};
ghost use Rattle.schema.specs.Meaning.{Meaning, Closed};
ghost use Rattle.selection_rules.specs.Errors.{error_rows};
ghost use Rattle.building_rules.specs.Calls.{Call, accepted, listed_in};
ghost use Rattle.building_rules.specs.Rules.{Valid};
ghost use Rattle.builder.specs.Adding.{held_in, Answers, after_adding};
ghost use Rattle.builder.specs.Beginning.{Begins};
ghost use Rattle.builder.specs.Reading.{keys_between};
ghost use Rattle.builder.specs.Certificate.{Stands, IsKept, called, NeverStale, ReadsPath};
ghost use Rattle.builder.specs.Finished.{Finished};
ghost use Rattle.builder.specs.Lent.{SameTables, SameLengths, SameFurtherSlots, Untouched};

use crate::executable::ExecutableDocument;
use crate::fault::BuilderFault;
use crate::filled::Filled;
use crate::progress::Progress;
use crate::take::take_document;
use document::Document;
use finished_tables::INDEX_SLOTS;
use ordered_index::{empty, in_use};
use schema::Schema;
use selection_rules::{BuildError, SelectionPath};
use stored_tables::{StoredDefinition, StoredDocument, Tables};

/// A builder over a schema. What it stores and lists stands in the tables that are lent to its calls, always the same ones;
/// it keeps how far they are filled.
#[derive(Drop)]
pub struct ExecutableDocumentBuilder<'s, S> {
    schema: &'s S,
    progress: Progress,
}

// Empties an index: the first 512 slots.
fn empty_index(slots: &mut [u32])
    requires { 512 ≤ length slots.old }
    ensures emptied { slots.new ≡ replicate 512 0 ++ drop 512 slots.old }
    ensures sound { Sound same_name name_hash [] (take 512 slots.new) }
{
    empty::<StoredDefinition>(&mut slots[..INDEX_SLOTS]);
}

// What stands from one place up to another, if there is so much.
fn keys_at(keys: &[u32], first: usize, end: usize) -> &[u32]
    ensures { result.now ≡ keys_between keys.now first end }
{
    keys.get(first..end).unwrap_or(&[])
}

impl<'s, S: Schema> ExecutableDocumentBuilder<'s, S> {
    /// A builder that has stored nothing. It empties both indexes: of each the first 512 slots.
    pub fn new(
        schema: &'s S,
        tables: &mut Tables<'_>,
    ) -> Result<ExecutableDocumentBuilder<'s, S>, BuilderFault>
        ensures begins { Begins tables.old tables.new result }
        ensures schema { IfOk result (λ b. b.schema ≡ schema.entry) }
        ensures same { SameTables tables.old tables.new }
        ensures lengths { SameLengths tables.old tables.new }
        ensures calls { IfOk result (λ b. Stands S.Schema.meaning (S.Schema.meaning schema.now) [] b tables.new) }
    {
        if tables.operation_slots.len() < INDEX_SLOTS || tables.fragment_slots.len() < INDEX_SLOTS {
            return Err(BuilderFault::IndexUnfit);
        }
        empty_index(tables.operation_slots);
        empty_index(tables.fragment_slots);
        Ok(ExecutableDocumentBuilder {
            schema,
            progress: Progress {
                operations: 0,
                fragments: 0,
                filled: Filled {
                    rows: 0,
                    errors: 0,
                    path_keys: 0,
                },
                anonymous: None,
                multiple_anonymous: false,
            },
        })
    }

    /// Adds a document: its definitions are taken in order, by the rules of building. In a strict call a definition of the
    /// type system is an error. A refused call changes nothing.
    pub fn add_ast_document(
        &mut self,
        tables: &mut Tables<'_>,
        document: &Document<'_>,
        strict: bool,
    ) -> Result<(), BuilderFault>
        ensures answer { Answers self.old.progress tables.old document.now.definitions.now document.now.rows.now result }
        ensures held { held_in self.new.progress tables.new ≡ after_adding (S.Schema.meaning self.old.schema.now) (held_in self.old.progress tables.old) document.now.definitions.now document.now.rows.now strict result }
        ensures schema { self.new.schema ≡ self.old.schema }
        ensures further { SameFurtherSlots tables.old tables.new }
        ensures refused { IfErr result (λ _. ((self.new ≡ self.old) × Untouched tables.old tables.new)) }
        ensures same { SameTables tables.old tables.new }
        ensures lengths { SameLengths tables.old tables.new }
        ensures calls { (m : Meaning) (calls : List Call) → Stands S.Schema.meaning m calls self.old tables.old → Stands S.Schema.meaning m (calls ++ called document.now.definitions.now document.now.rows.now strict (is_err result) ∷ []) self.new tables.new }
        ensures never { (m : Meaning) (calls : List Call) → Stands S.Schema.meaning m calls self.old tables.old → NeverStale result }
    {
        self.progress.judge(tables, document)?;
        self.progress = take_document(
            self.schema,
            document,
            strict,
            self.progress,
            tables.operations,
            &mut tables.operation_slots[..INDEX_SLOTS],
            tables.fragments,
            &mut tables.fragment_slots[..INDEX_SLOTS],
            tables.rows,
            tables.errors,
            tables.path_keys,
        );
        Ok(())
    }

    /// The finished document, of what is stored by now. The builder is used up.
    pub fn build(self) -> ExecutableDocument<'s, S>
        ensures schema { result.schema ≡ self.entry.schema }
        ensures operations { result.operations ≡ self.entry.progress.operations }
        ensures fragments { result.fragments ≡ self.entry.progress.fragments }
        ensures rows { result.rows ≡ self.entry.progress.filled.rows }
        ensures anonymous { result.anonymous ≡ self.entry.progress.anonymous }
        ensures calls { (m : Meaning) (calls : List Call) (tables : Tables) → Stands S.Schema.meaning m calls self.entry tables → Finished S.Schema.meaning m calls result tables }
    {
        ExecutableDocument {
            schema: self.schema,
            operations: self.progress.operations,
            fragments: self.progress.fragments,
            rows: self.progress.filled.rows,
            anonymous: self.progress.anonymous,
        }
    }

    /// Whether errors are listed.
    pub fn has_errors(&self) -> bool
        ensures listed { result ≡ nat_lt 0 self.now.progress.filled.errors }
        ensures valid { (m : Meaning) (calls : List Call) (tables : Tables) → Stands S.Schema.meaning m calls self.now tables → Closed m → (result ≡ false) ↔ Valid m (accepted calls) }
    {
        self.progress.filled.errors > 0
    }

    /// What is stored in the tables.
    pub fn stored<'t>(&self, tables: &'t Tables<'_>) -> StoredDocument<'t>
        ensures anonymous { result.anonymous ≡ self.now.progress.anonymous }
        ensures operations { result.operations.now ≡ take self.now.progress.operations tables.now.operations.now }
        ensures fragments { result.fragments.now ≡ take self.now.progress.fragments tables.now.fragments.now }
        ensures rows { result.rows.now ≡ take self.now.progress.filled.rows tables.now.rows.now }
        ensures kept { (m : Meaning) (calls : List Call) → Stands S.Schema.meaning m calls self.now tables.now → IsKept m calls result }
    {
        self.progress.stored(tables)
    }

    /// The errors that are listed in the tables.
    pub fn errors<'t>(&self, tables: &'t Tables<'_>) -> &'t [BuildError]
        ensures errors { result.now ≡ take self.now.progress.filled.errors tables.now.errors.now }
        ensures listed { (m : Meaning) (calls : List Call) → Stands S.Schema.meaning m calls self.now tables.now → result.now ≡ error_rows 0 (listed_in m calls) }
    {
        in_use(tables.errors, self.progress.filled.errors)
    }

    /// The response keys of a path, the outermost first.
    pub fn response_keys<'t>(&self, tables: &'t Tables<'_>, path: SelectionPath) -> &'t [u32]
        ensures keys { result.now ≡ keys_between (take self.now.progress.filled.path_keys tables.now.path_keys.now) path.first_key path.end_key }
        ensures listed { (m : Meaning) (calls : List Call) → Stands S.Schema.meaning m calls self.now tables.now → ReadsPath m calls path result.now }
    {
        let keys = in_use(tables.path_keys, self.progress.filled.path_keys);
        keys_at(keys, path.first_key as usize, path.end_key as usize)
    }
}
