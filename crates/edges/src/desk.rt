// A builder together with the tables that are lent to it. Whenever a call is refused, all that stands in the tables, and all
// that the builder answers, is looked at before and after.
use crate::answer::{Answer, Fault};
use crate::documents::DocumentText;
use crate::line::{Line, number, number_of};
use crate::members::{definition_numbers, error_numbers, row_numbers};
use builder::{ExecutableDocument, ExecutableDocumentBuilder};
use document::DefinitionRow;
use owned_tables::{OwnedTables, TableLengths, WalkTables};
use schema::Schema;
use selection_rules::{BuildError, ExecutableDefinitionName, SelectionPath, StoredRow};
use std::alloc::{AllocError, Global};
use stored_tables::{StoredDefinition, Tables};

/// What stands in places that no call has written.
pub const UNWRITTEN: u32 = 77;

/// A builder, or the document that it has finished, with the tables of both.
#[derive(Drop)]
pub struct Desk<'s, S> {
    pub builder: Option<ExecutableDocumentBuilder<'s, S>>,
    pub document: Option<ExecutableDocument<'s, S>>,
    pub owned: OwnedTables,
    pub walk: WalkTables,
}

impl<'s, S: Schema> Desk<'s, S> {
    /// Tables that no builder has yet.
    pub fn new(heap: Global) -> Result<Desk<'s, S>, Fault> {
        Ok(Desk {
            builder: None,
            document: None,
            owned: OwnedTables::new(heap, TableLengths::FULL).map_err(AllocError::from)?,
            walk: WalkTables::new(heap).map_err(AllocError::from)?,
        })
    }

    /// `OPERATIONS FRAGMENTS ROWS ERRORS PATH_KEYS OPERATION_SLOTS FRAGMENT_SLOTS`: a new builder, with tables of these
    /// lengths. Where it is refused, the tables are to be as they were.
    pub fn start(&mut self, heap: Global, schema: &'s S, line: &Line<'_>) -> Result<Answer, Fault> {
        let lengths = lengths_of(line)?;
        self.owned = OwnedTables::new(heap, lengths).map_err(AllocError::from)?;
        fill(&mut self.owned.lend());
        self.document = None;
        let before = numbers(heap, &self.owned.lend())?;
        match ExecutableDocumentBuilder::new(schema, &mut self.owned.lend()) {
            Ok(builder) => {
                self.builder = Some(builder);
                Ok(Answer::Done)
            }
            Err(fault) => {
                let after = numbers(heap, &self.owned.lend())?;
                Answer::refused(heap, fault, before == after)
            }
        }
    }

    /// Adds the document that is handed over, strictly or not.
    pub fn add(
        &mut self,
        heap: Global,
        document: &DocumentText,
        strict: bool,
    ) -> Result<Answer, Fault> {
        let builder = self.builder.as_mut().ok_or(Fault::BadLine)?;
        let before = told(heap, builder, &self.owned.lend())?;
        let tables = &mut self.owned.lend();
        match builder.add_ast_document(tables, &document.handed(), strict) {
            Ok(()) => Ok(Answer::Done),
            Err(fault) => {
                let after = told(heap, builder, tables)?;
                Answer::refused(heap, fault, before == after)
            }
        }
    }

    /// How many errors, anonymous operations, named operations, fragments and rows there are.
    pub fn counts(&mut self, heap: Global) -> Result<Answer, Fault> {
        let builder = self.builder.as_ref().ok_or(Fault::BadLine)?;
        let tables = self.owned.lend();
        Answer::numbers(heap, &counts(builder, &tables))
    }

    /// `FIRST END`: the response keys of a path.
    pub fn keys(&mut self, heap: Global, line: &Line<'_>) -> Result<Answer, Fault> {
        let [first_key, end_key] = line.numbers::<2>()?;
        let builder = self.builder.as_ref().ok_or(Fault::BadLine)?;
        let path = SelectionPath {
            root: ExecutableDefinitionName::Fragment(1),
            first_key,
            end_key,
        };
        Answer::numbers(heap, builder.response_keys(&self.owned.lend(), path))
    }

    /// The anonymous operation, if one is stored.
    pub fn anonymous(&mut self, heap: Global) -> Result<Answer, Fault> {
        let builder = self.builder.as_ref().ok_or(Fault::BadLine)?;
        match builder.stored(&self.owned.lend()).anonymous {
            Some(definition) => Answer::numbers(heap, &definition_numbers(&definition)),
            None => Ok(Answer::Word("none")),
        }
    }

    /// Finishes the document.
    pub fn finish(&mut self) -> Result<Answer, Fault> {
        let builder = self.builder.take().ok_or(Fault::BadLine)?;
        self.document = Some(builder.build());
        Ok(Answer::Done)
    }
}

fn lengths_of(line: &Line<'_>) -> Result<TableLengths, Fault> {
    let [
        operations,
        fragments,
        rows,
        errors,
        path_keys,
        operation_slots,
        fragment_slots,
    ] = line.numbers::<7>()?;
    Ok(TableLengths {
        operations: operations as usize,
        operation_slots: operation_slots as usize,
        fragments: fragments as usize,
        fragment_slots: fragment_slots as usize,
        rows: rows as usize,
        errors: errors as usize,
        path_keys: path_keys as usize,
    })
}

fn counts<S: Schema>(builder: &ExecutableDocumentBuilder<'_, S>, tables: &Tables<'_>) -> [u32; 5] {
    let stored = builder.stored(tables);
    [
        number_of(builder.errors(tables).len()),
        u32::from(stored.anonymous.is_some()),
        number_of(stored.operations.len()),
        number_of(stored.fragments.len()),
        number_of(stored.rows.len()),
    ]
}

// All that stands in the tables, and all that the builder answers.
fn told<S: Schema>(
    heap: Global,
    builder: &ExecutableDocumentBuilder<'_, S>,
    tables: &Tables<'_>,
) -> Result<Vec<u32>, AllocError> {
    let mut all = numbers(heap, tables)?;
    all.extend_from_slice(&counts(builder, tables))?;
    if let Some(definition) = builder.stored(tables).anonymous {
        all.extend_from_slice(&definition_numbers(&definition))?;
    }
    Ok(all)
}

// All that stands in the tables.
fn numbers(heap: Global, tables: &Tables<'_>) -> Result<Vec<u32>, AllocError> {
    let mut all = tables.path_keys.to_vec(heap)?;
    all.extend_from_slice(tables.operation_slots)?;
    all.extend_from_slice(tables.fragment_slots)?;
    for definition in tables.operations.iter().chain(tables.fragments.iter()) {
        all.extend_from_slice(&definition_numbers(definition))?;
    }
    for row in tables.rows.iter() {
        all.extend_from_slice(&row_numbers(row))?;
    }
    for error in tables.errors.iter() {
        all.extend_from_slice(&error_numbers(*error))?;
    }
    Ok(all)
}

// Fills the tables with what no call writes.
fn fill(tables: &mut Tables<'_>) {
    let definition = StoredDefinition::new(
        &DefinitionRow::default(),
        UNWRITTEN,
        UNWRITTEN,
        UNWRITTEN,
    );
    tables.operations.fill(definition);
    tables.operation_slots.fill(UNWRITTEN);
    tables.fragments.fill(definition);
    tables.fragment_slots.fill(UNWRITTEN);
    tables.rows.fill(StoredRow {
        place: UNWRITTEN,
        ..Default::default()
    });
    tables.errors.fill(BuildError::AmbiguousAnonymousOperation {
        location: UNWRITTEN,
    });
    tables.path_keys.fill(UNWRITTEN);
}
