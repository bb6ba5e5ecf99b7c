// What a builder has listed and stored: the errors, and the outlines with the types.
use crate::answers::Place;
use crate::errors::Listed;
use crate::printer::Printer;
use crate::shown::Shown;
use builder::ExecutableDocumentBuilder;
use document::{MAX_DEPTH, SelectionKind};
use schema::{Name, Schema};
use selection_rules::StoredRow;
use std::alloc::AllocError;
use std::{fmt, iter};
use stored_tables::{StoredDefinition, StoredDocument, Tables};
use text_input::Counted;

/// The type of a set of selections, as `of type Meter`.
#[derive(Clone, Copy)]
struct SetType(Name);

impl fmt::Display for Shown<'_, '_, SetType> {
    fn fmt<W: fmt::Write>(&self, f: &mut fmt::Formatter<W>) -> fmt::Result {
        match self.value {
            SetType(0) => write!(f, "of no type"),
            SetType(name) => {
                let name = self.names.show(name);
                write!(f, "of type {name}")
            }
        }
    }
}

/// A stored definition, as `query A: of type Query`.
impl fmt::Display for Shown<'_, '_, StoredDefinition> {
    fn fmt<W: fmt::Write>(&self, f: &mut fmt::Formatter<W>) -> fmt::Result {
        let names = self.names;
        let StoredDefinition { row, set_type } = self.value;
        let row = Shown { names, value: row };
        let set_type = Shown {
            names,
            value: SetType(set_type),
        };
        write!(f, "{row}: {set_type}")
    }
}

/// A stored selection, as `meter: of type Meter, defined at place 1`. Only a field has a place.
impl fmt::Display for Shown<'_, '_, StoredRow> {
    fn fmt<W: fmt::Write>(&self, f: &mut fmt::Formatter<W>) -> fmt::Result {
        let names = self.names;
        let StoredRow {
            selection,
            place,
            set_type,
        } = self.value;
        let row = Shown {
            names,
            value: selection,
        };
        let set_type = Shown {
            names,
            value: SetType(set_type),
        };
        write!(f, "{row}: {set_type}")?;
        match selection.selection_kind() {
            Some(SelectionKind::Field) => {
                let place = Place(place);
                write!(f, ", {place}")
            }
            _ => Ok(()),
        }
    }
}

/// A row of a stored set, and its place.
#[derive(Clone, Copy)]
struct StoredStep {
    place: u32,
    row: StoredRow,
}

/// The row at this place of a set that ends before the other place, if the set has one there.
fn stored_at(rows: &[StoredRow], place: u32, end: u32) -> Option<StoredStep> {
    if place >= end {
        return None;
    }
    let row = rows.get(place as usize)?;
    Some(StoredStep { place, row: *row })
}

impl<'n, 'a> Printer<'n, 'a> {
    /// Adds what the builder has listed and stored.
    pub fn built<S: Schema>(
        &mut self,
        builder: &ExecutableDocumentBuilder<'_, S>,
        tables: &Tables<'_>,
    ) -> Result<(), AllocError> {
        let stored = builder.stored(tables);
        let errors = builder.errors(tables);
        self.counts(&stored, errors.len())?;
        for error in errors {
            let keys = match error.path() {
                Some(path) => builder.response_keys(tables, path),
                None => &[],
            };
            let listed = Shown {
                names: self.names,
                value: Listed {
                    error: *error,
                    keys,
                },
            };
            self.line(format_args!("  {listed}"))?;
        }
        self.definitions(&stored)
    }

    /// Adds how much is listed and stored.
    fn counts(&mut self, stored: &StoredDocument<'_>, errors: usize) -> Result<(), AllocError> {
        let errors = Counted(errors as u64, "error");
        let anonymous = Counted(u64::from(stored.anonymous.is_some()), "anonymous operation");
        let named = Counted(stored.operations.len() as u64, "named operation");
        let fragments = Counted(stored.fragments.len() as u64, "fragment");
        let rows = Counted(stored.rows.len() as u64, "row");
        self.line(format_args!("Built: {errors}, {anonymous}, {named}, {fragments}, {rows}"))
    }

    /// Adds the stored definitions: the anonymous operation, the named ones, and the fragments.
    fn definitions(&mut self, stored: &StoredDocument<'_>) -> Result<(), AllocError> {
        if let Some(anonymous) = stored.anonymous {
            self.definition(&anonymous, stored.rows)?;
        }
        for operation in stored.operations {
            self.definition(operation, stored.rows)?;
        }
        for fragment in stored.fragments {
            self.definition(fragment, stored.rows)?;
        }
        Ok(())
    }

    /// Adds a stored definition with its selections.
    fn definition(
        &mut self,
        definition: &StoredDefinition,
        rows: &[StoredRow],
    ) -> Result<(), AllocError> {
        let shown = Shown {
            names: self.names,
            value: *definition,
        };
        self.line(format_args!("  {shown}"))?;
        self.stored_set(rows, definition.row.first, definition.row.end, 0)
    }

    /// Adds the stored selections from a place up to an end, each with those beneath it. A stored definition has none
    /// beneath as many as MAX_DEPTH.
    fn stored_set(
        &mut self,
        rows: &[StoredRow],
        first: u32,
        end: u32,
        depth: u32,
    ) -> Result<(), AllocError> {
        if depth >= MAX_DEPTH {
            return Ok(());
        }
        let indent = 2 * (depth as usize + 2);
        let steps = iter::successors(stored_at(rows, first, end), |step| {
            stored_at(rows, step.row.selection.end, end)
        });
        for step in steps.take(rows.len()) {
            let row = Shown {
                names: self.names,
                value: step.row,
            };
            self.line(format_args!("{:indent$}{row}", ""))?;
            let beneath = step.place.saturating_add(1);
            self.stored_set(rows, beneath, step.row.selection.end, depth + 1)?;
        }
        Ok(())
    }
}
