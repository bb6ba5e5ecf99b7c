// Documents in words: how many rows were read, and the outline of the selections or why they are refused.
use crate::printer::Printer;
use crate::refusals::Refused;
use crate::sections::{BuilderText, Section};
use crate::shown::Shown;
use document::{Document, MAX_DEPTH, Needs, SelectionSet};
use std::alloc::AllocError;
use std::iter;
use text_input::{Counted, DocumentText};

impl<'n, 'a> Printer<'n, 'a> {
    /// Adds the documents, and that they are not built, if there are any.
    pub fn not_built(&mut self, section: &Section) -> Result<(), AllocError> {
        if section.has_no_documents() {
            return Ok(());
        }
        self.outlines(&section.first)?;
        for text in section.others.iter() {
            self.line("Another builder:")?;
            self.outlines(text)?;
        }
        self.line("Nothing is built, since the schema is refused.")
    }

    /// Adds the documents for a builder that there is not.
    fn outlines(&mut self, text: &BuilderText) -> Result<(), AllocError> {
        for (number, text) in (1..=u64::MAX).zip(text.complete_documents().iter()) {
            self.document(number, text)?;
        }
        Ok(())
    }

    /// Adds a document: how many rows were read, and what they are.
    pub fn document(&mut self, number: u64, text: &DocumentText) -> Result<(), AllocError> {
        let definitions = Counted(u64::from(text.head.definitions), "definition");
        let rows = Counted(u64::from(text.head.rows), "row");
        self.line(format_args!("Document no. {number}: {definitions}, {rows}"))?;
        self.outline(&text.handed())
    }

    /// Adds the outline of the document and what building it can need, or why it is refused.
    fn outline(&mut self, document: &Document<'_>) -> Result<(), AllocError> {
        match document.needs() {
            Err(fault) => self.line(Refused::Document(fault)),
            Ok(needs) => {
                for (place, row) in document.definitions.iter().enumerate() {
                    self.line(Shown {
                        names: self.names,
                        value: *row,
                    })?;
                    self.selections(document, document.selections(place), 0)?;
                }
                self.needs(needs)
            }
        }
    }

    /// Adds the selections of a set that stands beneath so many others, each with those beneath it. A document has none
    /// beneath as many as MAX_DEPTH.
    fn selections(
        &mut self,
        document: &Document<'_>,
        set: SelectionSet,
        depth: u32,
    ) -> Result<(), AllocError> {
        if depth >= MAX_DEPTH {
            return Ok(());
        }
        let indent = 2 * (depth as usize + 1);
        let steps = iter::successors(document.next_selection(set), |step| {
            document.next_selection(step.after)
        });
        for step in steps.take(document.rows.len()) {
            let row = Shown {
                names: self.names,
                value: step.row,
            };
            self.line(format_args!("{:indent$}{row}", ""))?;
            self.selections(document, step.beneath, depth + 1)?;
        }
        Ok(())
    }

    /// Adds how many places building the document can need.
    fn needs(&mut self, needs: Needs) -> Result<(), AllocError> {
        let operations = Counted(needs.operations as u64, "operation");
        let fragments = Counted(needs.fragments as u64, "fragment");
        let rows = Counted(needs.rows as u64, "row");
        let errors = Counted(needs.errors as u64, "error");
        let keys = Counted(needs.path_keys as u64, "path key");
        self.line(format_args!("Needs: {operations}, {fragments}, {rows}, {errors}, {keys}"))
    }
}
