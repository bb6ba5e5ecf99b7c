// The whole printout of a text, section by section.
use crate::answers::Answered;
use crate::printer::Printer;
use crate::refusals::Refused;
use crate::sections::{Reading, Section};
use schema::{OpenSchema, Question, Schema, ask};
use std::alloc::{AllocError, Global};
use table_schema::{MakeFault, SchemaFault, schema_with_meta_fields};
use text_input::{Counted, LineReader, SchemaChoice, TableText};

/// The printout of the text: each schema with the answers to its questions, its documents and what is built of them, and
/// at the end what is wrong with the text, if anything is. Where something is, the rest of the text is not read.
pub fn printout(heap: Global, input: &str) -> Result<String, AllocError> {
    let mut reading = Reading::new(heap, LineReader::new(heap)?);
    reading.read(heap, input)?;
    let mut printer = Printer::new(heap, reading.names());
    for (number, section) in (1..=u64::MAX).zip(reading.sections.iter()) {
        if section.is_complete() {
            printer.section(number, section)?;
        }
    }
    printer.ending(&reading)?;
    Ok(printer.into_text())
}

impl<'n, 'a> Printer<'n, 'a> {
    /// Adds what is wrong with the text, or that there is nothing in it.
    fn ending(&mut self, reading: &Reading<'_>) -> Result<(), AllocError> {
        match reading.outcome {
            Err(error) => self.line(format_args!("The rest is not read: {error}")),
            Ok(()) if reading.sections.is_empty() => self.line("There is no schema in the text."),
            Ok(()) => Ok(()),
        }
    }

    /// Adds a section: the heading, and what comes of the schema.
    fn section(&mut self, number: u64, section: &Section) -> Result<(), AllocError> {
        match &section.schema {
            SchemaChoice::Open => {
                self.line(format_args!("Schema {number}: the open schema"))?;
                self.accepted(&OpenSchema, section)?;
            }
            SchemaChoice::Table(table) => {
                self.heading(number, table)?;
                self.table(table, section)?;
            }
        }
        self.line("")
    }

    /// Adds what comes of a table, or why its rows are refused.
    fn table(&mut self, table: &TableText, section: &Section) -> Result<(), AllocError> {
        match schema_with_meta_fields(self.heap, &table.rows()) {
            Ok(schema) => self.accepted(&schema, section),
            Err(MakeFault::Rows(fault)) => {
                self.refusal(fault, section.questions.len())?;
                self.not_built(section)
            }
            Err(MakeFault::NoMemory) => Err(AllocError),
        }
    }

    /// Adds what a schema answers, and the documents as they are built over it, whichever schema it is.
    fn accepted<S: Schema>(&mut self, schema: &S, section: &Section) -> Result<(), AllocError> {
        self.answers(schema, section.questions.as_slice())?;
        self.building(schema, section)
    }

    /// Adds each question with what the schema answers to it.
    fn answers<S: Schema>(&mut self, schema: &S, questions: &[Question]) -> Result<(), AllocError> {
        for question in questions {
            self.line(Answered {
                names: self.names,
                question: *question,
                answer: ask(schema, *question),
            })?;
        }
        Ok(())
    }

    /// Adds why the rows are refused, and how many questions are therefore passed over.
    fn refusal(&mut self, fault: SchemaFault, questions: usize) -> Result<(), AllocError> {
        self.line(Refused::Schema(fault))?;
        if questions == 0 {
            return Ok(());
        }
        let questions = Counted(questions as u64, "question");
        self.line(format_args!("Passed over: {questions} to it."))
    }
}
