// Gathers the lines of a text into sections: each has a schema, the questions to it, and documents for its builders.
use schema::Question;
use std::alloc::{AllocError, Global};
use text_input::{
    DocumentText, Line, LineReader, NameTable, ReadFault, SchemaChoice, TableHead, TableText,
    TextError,
};

/// The documents for one builder.
#[derive(Drop)]
pub struct BuilderText {
    documents: Vec<DocumentText>,
}

impl BuilderText {
    /// No documents yet.
    fn new(heap: Global) -> BuilderText {
        BuilderText {
            documents: Vec::new(heap),
        }
    }

    /// The documents whose rows were all read: only of the last one can some be missing.
    pub fn complete_documents(&self) -> &[DocumentText] {
        match self.documents.as_slice().split_last() {
            Some((last, before)) if !last.is_complete() => before,
            _ => self.documents.as_slice(),
        }
    }
}

/// A schema, the questions to it, and the documents for a builder over it, and for others.
#[derive(Drop)]
pub struct Section {
    pub schema: SchemaChoice<TableText>,
    pub questions: Vec<Question>,
    pub first: BuilderText,
    pub others: Vec<BuilderText>,
}

impl Section {
    /// A section with no rows, questions or documents yet.
    fn new(heap: Global, head: SchemaChoice<TableHead>) -> Section {
        let schema = match head {
            SchemaChoice::Open => SchemaChoice::Open,
            SchemaChoice::Table(head) => SchemaChoice::Table(TableText {
                head,
                types: Vec::new(heap),
                fields: Vec::new(heap),
            }),
        };
        Section {
            schema,
            questions: Vec::new(heap),
            first: BuilderText::new(heap),
            others: Vec::new(heap),
        }
    }

    /// Whether all rows of the schema were read.
    pub fn is_complete(&self) -> bool {
        match &self.schema {
            SchemaChoice::Open => true,
            SchemaChoice::Table(table) => table.is_complete(),
        }
    }

    /// Whether there are no documents for the first builder, and no others.
    pub fn has_no_documents(&self) -> bool {
        self.others.as_slice().is_empty() && self.first.complete_documents().is_empty()
    }

    /// The documents for the builder that came last.
    fn documents(&mut self) -> &mut Vec<DocumentText> {
        match self.others.last_mut() {
            Some(other) => &mut other.documents,
            None => &mut self.first.documents,
        }
    }

    /// The table that is the schema, if it is one.
    fn table(&mut self) -> Option<&mut TableText> {
        match &mut self.schema {
            SchemaChoice::Open => None,
            SchemaChoice::Table(table) => Some(table),
        }
    }

    /// Adds what the line says: a row to the schema or to the last document, a question, a document, or a builder.
    fn add(&mut self, heap: Global, line: Line<'_>) -> Result<(), AllocError> {
        match line {
            Line::Type(row) => {
                if let Some(table) = self.table() {
                    table.types.push(row)?;
                }
            }
            Line::Field(row) => {
                if let Some(table) = self.table() {
                    table.fields.push(row)?;
                }
            }
            Line::Ask(question) => self.questions.push(question)?,
            Line::Document(head) => self.documents().push(DocumentText {
                head,
                definitions: Vec::new(heap),
                rows: Vec::new(heap),
            })?,
            Line::Definition(row) => {
                if let Some(document) = self.documents().last_mut() {
                    document.definitions.push(row)?;
                }
            }
            Line::Row(row) => {
                if let Some(document) = self.documents().last_mut() {
                    document.rows.push(row)?;
                }
            }
            Line::Other => self.others.push(BuilderText::new(heap))?,
            Line::Schema(_) | Line::Name(_, _) | Line::Blank => {}
        }
        Ok(())
    }
}

/// What was read of a text: its sections, the names that it gives, and whether it was read to its end.
#[derive(Drop)]
pub struct Reading<'a> {
    reader: LineReader<'a>,
    pub sections: Vec<Section>,
    pub outcome: Result<(), TextError<'a>>,
}

impl<'a> Reading<'a> {
    /// Nothing was read yet.
    pub fn new(heap: Global, reader: LineReader<'a>) -> Reading<'a> {
        Reading {
            reader,
            sections: Vec::new(heap),
            outcome: Ok(()),
        }
    }

    /// The names that were given.
    pub fn names(&self) -> &NameTable<'a> {
        self.reader.names()
    }

    /// Reads the text up to its end or its first error.
    pub fn read(&mut self, heap: Global, text: &'a str) -> Result<(), AllocError> {
        self.outcome = match self.read_lines(heap, text) {
            Ok(()) => Ok(()),
            Err(ReadFault::Text(error)) => Err(error),
            Err(ReadFault::NoMemory(error)) => return Err(error),
        };
        Ok(())
    }

    /// Reads the text up to its end.
    fn read_lines(&mut self, heap: Global, text: &'a str) -> Result<(), ReadFault<'a>> {
        for text in text.lines() {
            let line = self.reader.read(text)?;
            self.add(heap, line)?;
        }
        self.reader.end()?;
        Ok(())
    }

    /// Adds what the line says to the last section, or begins a new one.
    fn add(&mut self, heap: Global, line: Line<'_>) -> Result<(), AllocError> {
        if let Line::Schema(head) = line {
            self.sections.push(Section::new(heap, head))?;
        } else if let Some(section) = self.sections.last_mut() {
            section.add(heap, line)?;
        }
        Ok(())
    }
}
