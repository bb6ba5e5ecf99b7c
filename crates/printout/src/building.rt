// Adds the documents of a schema to builders over it, finishes what is built, and compares it.
use crate::printer::Printer;
use crate::refusals::Refused;
use crate::sections::{BuilderText, Section};
use builder::{BuilderFault, ExecutableDocument, ExecutableDocumentBuilder};
use executable::compare;
use owned_tables::{OwnedDocument, OwnedTables, TableLengths};
use schema::Schema;
use std::alloc::AllocError;
use stored_tables::Tables;
use text_input::DocumentText;

impl<'n, 'a> Printer<'n, 'a> {
    /// Adds what is built of the documents, whichever schema it is: by the first builder, and by each other one with
    /// whether that comes to the same.
    pub fn building<S: Schema>(&mut self, schema: &S, section: &Section) -> Result<(), AllocError> {
        if section.has_no_documents() {
            return Ok(());
        }
        let mut first = self.builder(schema, &section.first)?;
        for text in section.others.iter() {
            self.line("Another builder:")?;
            let mut other = self.builder(schema, text)?;
            if let (Some(first), Some(other)) = (&mut first, &mut other) {
                self.comparison(first, other)?;
            }
        }
        Ok(())
    }

    /// Adds each document and whether a new builder takes it, and in the end what is built of them. There is no finished
    /// document where the tables of the builder are refused.
    fn builder<'s, S: Schema>(
        &mut self,
        schema: &'s S,
        text: &BuilderText,
    ) -> Result<Option<OwnedDocument<'s, S>>, AllocError> {
        let mut owned = OwnedTables::new(self.heap, TableLengths::FULL)?;
        let mut tables = owned.lend();
        let builder = match ExecutableDocumentBuilder::new(schema, &mut tables) {
            Ok(builder) => builder,
            Err(fault) => {
                self.line(Refused::Builder(fault))?;
                return Ok(None);
            }
        };
        let document = self.finished(builder, &mut tables, text.complete_documents())?;
        Ok(Some(OwnedDocument {
            tables: owned,
            document,
        }))
    }

    /// Adds the documents, and in the end what is built of them and what its operations reach.
    fn finished<'s, S: Schema>(
        &mut self,
        mut builder: ExecutableDocumentBuilder<'s, S>,
        tables: &mut Tables<'_>,
        documents: &[DocumentText],
    ) -> Result<ExecutableDocument<'s, S>, AllocError> {
        for (number, text) in (1..=u64::MAX).zip(documents.iter()) {
            self.document(number, text)?;
            self.adding(&mut builder, tables, text)?;
        }
        self.built(&builder, tables)?;
        let document = builder.build();
        self.walks(&document, tables)?;
        Ok(document)
    }

    /// Adds that the builder takes the document, or why it does not. Of one that is none this stands there already, in
    /// place of the outline.
    fn adding<S: Schema>(
        &mut self,
        builder: &mut ExecutableDocumentBuilder<'_, S>,
        tables: &mut Tables<'_>,
        text: &DocumentText,
    ) -> Result<(), AllocError> {
        let is_strict = text.head.strict;
        match builder.add_ast_document(tables, &text.handed(), is_strict) {
            Ok(()) if is_strict => self.line("It is added strictly."),
            Ok(()) => self.line("It is added."),
            Err(BuilderFault::Document(_)) => Ok(()),
            Err(fault) => self.line(Refused::Builder(fault)),
        }
    }

    /// Adds whether the finished document is the same as the first.
    fn comparison<S: Schema>(
        &mut self,
        first: &mut OwnedDocument<'_, S>,
        other: &mut OwnedDocument<'_, S>,
    ) -> Result<(), AllocError> {
        let compared = compare(
            &first.document,
            &first.tables.lend(),
            &other.document,
            &other.tables.lend(),
        );
        match compared {
            Ok(true) => self.line("The finished document is the same as the first one."),
            Ok(false) => self.line("The finished document is not the same as the first one."),
            Err(fault) => self.line(Refused::Finished(fault)),
        }
    }
}
