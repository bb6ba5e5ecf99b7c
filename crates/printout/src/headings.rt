// What was read of a schema, in words.
use crate::answers::{Answered, OfKind};
use crate::printer::Printer;
use crate::shown::Shown;
use refusal::UnknownNumber;
use schema::{Answer, OperationType, Question, TypeKind};
use std::alloc::AllocError;
use std::fmt;
use table_schema::{FieldRow, TypeRow};
use text_input::{Counted, TableText};

impl<'n, 'a> Printer<'n, 'a> {
    /// Adds what was read of the table with this number: how much it is, and its types, its fields and its roots, each on a
    /// line of its own.
    pub fn heading(&mut self, number: u64, table: &TableText) -> Result<(), AllocError> {
        let types = Counted(u64::from(table.head.types), "type");
        let fields = Counted(u64::from(table.head.fields), "field");
        self.line(format_args!(
            "Schema {number}: a table of {types} and {fields}, with the meta-fields"
        ))?;
        self.types(table.types.as_slice())?;
        self.fields(table.fields.as_slice())?;
        self.root(table, OperationType::Query)?;
        self.root(table, OperationType::Mutation)?;
        self.root(table, OperationType::Subscription)
    }

    fn types(&mut self, rows: &[TypeRow]) -> Result<(), AllocError> {
        for row in rows {
            let row = Shown {
                names: self.names,
                value: *row,
            };
            self.line(format_args!("  {row}"))?;
        }
        Ok(())
    }

    fn fields(&mut self, rows: &[FieldRow]) -> Result<(), AllocError> {
        for row in rows {
            let row = Shown {
                names: self.names,
                value: *row,
            };
            self.line(format_args!("  {row}"))?;
        }
        Ok(())
    }

    fn root(&mut self, table: &TableText, operation: OperationType) -> Result<(), AllocError> {
        let root = Answered {
            names: self.names,
            question: Question::Root(operation),
            answer: Answer::Root(table.head.roots.of(operation)),
        };
        self.line(format_args!("  {root}"))
    }
}

impl fmt::Display for Shown<'_, '_, TypeRow> {
    fn fmt<W: fmt::Write>(&self, f: &mut fmt::Formatter<W>) -> fmt::Result {
        let name = self.names.show(self.value.name);
        match TypeKind::try_from(self.value.kind) {
            Ok(kind) => {
                let kind = OfKind(kind);
                write!(f, "type {name}: {kind}")
            }
            Err(UnknownNumber(kind)) => write!(f, "type {name}: of the unknown kind {kind}"),
        }
    }
}

impl fmt::Display for Shown<'_, '_, FieldRow> {
    fn fmt<W: fmt::Write>(&self, f: &mut fmt::Formatter<W>) -> fmt::Result {
        let owner = self.names.show(self.value.owner);
        let name = self.names.show(self.value.name);
        let inner = self.names.show(self.value.inner);
        write!(f, "field {owner}.{name}: of type {inner}")
    }
}
