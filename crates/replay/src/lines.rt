// Errors, stored definitions and stored rows as lines of numbers.
use selection_rules::{BuildError, ErrorNumbers, StoredRow};
use std::fmt;
use stored_tables::StoredDefinition;

/// Numbers with a blank before each.
#[derive(Clone, Copy)]
pub struct Numbers<'a>(pub &'a [u32]);

impl fmt::Display for Numbers<'_> {
    fn fmt<W: fmt::Write>(&self, f: &mut fmt::Formatter<W>) -> fmt::Result {
        for number in self.0 {
            let number = *number;
            write!(f, " {number}")?;
        }
        Ok(())
    }
}

/// An error, with the response keys of its path.
#[derive(Clone, Copy)]
pub struct ErrorLine<'t> {
    pub error: BuildError,
    pub keys: &'t [u32],
}

impl fmt::Display for ErrorLine<'_> {
    fn fmt<W: fmt::Write>(&self, f: &mut fmt::Formatter<W>) -> fmt::Result {
        let ErrorNumbers {
            code,
            location,
            operation_type,
            kind,
            first_name,
            second_name,
            second_location,
            path,
        } = self.error.numbers();
        let members = [
            location,
            operation_type,
            kind,
            first_name,
            second_name,
            second_location,
        ];
        let members = Numbers(&members);
        let root = [path.root.kind, path.root.operation_type, path.root.name];
        let root = Numbers(&root);
        let keys = Numbers(self.keys);
        write!(f, "error {code}{members} |{root} |{keys}")
    }
}

/// The members of a stored definition, the last the type of its set.
#[derive(Clone, Copy)]
pub struct DefinitionLine(pub StoredDefinition);

impl fmt::Display for DefinitionLine {
    fn fmt<W: fmt::Write>(&self, f: &mut fmt::Formatter<W>) -> fmt::Result {
        let StoredDefinition { row, set_type } = self.0;
        let members = row.numbers();
        let members = Numbers(&members);
        write!(f, "{members} {set_type}")
    }
}

/// The members of a stored row, the last two the place of its definition and the type of its set.
#[derive(Clone, Copy)]
pub struct RowLine(pub StoredRow);

impl fmt::Display for RowLine {
    fn fmt<W: fmt::Write>(&self, f: &mut fmt::Formatter<W>) -> fmt::Result {
        let StoredRow {
            selection,
            place,
            set_type,
        } = self.0;
        let members = selection.numbers();
        let members = Numbers(&members);
        write!(f, "{members} {place} {set_type}")
    }
}
