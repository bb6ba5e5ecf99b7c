// The walks over a finished document in words: what each operation reaches, and whether it is introspection only.
use crate::printer::Printer;
use crate::refusals::Refused;
use crate::shown::Shown;
use builder::ExecutableDocument;
use document::DefinitionRow;
use executable::{ExecutableFault, all_fields, is_introspection};
use owned_tables::WalkTables;
use schema::Schema;
use selection_rules::{StoredRow, response_key};
use std::alloc::AllocError;
use std::fmt;
use stored_tables::Tables;
use text_input::Counted;

/// What an operation reaches: the places of the fields among the stored rows, in the order of the walk.
#[derive(Clone, Copy)]
struct Reached<'t> {
    operation: DefinitionRow,
    rows: &'t [StoredRow],
    places: &'t [u32],
    introspection: bool,
}

/// What is reached, as `query A reaches 3 fields: meter, id, unit`.
impl fmt::Display for Shown<'_, '_, Reached<'_>> {
    fn fmt<W: fmt::Write>(&self, f: &mut fmt::Formatter<W>) -> fmt::Result {
        let names = self.names;
        let Reached {
            operation,
            rows,
            places,
            introspection,
        } = self.value;
        let operation = Shown {
            names,
            value: operation,
        };
        let count = Counted(places.len() as u64, "field");
        write!(f, "{operation} reaches {count}")?;
        for (number, place) in places.iter().enumerate() {
            let Some(row) = rows.get(*place as usize) else {
                break;
            };
            let before = if number == 0 { ": " } else { ", " };
            let key = names.show(response_key(&row.selection));
            write!(f, "{before}{key}")?;
        }
        if introspection {
            write!(f, "; introspection only")?;
        }
        Ok(())
    }
}

/// What both walks of an operation tell: how many fields are listed, and whether it is introspection only.
#[derive(Clone, Copy)]
struct Walked {
    fields: usize,
    introspection: bool,
}

/// Both walks of the operation at this place.
fn walk<S: Schema>(
    document: &ExecutableDocument<'_, S>,
    tables: &Tables<'_>,
    place: usize,
    lent: &mut WalkTables,
) -> Result<Walked, ExecutableFault> {
    let (stack, marks) = (lent.stack.as_mut_slice(), lent.marks.as_mut_slice());
    let introspection = is_introspection(document, tables, place, stack, marks)?;
    let list = Some(lent.list.as_mut_slice());
    Ok(Walked {
        fields: all_fields(document, tables, place, stack, marks, list)?,
        introspection,
    })
}

impl<'n, 'a> Printer<'n, 'a> {
    /// Adds what each operation of the finished document reaches: the anonymous one, and the named ones.
    pub fn walks<S: Schema>(
        &mut self,
        document: &ExecutableDocument<'_, S>,
        tables: &Tables<'_>,
    ) -> Result<(), AllocError> {
        let Some(indexed) = document.stored(tables) else {
            return self.line(Refused::Finished(ExecutableFault::TableTooShort));
        };
        let stored = indexed.stored;
        let mut lent = WalkTables::new(self.heap)?;
        if let Some(anonymous) = stored.anonymous {
            let walked = walk(document, tables, 0, &mut lent);
            self.walked(anonymous.row, walked, stored.rows, &lent)?;
        }
        for (place, operation) in (1..=usize::MAX).zip(stored.operations.iter()) {
            let walked = walk(document, tables, place, &mut lent);
            self.walked(operation.row, walked, stored.rows, &lent)?;
        }
        Ok(())
    }

    /// Adds what the operation reaches, as the list that was lent to the walk tells, or why it was not walked.
    fn walked(
        &mut self,
        operation: DefinitionRow,
        walked: Result<Walked, ExecutableFault>,
        rows: &[StoredRow],
        lent: &WalkTables,
    ) -> Result<(), AllocError> {
        match walked {
            Ok(
                Walked {
                    fields,
                    introspection,
                },
            ) => {
                let reached = Shown {
                    names: self.names,
                    value: Reached {
                        operation,
                        rows,
                        places: lent.list.as_slice().get(..fields).unwrap_or(&[]),
                        introspection,
                    },
                };
                self.line(format_args!("  {reached}"))
            }
            Err(fault) => self.line(Refused::Finished(fault)),
        }
    }
}
