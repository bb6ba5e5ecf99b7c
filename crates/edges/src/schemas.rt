// The rows of a schema, the slots that are lent to index them, and what becomes of both.
use crate::answer::{Answer, Fault};
use crate::line::{Line, members};
use std::alloc::{AllocError, Global};
use table_schema::{FieldRow, MakeFault, RootTypes, SchemaRows, TableSchema, TypeRow, index_rows};

/// The rows of a schema.
#[derive(Drop)]
pub struct SchemaText {
    types: Vec<TypeRow>,
    fields: Vec<FieldRow>,
    roots: RootTypes,
}

impl SchemaText {
    /// All rows, lent.
    pub fn rows(&self) -> SchemaRows<'_> {
        SchemaRows {
            types: self.types.as_slice(),
            fields: self.fields.as_slice(),
            roots: self.roots,
        }
    }
}

/// The rows of a schema, and the slots that are lent for its types and for its fields.
#[derive(Drop)]
pub struct SchemaDesk {
    pub text: SchemaText,
    type_slots: Vec<u32>,
    field_slots: Vec<u32>,
}

impl SchemaDesk {
    /// No rows and no slots.
    pub fn new(heap: Global) -> SchemaDesk {
        SchemaDesk {
            text: SchemaText {
                types: Vec::new(heap),
                fields: Vec::new(heap),
                roots: RootTypes::default(),
            },
            type_slots: Vec::new(heap),
            field_slots: Vec::new(heap),
        }
    }

    /// The answer to a line about the rows of a schema, or none where the line is about something else.
    pub fn answer(&mut self, heap: Global, line: &Line<'_>) -> Result<Option<Answer>, Fault> {
        match line.keyword {
            "type" => self.push_types(line)?,
            "field" => self.push_fields(line)?,
            "roots" => {
                let [query, mutation, subscription] = line.numbers::<3>()?;
                self.text.roots = RootTypes {
                    query,
                    mutation,
                    subscription,
                };
            }
            "no_types" => {
                self.text.types.clear();
                self.text.fields.clear();
                self.text.roots = RootTypes::default();
            }
            "slots" => self.lend_slots(heap, line)?,
            "index" => return Ok(Some(self.index(heap)?)),
            "make" => return Ok(Some(self.make(heap)?)),
            _ => return Ok(None),
        }
        Ok(Some(Answer::Done))
    }

    fn push_types(&mut self, line: &Line<'_>) -> Result<(), Fault> {
        for turn in 0..line.times {
            let [name, kind] = members(line.words, &["name", "kind"], [0, 2], turn)?;
            self.text.types.push(TypeRow { name, kind })?;
        }
        Ok(())
    }

    fn push_fields(&mut self, line: &Line<'_>) -> Result<(), Fault> {
        for turn in 0..line.times {
            let names = &["owner", "name", "inner"];
            let [owner, name, inner] = members(line.words, names, [0; 3], turn)?;
            self.text.fields.push(FieldRow { owner, name, inner })?;
        }
        Ok(())
    }

    // `TYPE_SLOTS FIELD_SLOTS USED_TYPE_SLOT USED_FIELD_SLOT`: of each so many, of which one is in use, counted from 1, or none.
    fn lend_slots(&mut self, heap: Global, line: &Line<'_>) -> Result<(), Fault> {
        let [types, fields, used_type, used_field] = line.numbers::<4>()?;
        self.type_slots = slots(heap, types, used_type)?;
        self.field_slots = slots(heap, fields, used_field)?;
        Ok(())
    }

    // Indexes the rows in the slots; a refusal is to leave these as they were.
    fn index(&mut self, heap: Global) -> Result<Answer, Fault> {
        let types_before = self.type_slots.as_slice().to_vec(heap)?;
        let fields_before = self.field_slots.as_slice().to_vec(heap)?;
        let indexed = index_rows(
            &self.text.rows(),
            self.type_slots.as_mut_slice(),
            self.field_slots.as_mut_slice(),
        );
        match indexed {
            Ok(()) => Ok(Answer::Done),
            Err(fault) => Answer::refused(
                heap,
                fault,
                self.type_slots == types_before && self.field_slots == fields_before,
            ),
        }
    }

    /// A schema of the rows, which are in order.
    pub fn made(&self, heap: Global) -> Result<TableSchema, Fault> {
        match TableSchema::new(heap, &self.text.rows()) {
            Ok(schema) => Ok(schema),
            Err(_) => Err(Fault::BadLine),
        }
    }

    // Makes a schema of the rows.
    fn make(&self, heap: Global) -> Result<Answer, Fault> {
        match TableSchema::new(heap, &self.text.rows()) {
            Ok(_) => Ok(Answer::Done),
            Err(MakeFault::Rows(fault)) => Answer::refused(heap, fault, true),
            Err(MakeFault::NoMemory) => Err(Fault::NoMemory(AllocError)),
        }
    }
}

// So many slots, one of which is in use, counted from 1, or none.
fn slots(heap: Global, count: u32, used: u32) -> Result<Vec<u32>, Fault> {
    let mut all = vec![in heap; 0u32; count as usize]?;
    if let Some(slot) = all.get_mut((used as usize).wrapping_sub(1)) {
        *slot = 1;
    }
    Ok(all)
}
