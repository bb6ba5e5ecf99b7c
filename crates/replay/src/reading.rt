// How each part of a test case is read from its numbers.
use crate::parts::{Case, DocumentPart, SchemaPart, Side, TablePart};
use crate::words::Words;
use document::{DefinitionRow, SelectionRow};
use owned_tables::TableLengths;
use std::alloc::{AllocError, Global};
use table_schema::{FieldRow, RootTypes, TypeRow};
use thiserror::Error;

/// Why a part was not read.
#[derive(Clone, Copy, Debug, Error)]
pub enum ReadFault {
    #[error("bad text")]
    BadText,
    #[error("no memory")]
    NoMemory(#[from(alloc)] AllocError),
}

/// What is read from a text.
pub trait Part: Drop {
    fn read(heap: Global, words: &mut Words<'_>) -> Result<Self, ReadFault>;
}

// The next numbers, which have to be there.
fn numbers<const N: usize>(words: &mut Words<'_>) -> Result<[u32; N], ReadFault> {
    words.numbers::<N>().ok_or(ReadFault::BadText)
}

// So many parts, one after the other.
fn read_all<P: Part>(heap: Global, words: &mut Words<'_>, count: u32) -> Result<Vec<P>, ReadFault> {
    (0..count).map(|_| P::read(heap, words)).try_collect(heap)
}

impl Part for TypeRow {
    fn read(_heap: Global, words: &mut Words<'_>) -> Result<TypeRow, ReadFault> {
        let [name, kind] = numbers::<2>(words)?;
        Ok(TypeRow { name, kind })
    }
}

impl Part for FieldRow {
    fn read(_heap: Global, words: &mut Words<'_>) -> Result<FieldRow, ReadFault> {
        let [owner, name, inner] = numbers::<3>(words)?;
        Ok(FieldRow { owner, name, inner })
    }
}

impl Part for DefinitionRow {
    fn read(_heap: Global, words: &mut Words<'_>) -> Result<DefinitionRow, ReadFault> {
        Ok(DefinitionRow::from(numbers::<11>(words)?))
    }
}

impl Part for SelectionRow {
    fn read(_heap: Global, words: &mut Words<'_>) -> Result<SelectionRow, ReadFault> {
        Ok(SelectionRow::from(numbers::<10>(words)?))
    }
}

impl Part for DocumentPart {
    fn read(heap: Global, words: &mut Words<'_>) -> Result<DocumentPart, ReadFault> {
        let [strict, definitions, rows] = numbers::<3>(words)?;
        let definitions = read_all::<DefinitionRow>(heap, words, definitions)?;
        Ok(DocumentPart {
            is_strict: strict != 0,
            definitions,
            rows: read_all::<SelectionRow>(heap, words, rows)?,
        })
    }
}

// The lengths of the tables, if a line with them comes next; the indexes are as long as they have to be.
fn read_lengths(words: &mut Words<'_>) -> Result<Option<TableLengths>, ReadFault> {
    if !words.comes_after("tables") {
        return Ok(None);
    }
    let [operations, fragments, rows, errors, path_keys] = numbers::<5>(words)?;
    Ok(Some(TableLengths {
        operations: operations as usize,
        fragments: fragments as usize,
        rows: rows as usize,
        errors: errors as usize,
        path_keys: path_keys as usize,
        ..TableLengths::FULL
    }))
}

impl Part for Side {
    fn read(heap: Global, words: &mut Words<'_>) -> Result<Side, ReadFault> {
        let [documents] = numbers::<1>(words)?;
        let tables = read_lengths(words)?;
        Ok(Side {
            tables,
            documents: read_all::<DocumentPart>(heap, words, documents)?,
        })
    }
}

impl Part for SchemaPart {
    fn read(heap: Global, words: &mut Words<'_>) -> Result<SchemaPart, ReadFault> {
        let [kind, types, fields, query, mutation, subscription] = numbers::<6>(words)?;
        if kind > 1 {
            return Err(ReadFault::BadText);
        }
        let types = read_all::<TypeRow>(heap, words, types)?;
        let fields = read_all::<FieldRow>(heap, words, fields)?;
        // Rows may follow the open schema's line too: they are no part of it.
        if kind == 0 {
            return Ok(SchemaPart::Open);
        }
        Ok(SchemaPart::Table(TablePart {
            types,
            fields,
            roots: RootTypes {
                query,
                mutation,
                subscription,
            },
        }))
    }
}

impl Part for Case {
    fn read(heap: Global, words: &mut Words<'_>) -> Result<Case, ReadFault> {
        let [id, sides] = numbers::<2>(words)?;
        let schema = <SchemaPart as Part>::read(heap, words)?;
        Ok(Case {
            id,
            schema,
            sides: read_all::<Side>(heap, words, sides)?,
        })
    }
}
