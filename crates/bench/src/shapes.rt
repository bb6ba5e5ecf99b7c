// The documents that are measured, of 4,096 rows each.
use crate::schemas::{FIRST_FIELD, FIRST_TYPE};
use document::{DefinitionRow, Document, SelectionRow};
use schema::Name;
use std::alloc::{AllocError, Global};

const ROWS: u32 = 4096;

const DEFINITIONS: u32 = 256;

// The name of the first definition, where there are many.
const FIRST_NAME: Name = 2000;

// The last field of each type, which leads to a leaf, and a name that no field has.
const LEAF_FIELD: Name = 1039;

const NO_FIELD: Name = 1040;

/// How the rows of a document stand beneath one another.
#[derive(Clone, Copy)]
pub enum Shape {
    /// None beneath another.
    Flat,
    /// In groups of sixteen: a field, and beneath it three fields with four fields beneath each.
    Bushy,
    /// In chains of 32, each row beneath the one before it.
    InChains,
    /// In groups of sixteen as bushy ones, of which the last row is a spread: operations and fragments in turn, one for each.
    WithSpreads,
    /// As bushy ones, but that eight of each sixteen are fields that there are not.
    HalfWrong,
}

impl Shape {
    pub const ALL: [Shape; 5] = [
        Shape::Flat,
        Shape::Bushy,
        Shape::InChains,
        Shape::WithSpreads,
        Shape::HalfWrong,
    ];

    fn name(self) -> &'static str {
        match self {
            Shape::Flat => "flat",
            Shape::Bushy => "bushy",
            Shape::InChains => "chains of 32",
            Shape::WithSpreads => "256 definitions with spreads",
            Shape::HalfWrong => "bushy, half of the fields wrong",
        }
    }

    fn row(self, place: u32) -> SelectionRow {
        let next = place.wrapping_add(1);
        match (self, place % 16) {
            (Shape::Flat, _) => field(FIRST_FIELD + place % 4, next),
            (Shape::InChains, _) if place % 32 == 31 => field(LEAF_FIELD, next),
            (Shape::InChains, _) => on_the_way(place, (place - place % 32).wrapping_add(32)),
            (Shape::WithSpreads, 15) => SelectionRow {
                kind: 2,
                name: FIRST_NAME + place / 32 * 2 + 1,
                end: next,
                ..Default::default()
            },
            (Shape::HalfWrong, 2..=5 | 7..=10) => field(NO_FIELD, next),
            (_, 0) => on_the_way(place, place.wrapping_add(16)),
            (_, 1 | 6 | 11) => on_the_way(place, place.wrapping_add(5)),
            _ => field(LEAF_FIELD, next),
        }
    }
}

fn field(name: Name, end: u32) -> SelectionRow {
    SelectionRow {
        kind: 1,
        name,
        end,
        ..Default::default()
    }
}

// A field at a place that leads to an object type.
fn on_the_way(place: u32, end: u32) -> SelectionRow {
    field(FIRST_FIELD + place % 3, end)
}

// Operations and fragments in turn, each with so many rows.
fn definition(i: u32, size: u32) -> DefinitionRow {
    DefinitionRow {
        kind: 1 + i % 2,
        name: FIRST_NAME.wrapping_add(i),
        condition: if i % 2 == 0 {
            0
        } else {
            FIRST_TYPE.wrapping_add(i)
        },
        first: i.wrapping_mul(size),
        end: i.wrapping_mul(size).wrapping_add(size),
        ..Default::default()
    }
}

/// A document of a shape.
#[derive(Drop)]
pub struct Sample {
    pub what: &'static str,
    definitions: Vec<DefinitionRow>,
    rows: Vec<SelectionRow>,
}

impl Sample {
    /// The document of this shape: one operation that has all rows, but where there are spreads.
    pub fn new(heap: Global, shape: Shape) -> Result<Sample, AllocError> {
        let (count, size) = match shape {
            Shape::WithSpreads => (DEFINITIONS, ROWS / DEFINITIONS),
            _ => (1, ROWS),
        };
        Ok(Sample {
            what: shape.name(),
            definitions: (0..count).map(|i| definition(i, size)).collect(heap)?,
            rows: (0..ROWS).map(|place| shape.row(place)).collect(heap)?,
        })
    }

    /// All rows, lent.
    pub fn handed(&self) -> Document<'_> {
        Document {
            definitions: self.definitions.as_slice(),
            rows: self.rows.as_slice(),
        }
    }
}
