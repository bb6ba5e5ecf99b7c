// A finished document that owns the tables in which it stands.
use crate::tables::OwnedTables;
use builder::ExecutableDocument;

/// A finished document, and the tables in which it stands.
#[derive(Drop)]
pub struct OwnedDocument<'s, S> {
    pub tables: OwnedTables,
    pub document: ExecutableDocument<'s, S>,
}
