// The schema that answers as the original library does: the table under the meta layer.
ghost use Rattle.table_schema.specs.Original.{MakesLayer};

use crate::fault::MakeFault;
use crate::rows::SchemaRows;
use crate::table::TableSchema;
use schema::MetaLayer;
use std::alloc::Global;

/// Makes a schema of the rows, which stay untouched, with the meta-fields added.
pub fn schema_with_meta_fields(
    heap: Global,
    rows: &SchemaRows<'_>,
) -> Result<MetaLayer<TableSchema>, MakeFault>
    ensures { MakesLayer rows.now.types.now rows.now.fields.now rows.now.roots result }
{
    Ok(MetaLayer {
        lower: TableSchema::new(heap, rows)?,
    })
}
