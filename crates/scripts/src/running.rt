// Running a script on a fresh builder.
ghost use Rattle.std.specs.Prelude.{◌≡◌, IfOk};
ghost use Rattle.builder.specs.Lent.{SameTables, SameLengths};
ghost use Rattle.scripts.specs.Running.{Runs};

use crate::script::Adding;
use builder::{BuilderFault, ExecutableDocumentBuilder};
use schema::Schema;
use stored_tables::Tables;

/// Makes a builder over the schema and these tables, and adds each document of the script in turn. Each answer is noted: the
/// refusal, or none where the document is added. Where no builder is made, nothing is changed.
pub fn run<'s, S: Schema>(
    schema: &'s S,
    tables: &mut Tables<'_>,
    script: &mut [Adding<'_>],
) -> Result<ExecutableDocumentBuilder<'s, S>, BuilderFault>
    ensures runs { Runs S.Schema.meaning (S.Schema.meaning schema.now) tables.old tables.new script.old script.new result }
    ensures schema { IfOk result (λ b. b.schema ≡ schema.entry) }
    ensures same { SameTables tables.old tables.new }
    ensures lengths { SameLengths tables.old tables.new }
{
    let mut builder = ExecutableDocumentBuilder::new(schema, tables)?;
    for i in 0..script.len() {
        let call = script[i];
        script[i].answer = builder
            .add_ast_document(tables, &call.document, call.strict)
            .err();
    }
    Ok(builder)
}
