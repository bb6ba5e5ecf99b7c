// Whether an operation of a finished document asks for nothing but introspection.
ghost use Rattle.std.specs.Prelude.{◌≡◌, ◌+◌, ◌++◌, length, drop, replicate, None, OnErr, OnOk};
ghost use Rattle.walking.specs.Lent.{WorkedWithin};
ghost use Rattle.walking.specs.Answers.{lengths};
ghost use Rattle.executable.specs.Walking.{IntrospectionAnswer};

use crate::fault::ExecutableFault;
use builder::ExecutableDocument;
use schema::Schema;
use stored_tables::Tables;
use walking::WalkStep;

/// Whether the operation, at place 0 the anonymous one, at n the nth named one, is a query whose walk without subselections
/// comes upon `__typename`, `__schema` and `__type` only. A refusal changes nothing. Else the marks of the fragments are 0, and
/// what is lent beyond what the fragments need is as it was.
pub fn is_introspection<S: Schema>(
    document: &ExecutableDocument<'_, S>,
    tables: &Tables<'_>,
    operation: usize,
    stack: &mut [WalkStep],
    marks: &mut [u8],
) -> Result<bool, ExecutableFault>
    ensures answer { IntrospectionAnswer document.now tables.now operation (lengths (length stack.old) (length marks.old) None) result }
    ensures refused { OnErr result ((stack.new ≡ stack.old) × (marks.new ≡ marks.old)) }
    ensures marks { OnOk result (marks.new ≡ replicate document.now.fragments 0 ++ drop document.now.fragments marks.old) }
    ensures further { WorkedWithin (document.now.fragments + 1) stack.old stack.new }
{
    let Some(stored) = document.stored(tables) else {
        return Err(ExecutableFault::TableTooShort);
    };
    Ok(walking::is_introspection(&stored, operation, stack, marks)?)
}
