// What is lent to a walk over a finished document, owned.
ghost use Rattle.std.specs.Prelude.{◌≡◌, replicate, IfOk};
ghost use Rattle.owned_tables.specs.Contents.{no_step};

use crate::fault::WalkTablesFault;
use builder::{MAX_FRAGMENTS, MAX_STORED_ROWS};
use std::alloc::Global;
use walking::{STEPS_EACH, WalkStep};

/// A stack, marks and a list for walks, as long as any document of a builder needs them.
#[derive(Drop)]
pub struct WalkTables {
    pub stack: Vec<WalkStep>,
    pub marks: Vec<u8>,
    pub list: Vec<u32>,
}

impl WalkTables {
    /// Tables that no walk has used yet.
    pub fn new(heap: Global) -> Result<WalkTables, WalkTablesFault>
        ensures stack { IfOk result (λ made. made.stack.items ≡ replicate 8481 no_step) }
        ensures marks { IfOk result (λ made. made.marks.items ≡ replicate 256 0) }
        ensures list { IfOk result (λ made. made.list.items ≡ replicate 16384 0) }
    {
        Ok(WalkTables {
            stack: vec![in heap; WalkStep::default(); STEPS_EACH * (MAX_FRAGMENTS + 1)]?,
            marks: vec![in heap; 0u8; MAX_FRAGMENTS]?,
            list: vec![in heap; 0u32; MAX_STORED_ROWS]?,
        })
    }
}
