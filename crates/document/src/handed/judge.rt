// Checking a document.
ghost use Rattle.std.specs.Prelude.{◌≡◌, ℕ, ◌≤◌, map, length, None, MatchResult};
ghost use Rattle.refusal.specs.Firsts.{verdict_of};
ghost use Rattle.document.specs.Rows.{selection_view};
ghost use Rattle.document.specs.Document.{ReadsAsOne, ReadsAsNone};
ghost use Rattle.document.specs.Verdict.{definitions_fault, rows_fault, orphan_fault, document_fault};

use super::Document;
use crate::check::{MAX_DEPTH, check_definitions, check_sizes};
use crate::fault::DocumentFault;
use layout::check_range;

impl Document<'_> {
    // Whether each row belongs to a definition.
    fn check_orphans(&self) -> Result<(), DocumentFault>
        ensures { result ≡ verdict_of (orphan_fault self.now.definitions.now self.now.rows.now) }
    {
        if self.definitions.is_empty() && !self.rows.is_empty() {
            return Err(DocumentFault::NoDefinition);
        }
        Ok(())
    }

    // Whether the rows are in order, whose ranges the definitions tell.
    fn check_rows(&self) -> Result<(), DocumentFault>
        requires few { length self.now.rows.now ≤ 4096 }
        requires ranges { definitions_fault (length self.now.rows.now) 0 0 self.now.definitions.now ≡ None }
        ensures { result ≡ verdict_of (rows_fault (map selection_view self.now.rows.now) self.now.definitions.now) }
    {
        for row in self.definitions {
            check_range(self.rows, row.first as usize, row.end as usize, MAX_DEPTH).map_err(
                |misfit| DocumentFault::InRows(misfit.fault, misfit.row as u32),
            )?;
        }
        Ok(())
    }

    /// Whether the tables are a document, and of which there is then exactly one; else the first fault: of the sizes, of
    /// rows without a definition, of the definitions, then of the rows. Nothing is changed.
    #[tactic(auto, using(crate::proofs::Documents::judged))]
    pub fn check(&self) -> Result<(), DocumentFault>
        ensures verdict { result ≡ verdict_of (document_fault self.now.definitions.now self.now.rows.now) }
        ensures lawful { MatchResult result (λ _. ReadsAsOne self.now.definitions.now self.now.rows.now) (λ _. ReadsAsNone self.now.definitions.now self.now.rows.now) }
    {
        check_sizes(self.definitions.len(), self.rows.len())?;
        self.check_orphans()?;
        check_definitions(self.definitions, self.rows.len())?;
        self.check_rows()
    }
}
