// Whole runs: a fresh builder is sent the documents of a script, one after the other.
use crate::answer::{Answer, Fault};
use crate::desk::{Desk, UNWRITTEN};
use crate::documents::DocumentText;
use crate::line::{Line, all_are, number, number_of};
use schema::Schema;
use scripts::{Adding, build_the_same, lists_errors, reaches_fields};
use std::alloc::{AllocError, Global};

/// The documents of a script, all added strictly.
#[derive(Drop)]
pub struct Script {
    documents: Vec<DocumentText>,
}

impl Script {
    /// A script without documents.
    pub fn new(heap: Global) -> Script {
        Script {
            documents: Vec::new(heap),
        }
    }

    /// Puts one more document to the end.
    pub fn push(&mut self, document: DocumentText) -> Result<(), AllocError> {
        self.documents.push(document)?;
        Ok(())
    }

    // The calls of the script, with no answer yet.
    fn calls(&self, heap: Global) -> Result<Vec<Adding<'_>>, AllocError> {
        let mut calls = Vec::new(heap);
        for document in self.documents.iter() {
            calls.push(Adding {
                document: document.handed(),
                strict: true,
                answer: None,
            })?;
        }
        Ok(calls)
    }
}

impl<'s, S: Schema> Desk<'s, S> {
    /// Whether the script lists an error.
    pub fn script_errors(
        &mut self,
        heap: Global,
        schema: &S,
        script: &Script,
    ) -> Result<Answer, Fault> {
        let mut calls = script.calls(heap)?;
        match lists_errors(schema, &mut self.owned.lend(), calls.as_mut_slice()) {
            Ok(true) => Ok(Answer::Word("yes")),
            Ok(false) => Ok(Answer::Word("no")),
            Err(fault) => Answer::refused(heap, fault, true),
        }
    }

    /// Whether two scripts build the same, the second in the tables of the other desk.
    pub fn scripts_same(
        &mut self,
        heap: Global,
        schema: &S,
        script: &Script,
        other: &mut Desk<'s, S>,
        other_script: &Script,
    ) -> Result<Answer, Fault> {
        let mut calls = script.calls(heap)?;
        let mut other_calls = other_script.calls(heap)?;
        let same = build_the_same(
            schema,
            &mut self.owned.lend(),
            calls.as_mut_slice(),
            &mut other.owned.lend(),
            other_calls.as_mut_slice(),
        );
        match same {
            Ok(true) => Ok(Answer::Word("same")),
            Ok(false) => Ok(Answer::Word("different")),
            Err(fault) => Answer::refused(heap, fault, true),
        }
    }

    /// `OPERATION`: how many fields of the script's document it reaches, and the first three places of the list.
    pub fn script_fields(
        &mut self,
        heap: Global,
        schema: &S,
        script: &Script,
        line: &Line<'_>,
    ) -> Result<Answer, Fault> {
        let mut calls = script.calls(heap)?;
        self.walk.list.as_mut_slice().fill(UNWRITTEN);
        let reached = reaches_fields(
            schema,
            &mut self.owned.lend(),
            calls.as_mut_slice(),
            number(line.words)? as usize,
            self.walk.stack.as_mut_slice(),
            self.walk.marks.as_mut_slice(),
            self.walk.list.as_mut_slice(),
        );
        let list = self.walk.list.as_slice();
        let is_unlisted = all_are(list, UNWRITTEN);
        match reached {
            Err(fault) => Answer::refused(heap, fault, is_unlisted),
            Ok(None) if is_unlisted => Ok(Answer::Word("no such operation")),
            Ok(None) => Ok(Answer::Overwritten),
            Ok(Some(count)) => {
                let mut told = Vec::new(heap);
                told.push(number_of(count))?;
                told.extend_from_slice(list.get(..3).unwrap_or(list))?;
                Ok(Answer::Numbers(told))
            }
        }
    }
}
