// Two desks over one schema, and a script for each.
use crate::answer::{Answer, Fault};
use crate::asking::asked;
use crate::desk::Desk;
use crate::documents::DocumentText;
use crate::line::Line;
use crate::report::Report;
use crate::runs::Script;
use schema::Schema;
use std::alloc::Global;
use std::mem;
use std::str::Lines;

/// The desk that lines are about, and the other one.
#[derive(Drop)]
struct Section<'s, S> {
    schema: &'s S,
    desk: Desk<'s, S>,
    other: Desk<'s, S>,
    script: Script,
    other_script: Script,
}

impl<'s, S: Schema> Section<'s, S> {
    fn new(heap: Global, schema: &'s S) -> Result<Section<'s, S>, Fault> {
        Ok(Section {
            schema,
            desk: Desk::new(heap)?,
            other: Desk::new(heap)?,
            script: Script::new(heap),
            other_script: Script::new(heap),
        })
    }

    // Lines are about the other desk and its script from here on.
    fn turn(&mut self) -> Answer {
        mem::swap(&mut self.desk, &mut self.other);
        mem::swap(&mut self.script, &mut self.other_script);
        Answer::Done
    }

    // The answer to a line about the desks, or about the document that is handed over.
    fn answer(
        &mut self,
        heap: Global,
        document: &mut DocumentText,
        line: &Line<'_>,
    ) -> Result<Answer, Fault> {
        match line.keyword {
            "ask" => asked(heap, self.schema, line),
            "builder" => self.desk.start(heap, self.schema, line),
            "add" => self.desk.add(heap, document, line.words == "strict"),
            "counts" => self.desk.counts(heap),
            "keys" => self.desk.keys(heap, line),
            "anonymous" => self.desk.anonymous(heap),
            "held" => self.desk.held(heap, line),
            "slots_used" => self.desk.slots(heap, line),
            "damage" => self.desk.damage(line),
            "length" => self.desk.length(line),
            "turn_indexes" => Ok(self.desk.turn_indexes()),
            "exchange" => self.desk.exchange(&mut self.other, line),
            "other_desk" => Ok(self.turn()),
            "finish" => self.desk.finish(),
            "fields" => self.desk.fields(heap, line),
            "introspection" => self.desk.introspection(heap, line),
            "compare" => self.desk.compared(heap, &mut self.other),
            _ => self.run(heap, document, line),
        }
    }

    // The answer to a line about scripts, or about the document that is handed over.
    fn run(
        &mut self,
        heap: Global,
        document: &mut DocumentText,
        line: &Line<'_>,
    ) -> Result<Answer, Fault> {
        match line.keyword {
            "no_script" => {
                self.script = Script::new(heap);
                Ok(Answer::Done)
            }
            "script" => {
                self.script.push(document.copied(heap)?)?;
                Ok(Answer::Done)
            }
            "script_errors" => self.desk.script_errors(heap, self.schema, &self.script),
            "scripts_same" => self.desk.scripts_same(
                heap,
                self.schema,
                &self.script,
                &mut self.other,
                &self.other_script,
            ),
            "script_fields" => self
                .desk
                .script_fields(heap, self.schema, &self.script, line),
            _ => document.answer(heap, line)?.ok_or(Fault::BadLine),
        }
    }
}

/// Answers the lines up to `end`, over this schema.
pub fn run_section<S: Schema>(
    rt: &HostRuntime,
    schema: &S,
    document: &mut DocumentText,
    rest: &mut Lines<'_>,
    report: &mut Report,
) -> anyhow::Result<()> {
    let heap = rt.alloc();
    let mut section = Section::new(heap, schema)?;
    for text in rest.by_ref() {
        let Some(line) = report.read(rt, text)? else {
            continue;
        };
        if line.keyword == "end" {
            break;
        }
        report.tell(rt, &section.answer(heap, document, &line), line.told)?;
    }
    Ok(())
}
