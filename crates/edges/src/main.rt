// Reads cases from the standard input, line by line, each with the answer that the library is to give, and tells each line
// that is answered in another way, and how many answers there were. A line is `KEYWORD [xTIMES] WORDS [=> ANSWER]`.
//
// `line` takes a line apart, `answer` says what can come of it, and `report` compares. `schemas`, `documents` and `index` hold
// rows, slots and an index of their own, which `entries` stand in; `section` has two desks over one schema: each `desk` is a
// builder with its tables, which `damage` changes, `walks` walks over, and `runs` sends a script.
#![tactic(auto)]

mod answer;
mod asking;
mod damage;
mod desk;
mod documents;
mod entries;
mod index;
mod line;
mod members;
mod report;
mod runs;
mod schemas;
mod section;
mod walks;

use answer::{Answer, Fault};
use documents::DocumentText;
use entries::{Named, Owned};
use index::IndexDesk;
use line::Line;
use report::Report;
use schema::{MetaLayer, OpenSchema};
use schemas::SchemaDesk;
use section::run_section;
use std::alloc::Global;
use std::io;
use std::io::BufReader;
use std::str::Lines;

// What lines outside of the sections are about.
#[derive(Drop)]
struct Outside {
    schema: SchemaDesk,
    names: IndexDesk<Named>,
    owned: IndexDesk<Owned>,
    document: DocumentText,
}

impl Outside {
    fn new(heap: Global) -> Outside {
        Outside {
            schema: SchemaDesk::new(heap),
            names: IndexDesk::new(heap),
            owned: IndexDesk::new(heap),
            document: DocumentText::new(heap),
        }
    }

    fn answer(&mut self, heap: Global, line: &Line<'_>) -> Result<Answer, Fault> {
        if let Some(answer) = self.schema.answer(heap, line)? {
            return Ok(answer);
        }
        if let Some(answer) = self.names.answer(heap, line)? {
            return Ok(answer);
        }
        if let Some(keyword) = line.keyword.strip_prefix("owned_") {
            let line = Line { keyword, ..*line };
            return self.owned.answer(heap, &line)?.ok_or(Fault::BadLine);
        }
        self.document.answer(heap, line)?.ok_or(Fault::BadLine)
    }

    // Answers a line, or the section that begins with it: over the open schema or the schema of the rows, by itself or with the
    // meta-fields. These stand above the schema of the rows where that is lent, or own it.
    fn go_on(
        &mut self,
        rt: &HostRuntime,
        line: &Line<'_>,
        rest: &mut Lines<'_>,
        report: &mut Report,
    ) -> anyhow::Result<()> {
        let document = &mut self.document;
        match line.keyword {
            "open" => run_section(rt, &OpenSchema, document, rest, report),
            "open_layer" => {
                let layer = MetaLayer { lower: OpenSchema };
                run_section(rt, &layer, document, rest, report)
            }
            "plain" => {
                let schema = self.schema.made(rt.alloc())?;
                run_section(rt, &schema, document, rest, report)
            }
            "table" => {
                let lower = &self.schema.made(rt.alloc())?;
                run_section(rt, &MetaLayer { lower }, document, rest, report)
            }
            "table_by_value" => {
                let lower = self.schema.made(rt.alloc())?;
                run_section(rt, &MetaLayer { lower }, document, rest, report)
            }
            _ => {
                let answer = self.answer(rt.alloc(), line);
                report.tell(rt, &answer, line.told)
            }
        }
    }
}

fn run(rt: &HostRuntime) -> anyhow::Result<()> {
    let text = io::read_to_string(rt.alloc(), BufReader::new(rt.alloc(), rt.stdin())?)?;
    let mut rest = text.as_str().lines();
    let mut outside = Outside::new(rt.alloc());
    let mut report = Report::default();
    // Kept: an iterator over the lines would borrow them, and a section goes on with them.
    for _ in 0..u64::MAX {
        let Some(line) = rest.next() else {
            break;
        };
        if let Some(line) = report.read(rt, line)? {
            outside.go_on(rt, &line, &mut rest, &mut report)?;
        }
    }
    report.end(rt)
}

fn main(rt: HostRuntime) -> anyhow::Result<()> {
    run(&rt)
}
