// Measures, in nanoseconds: the lookups of a table schema, the check of a document and the count of its needs, and what adding a
// document, walking over it and comparing it takes, all at the limits of 1,024 types, 4,096 fields and 4,096 rows.
//
// The nanoseconds go to standard error, since they differ from run to run. The sums of the answers, which do not, go to
// standard output.
#![tactic(auto)]

mod answers;
mod building;
mod documents;
mod finished;
mod lookups;
mod schemas;
mod shapes;

use crate::building::measure_building;
use crate::documents::measure_document;
use crate::lookups::measure_lookups;
use crate::shapes::{Sample, Shape};

fn run(rt: &HostRuntime) -> anyhow::Result<()> {
    measure_lookups(rt)?;
    for shape in [Shape::Flat, Shape::Bushy, Shape::InChains] {
        measure_document(rt, &Sample::new(rt.alloc(), shape)?)?;
    }
    measure_building(rt)
}

fn main(rt: HostRuntime) -> anyhow::Result<()> {
    run(&rt)
}
