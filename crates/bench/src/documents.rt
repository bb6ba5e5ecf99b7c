// Measures the check of a document and the count of its needs.
use crate::answers::measure_answers;
use crate::shapes::Sample;
use document::Document;
use refusal::Refusal;
use timing::Rounds;

// How often each measurement goes over the rows of its document.
const ROUNDS: Rounds<'static> = Rounds {
    count: 4000,
    size: 4096,
    noun: "row",
};

// What a check of the document says, as a number.
fn check_answer(document: &Document<'_>) -> u64 {
    match document.check() {
        Ok(()) => 1,
        Err(fault) => u64::from(Refusal::from(fault).row),
    }
}

/// What the document needs, as a number: the places for path keys.
pub fn needs_answer(document: &Document<'_>) -> u64 {
    match document.needs() {
        Ok(needs) => needs.path_keys as u64,
        Err(fault) => u64::from(Refusal::from(fault).row),
    }
}

/// Measures both on a document: the places for path keys, and the sums of the answers.
pub fn measure_document(rt: &HostRuntime, sample: &Sample) -> anyhow::Result<()> {
    let document = sample.handed();
    let what = sample.what;
    let keys = needs_answer(&document);
    eprintln!(rt; "{what}")?;
    let checks = measure_answers(rt, "  check", ROUNDS, || check_answer(&document))?;
    let needs = measure_answers(rt, "  needs", ROUNDS, || needs_answer(&document))?;
    println!(rt; "{what}: path keys {keys}, checks {checks}, needs {needs}")?;
    Ok(())
}
