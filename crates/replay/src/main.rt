// Reads test cases in their text form from the standard input, builds the documents of each over its schema, and prints
// what is refused, listed and stored, what the operations reach, and whether two sides are the same.
//
// `words` takes the text apart, `parts` says what a case is made of, and `reading` reads it; `building` builds and compares,
// `walks` walks, and `lines`, `listing` and `refused` write what came of it.
#![tactic(auto)]

mod building;
mod lines;
mod listing;
mod parts;
mod reading;
mod refused;
mod walks;
mod words;

use building::print_case;
use parts::Case;
use reading::{Part, ReadFault};
use std::io;
use std::io::BufReader;
use words::Words;

// Prints every case up to the end of the text, or up to the first number that is missing or too large.
fn replay(rt: &HostRuntime, text: &str) -> anyhow::Result<()> {
    let mut words = Words::new(text);
    // Kept: an iterator over the cases would borrow the words, which are asked for their place after a bad number.
    for _ in 0..u64::MAX {
        if words.is_at_end() {
            break;
        }
        match Case::read(rt.alloc(), &mut words) {
            Ok(case) => print_case(rt, &case)?,
            Err(ReadFault::BadText) => {
                let number = words.taken();
                println!(rt; "bad text at number {number}")?;
                break;
            }
            Err(fault) => return Err(fault.into()),
        }
    }
    Ok(())
}

fn run(rt: &HostRuntime) -> anyhow::Result<()> {
    let text = io::read_to_string(rt.alloc(), BufReader::new(rt.alloc(), rt.stdin())?)?;
    replay(rt, text.as_str())
}

fn main(rt: HostRuntime) -> anyhow::Result<()> {
    run(&rt)
}
