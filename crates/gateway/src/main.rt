// Reads schemas, questions to them and documents from the standard input, and prints the answers, the outlines, what is
// built of the documents, and what their operations reach.
#![tactic(auto)]

use printout::printout;
use std::io;
use std::io::BufReader;

fn main(rt: HostRuntime) -> io::Result<()> {
    let heap = rt.alloc();
    let text = io::read_to_string(heap, BufReader::new(heap, rt.stdin())?)?;
    rt.print(printout(heap, text.as_str())?)
}
