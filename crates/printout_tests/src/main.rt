// Prints the printout of each of several texts, which lines of dashes part in the standard input. It is there for its
// stdin and stdout: each text has another error, or none.
#![tactic(auto)]

use printout::printout;
use std::io;
use std::io::BufReader;

fn main(rt: HostRuntime) -> io::Result<()> {
    let heap = rt.alloc();
    let all = io::read_to_string(heap, BufReader::new(heap, rt.stdin())?)?;
    for text in all.as_str().split("----\n") {
        rt.print(printout(heap, text)?)?;
        rt.println("----")?;
    }
    Ok(())
}
