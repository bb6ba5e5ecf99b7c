// Refusals as lines of numbers.
use refusal::Refusal;
use std::io;

/// Prints what is told of a refused call: number, layer and row.
pub fn print_refusal<F>(rt: &HostRuntime, fault: F) -> io::Result<()>
where
    Refusal: From<F>,
{
    let refusal = Refusal::from(fault);
    let number = refusal.reason.number();
    let layer = refusal.layer.number();
    let row = refusal.row;
    println!(rt; "refused {number} {layer} {row}")
}
