// Asks the same again and again, adds up the answers, and tells how long it took.
use std::io;
use std::time::Instant;
use timing::{Rounds, report};

/// Asks round after round, also what changes something; the sum of the answers, in which each counts thrice the next one.
pub fn measure_answers<F: FnMut() -> u64>(
    rt: &HostRuntime,
    what: &str,
    rounds: Rounds<'_>,
    mut ask: F,
) -> io::Result<u64>
    requires { F.IsAlwaysCallable ask }
{
    let start = Instant::now(rt)?;
    let mut sum: u64 = 0;
    for _ in 0..rounds.count {
        sum = sum.wrapping_mul(3).wrapping_add(ask());
    }
    report(rt, what, rounds, start.elapsed(rt)?)?;
    Ok(sum)
}
