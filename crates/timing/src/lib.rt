// How long it takes to go over something again and again.
//
// The nanoseconds go to standard error, since they differ from run to run. The sum of the answers, which does not, is
// handed back; each round starts from the sum of the one before it, so that no round can be left out.
#![tactic(auto)]

ghost use Rattle.std.specs.Prelude.{IfOk};
ghost use Rattle.timing.specs.Rounds.{After};

use std::io;
use std::rt::Clock;
use std::time::{Duration, Instant};

/// How many rounds there are, how much each goes over, and the word for one of that, as `row`.
#[derive(Clone, Copy)]
pub struct Rounds<'n> {
    pub count: u32,
    pub size: u64,
    pub noun: &'n str,
}

/// Writes how long each of what was gone over took, in tenths of a nanosecond.
pub fn report(rt: &impl Eprint, what: &str, rounds: Rounds<'_>, spent: Duration) -> io::Result<()> {
    let noun = rounds.noun;
    let total = u64::from(rounds.count).wrapping_mul(rounds.size);
    let tenths = spent.as_nanos().wrapping_mul(10) / u128::from(total.max(1));
    let whole = tenths / 10;
    let rest = tenths % 10;
    eprintln!(rt; "{what}: {whole}.{rest} ns a {noun} ({total} {noun}s)")
}

/// Goes round after round, each from the sum of the one before it and the first from 0, and writes the time that it
/// took; the last sum.
pub fn measure<F: Fn(u64) -> u64>(
    rt: &(impl Clock + Eprint),
    what: &str,
    rounds: Rounds<'_>,
    round: F,
) -> io::Result<u64>
    requires { F.IsAlwaysCallable round }
    ensures { IfOk result (After (F.post round) rounds.entry.count 0) }
{
    let start = Instant::now(rt)?;
    let sum = go_round(rounds.count, round);
    report(rt, what, rounds, start.elapsed(rt)?)?;
    Ok(sum)
}

// So many rounds, the first from 0: the last answer.
fn go_round<F: Fn(u64) -> u64>(count: u32, round: F) -> u64
    requires { F.IsAlwaysCallable round }
    ensures { After (F.post round) count 0 result }
{
    let mut sum = 0;
    for turn in 0..count {
        sum = round(sum);
    }
    sum
}
