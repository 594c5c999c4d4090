// Long random runs of calls on both logs, each answer held to a plain model's. It prints how often each thing happened, and
// how often the two differed. With an argument it prints, instead, how long calls take.
#![tactic(auto)]

mod drilling;
mod laps;
mod model;
mod random;
mod tally;

use drilling::Drill;
use laps::{Lap, run_lap};
use logs::Log;
use model::{Model, Segments, Shape};
use random::Random;
use segmented::Segmented;
use std::{env, io};
use tape::Tape;

// Drills a log that is empty and has this shape.
fn run<L: Log + Drop>(
    rt: &HostRuntime,
    log: L,
    shape: Shape,
    seed: u64,
    steps: u64,
) -> io::Result<()> {
    let mut drill = Drill::new(log, Model::new(rt.alloc(), shape), Random::new(seed));
    drill.run(steps)?;
    println!(rt; "{shape}, seed {seed}: {}", drill.tally)
}

fn run_tape(rt: &HostRuntime, seed: u64, room: u32) -> io::Result<()> {
    let log = Tape::new(rt.alloc(), seed, room)?;
    let shape = Shape::Tape {
        room: u64::from(room),
        used: 0,
    };
    run(rt, log, shape, seed, 4000)
}

fn run_segmented(rt: &HostRuntime, seed: u64, segments: u16, slots: u16) -> io::Result<()> {
    let log = Segmented::new(rt.alloc(), seed, segments, slots)?;
    let shape = Shape::Segments(Segments {
        count: u64::from(segments),
        slots: i64::from(slots),
        active: 0,
        fill: 0,
    });
    run(rt, log, shape, seed, 50000)
}

fn run_all(rt: &HostRuntime) -> io::Result<()> {
    run_tape(rt, 1, 100)?;
    run_tape(rt, 2, 200000)?;
    run_tape(rt, 3, 1000000)?;
    run_segmented(rt, 4, 1, 0)?;
    run_segmented(rt, 5, 3, 2)?;
    run_segmented(rt, 6, 8, 8)?;
    run_segmented(rt, 7, 40, 20)
}

// So many messages of 100 bytes fill 256 segments.
const MESSAGES: u64 = 7936;

// The best of twenty laps with so many messages live, each on a log of its own.
fn time<L: Log + Drop, F: Fn() -> io::Result<L>>(
    rt: &HostRuntime,
    name: &str,
    count: u64,
    make: F,
) -> io::Result<()>
    requires { F.IsAlwaysCallable make }
{
    let mut best = Ok(Lap::SLOWEST);
    for _ in 0..20 {
        let lap = run_lap(rt, &mut make()?, count)?;
        best = best.and_then(|best| lap.map(|lap| Lap::best(best, lap)));
    }
    let all = best.is_ok();
    let Lap { write, read } = best.unwrap_or(Lap::SLOWEST);
    println!(rt;
        "{name}, {count} of {MESSAGES} messages: reserve and complete {write} ns, read {read} ns, all done {all}"
    )
}

fn main(rt: HostRuntime) -> io::Result<()> {
    if env::args(&rt)?.count() < 2 {
        return run_all(&rt);
    }
    let tape = || Ok(Tape::new(rt.alloc(), 1, 132 * MESSAGES as u32)?);
    let segments = || Ok(Segmented::new(rt.alloc(), 1, 256, 0)?);
    time(&rt, "tape", MESSAGES / 10, &tape)?;
    time(&rt, "tape", MESSAGES / 10 * 9, &tape)?;
    time(&rt, "segments", MESSAGES / 10, &segments)?;
    time(&rt, "segments", MESSAGES / 10 * 9, &segments)
}
