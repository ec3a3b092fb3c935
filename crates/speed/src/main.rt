// The work that bench/run measures. The input: a byte for the work, 4 for how often, the plan as `head` has it, then a
// script (six bytes a step: kind, process or channel, body; it ends before a kind that is none), a store's cells or
// records; past its end all is 0. Printed is a checksum of each answer and of the last line, words, channels and store,
// or of the store that another was carried into: 31 × sum + value, modulo 2^32. Where the plan is refused there is no
// work, and 0 is printed.
#![tactic(auto)]

mod carries;
mod input;
mod reads;
mod recovers;
mod reductions;
mod steps;
mod sum;
mod writes;

use crate::input::{PLAN, after_plan, byte, number};
use std::io;

fn work(bytes: &mut [u8]) -> u32 {
    if bytes.len() < PLAN {
        return 0;
    }
    let times = number(bytes, 1);
    let Ok(topology) = plan::read(&bytes[PLAN..]) else {
        return 0;
    };
    let at = after_plan(bytes);
    match byte(bytes, 0) {
        1 => steps::run(topology, times, &bytes[at..]),
        2 => recovers::run(topology, times, &bytes[at..]),
        3 => reads::run(times, &mut bytes[at..]),
        4 => writes::run(times, &bytes[at..]),
        5 => reductions::run(topology, times, &bytes[at..]),
        6 => carries::run(true, topology, times, &bytes[at..]),
        _ => carries::run(false, topology, times, &bytes[at..]),
    }
}

fn main(rt: HostRuntime) -> io::Result<()> {
    let mut bytes = stream::large_buffer();
    let n = stream::read_full(&mut rt.stdin(), &mut bytes)?;
    let sum = work(&mut bytes[..n]);
    println!(rt; "{sum}")
}
