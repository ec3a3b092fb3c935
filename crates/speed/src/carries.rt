// Work 6: a store of the old form upgraded; work 7: one of the present form downgraded. A cell changes each time. The
// sum has the refusal's number, 0 where there is none, and the first process's word.
use crate::input::cells;
use crate::sum::{cell_sum, fold};
use model::{Refusal, Topology};
use rules::layout::STORE_CELLS;

fn refusal_code(carried: Result<(), Refusal>) -> u32 {
    match carried {
        Ok(()) => 0,
        Err(r) => u32::from(rules::refusal::number(r)),
    }
}

// Up or down, as the input's work says: a flag, of which both ways are called with the same arguments.
fn carry(up: bool, topology: Topology, source: &[u32], target: &mut [u32]) -> Result<(), Refusal> {
    if up {
        migration::upgrade(topology, source, target)
    } else {
        migration::downgrade(topology, source, target)
    }
}

pub fn run(up: bool, topology: Topology, times: u32, bytes: &[u8]) -> u32 {
    let mut source = [0; STORE_CELLS];
    let mut target = [0; STORE_CELLS];
    cells(&mut source, bytes);
    let mut sum = 0;
    for i in 0..times {
        source[3] = i;
        let carried = carry(up, topology, &source, &mut target);
        sum = fold(fold(sum, refusal_code(carried)), target[1]);
    }
    cell_sum(sum, &target)
}
