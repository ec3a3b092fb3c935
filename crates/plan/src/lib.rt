// The plan that an input begins with: which of the input's bytes are taken, the plan read and checked, and the bytes
// after it. Equal to the definitions of model's specs/Program.antt.
#![tactic(auto)]

ghost use Rattle.std.specs.Prelude.{◌≡◌, ◌≤◌, take, drop};
ghost use Rattle.std.proofs.Math.Option.{none};
ghost use Rattle.model.specs.Notation.{tabulate};
ghost use Rattle.model.specs.Outcome.{refusal_of};
ghost use Rattle.model.specs.Topology.{channel_limit};
ghost use Rattle.model.specs.Program.{input_bytes, end_byte, map_start, late_map, plan_of, plan_length, shape_refusal};
ghost use Rattle.plan.specs.PlanRead.{plan_said, plan_in};

use model::{CHANNELS, Refusal, Topology};

const INPUT_BYTES: usize = 65536;

// How many bytes a plan has before those of its channels: the numbers of processes and of channels.
const SIZES: usize = 2;

// How many bytes the map of late processes has, which a plan ends with (document 02, M-105).
const MAP: usize = 2;

// The first 65,536 bytes and no more.
#[tactic(auto, using(std::proofs::lemmas::List::take_min))]
pub fn taken(input: &[u8]) -> &[u8]
    ensures { result.now ≡ take input_bytes input.now }
{
    &input[..INPUT_BYTES.min(input.len())]
}

// Where the map stands, by the number of channels, which is 0 where the bytes end before it, and 255 at most.
#[tactic(auto, unfolding(model::specs::Program::map_start))]
fn map_start(bytes: &[u8]) -> usize
    ensures { (result ≡ map_start bytes.now) × (result ≤ 512) }
{
    let channels = bytes.get(1).copied().unwrap_or(0);
    SIZES + 2 * usize::from(channels)
}

// How many bytes the plan has.
#[tactic(auto, unfolding(model::specs::Program::plan_length))]
fn plan_length(bytes: &[u8]) -> usize
    ensures { result ≡ plan_length bytes.now }
{
    map_start(bytes) + MAP
}

// Under two bytes 7; 1; 2; wires or map broken off 7.
fn check(bytes: &[u8]) -> Result<(), Refusal>
    ensures { refusal_of result ≡ shape_refusal bytes.now }
{
    if bytes.len() < SIZES {
        return Err(Refusal::Malformed);
    }
    rules::topology::sizes(bytes[0], bytes[1])?;
    if bytes.len() < plan_length(bytes) {
        return Err(Refusal::Malformed);
    }
    Ok(())
}

// One end of each channel: the bytes two apart from the one at first on, and 0 past the planned channels. (That the
// plan is whole is asked of its bytes, here and of the two readers below: a type for such bytes would be made in `read`
// alone, and opened again in each of them.)
fn ends(bytes: &[u8], first: usize) -> [u8; CHANNELS]
    requires { (shape_refusal bytes.now ≡ none) × (first ≤ 3) }
    ensures { result ≡ tabulate channel_limit (end_byte bytes.now first) }
{
    let mut r = [0; CHANNELS];
    for c in 0..usize::from(bytes[1]) {
        r[c] = bytes[first + 2 * c];
    }
    r
}

// The map of late processes: two bytes, lowest first.
#[tactic(auto, unfolding(model::specs::Program::map_start, model::specs::Program::late_map))]
fn late_map(bytes: &[u8]) -> u16
    requires { shape_refusal bytes.now ≡ none }
    ensures { result ≡ late_map bytes.now }
{
    let at = map_start(bytes);
    u16::from_le_bytes([bytes[at], bytes[at + 1]])
}

// Boards, wires, two bytes per wire: from, to; and the map.
#[tactic(auto, unfolding(model::specs::Program::plan_of))]
fn topology(bytes: &[u8]) -> Topology
    requires { shape_refusal bytes.now ≡ none }
    ensures { result ≡ plan_of bytes.now }
{
    Topology {
        processes: bytes[0],
        channels: bytes[1],
        from: ends(bytes, 2),
        to: ends(bytes, 3),
        late: late_map(bytes),
    }
}

// The plan that the bytes begin with, or the refusal of its first check that fails.
#[tactic(auto, using(crate::proofs::PlanReads::checks))]
pub fn read(bytes: &[u8]) -> Result<Topology, Refusal>
    ensures { plan_said result ≡ plan_in bytes.now }
{
    check(bytes)?;
    let topology = topology(bytes);
    rules::topology::check(topology)?;
    Ok(topology)
}

// The plan's own bytes: all of them where they end within it.
pub fn own(bytes: &[u8]) -> &[u8]
    ensures { result.now ≡ take (plan_length bytes.now) bytes.now }
{
    &bytes[..plan_length(bytes).min(bytes.len())]
}

// The bytes after the plan: none where they end within it.
pub fn rest(bytes: &[u8]) -> &[u8]
    ensures { result.now ≡ drop (plan_length bytes.now) bytes.now }
{
    &bytes[plan_length(bytes).min(bytes.len())..]
}
