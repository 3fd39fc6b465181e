// Replays the Rust's answers. data/ has a file for each part, of records of one length (oracle/ANSWERS.md); each record's answer
// is computed anew and compared, and the counts of each part are written. The files name kinds and refusals by numbers, so each part
// begins with a match on one.
#![tactic(auto)]

mod arguments;
mod built;
mod depths;
mod frames;
mod layouts;
mod limits;
mod of_bits;
mod of_dct;
mod of_lanes;
mod of_planes;
mod of_tables;
mod pictures;
mod reads;

use replay::{Counts, LONGEST, Record, cut, read_full};
use std::fs::File;
use std::io;
use std::rt::Files;

// A part, whose file has its name: counts the records whose answer is ours. One that is cut off counts as different; where no such
// file opens, nothing is equal. A proved loop has to end, and nothing says that a file does: so the records are counted, up to a
// number that no part reaches.
fn replayed<F: Fn(Record<'_>) -> bool + Drop>(
    rt: &(impl Files + Print),
    name: &str,
    length: usize,
    holds: F,
) -> io::Result<()>
    requires callable { F.IsAlwaysCallable holds }
{
    let mut counts = Counts::default();
    if let Ok(mut file) = File::open(rt, name) {
        for _ in 0..1_000_000 {
            let mut bytes = [0; LONGEST];
            let n = read_full(&mut file, cut(&mut bytes, length))?;
            if n == 0 {
                break;
            }
            counts.count(n == length && holds(Record::new(&bytes)));
        }
    }
    println!(rt; "{name}: {counts}")
}

// The functions that the probes open.
fn inner(rt: &(impl Files + Print)) -> io::Result<()> {
    replayed(rt, "bits", of_bits::LENGTH, of_bits::holds)?;
    replayed(rt, "dct", of_dct::LENGTH, of_dct::holds)?;
    replayed(rt, "lanes", of_lanes::LENGTH, of_lanes::holds)?;
    replayed(rt, "tables", of_tables::LENGTH, of_tables::holds)
}

// The calls on frames, planes and slices.
fn calls(rt: &(impl Files + Print)) -> io::Result<()> {
    replayed(rt, "built", built::LENGTH, built::holds)?;
    replayed(rt, "frames", frames::LENGTH, frames::holds)?;
    replayed(rt, "layouts", layouts::LENGTH, layouts::holds)?;
    replayed(rt, "limits", limits::LENGTH, limits::holds)?;
    replayed(rt, "planes", of_planes::LENGTH, of_planes::holds)?;
    replayed(rt, "reads", reads::LENGTH, reads::holds)?;
    replayed(rt, "shown", pictures::LENGTH, pictures::holds)
}

fn main(rt: HostRuntime) -> io::Result<()> {
    inner(&rt)?;
    calls(&rt)
}
