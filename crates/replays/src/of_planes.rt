// The Rust's coding calls on small planes and slices. A record of 552 bytes (oracle/ANSWERS.md): the call's arguments, its answer,
// the streams that it wrote, and samples, which are repeated until 512 are there.
use crate::arguments::Call;
use crate::depths::Depth;
use calls::Positions;
use questions::answers::Refused;
use replay::{Record, cut, part};
use std::array;

pub const LENGTH: usize = 552;

// The 512 samples: those that are stored, repeated. Past the record's room for them it is the first one.
fn samples<T: Depth>(record: Record<'_>) -> [T; 512] {
    let stored: [T; 256] = record.numbers(296);
    let n = record.size(14).max(1);
    array::from_fn(|k| stored.get(k % n).copied().unwrap_or(stored[0]))
}

// Whether a call that is lent a buffer for each stream answers as stored, and leaves in them what is stored.
fn coded<C: FnOnce(&mut [u8], &mut [u8]) -> Result<Positions, Refused>>(
    call: Call<'_>,
    code: C,
) -> bool
    requires { C.IsAlwaysCallable code }
{
    let record = call.record;
    let filled = call.filled();
    let given = call.positions();
    let end = call.ends();
    let mut dcs = [filled; 100];
    let mut acs = [filled; 1800];
    let answer = code(
        cut(&mut dcs, record.size(10)),
        cut(&mut acs, record.size(12)),
    );
    call.answered(answer)
        && replay::holds(&dcs, filled, given.dc..end.dc, record.part(72..96))
        && replay::holds(&acs, filled, given.ac..end.ac, record.part(96..296))
}

// A plane of these samples.
fn plane<T: Depth>(call: Call<'_>, samples: &[T]) -> bool {
    let [place, ..] = call.rows();
    let rows = part(samples, place);
    coded(call, |dcs, acs| {
        encoder::encode_plane(
            rows,
            call.shape(),
            call.settings(),
            dcs,
            acs,
            call.positions(),
        )
    })
}

// A slice of them.
fn slice<T: Depth>(call: Call<'_>, samples: &[T]) -> bool {
    let [p0, p1, p2, p3] = call.rows().map(|place| part(samples, place));
    coded(call, |dcs, acs| {
        encoder::encode_slice(
            p0,
            p1,
            p2,
            p3,
            call.four(),
            call.settings(),
            dcs,
            acs,
            call.positions(),
        )
    })
}

// By the call that the record names.
pub fn holds(record: Record<'_>) -> bool {
    let call = Call { record };
    match record.byte(0) {
        0 => plane::<u8>(call, &samples(record)),
        1 => plane::<u16>(call, &samples(record)),
        2 => slice::<u8>(call, &samples(record)),
        _ => slice::<u16>(call, &samples(record)),
    }
}
