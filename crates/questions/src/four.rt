// A question about the first `count` of four planes; a count above 4 takes all four.
ghost use Rattle.std.specs.Prelude.{◌≡◌, ◌/◌, ◌^◌, ◌<◌, leb, take, get_or};
ghost use Rattle.ask.specs.Limits.{stride_ok, rows_needed};
ghost use Rattle.calls.specs.Views.{stride_by};
ghost use Rattle.questions.specs.four.Firsts.{of_four, all_of, sum_of};

use calls::Four;

// Question 4.
pub fn strides_ok(f: Four) -> bool
    ensures { result ≡ all_of (take f.count (of_four (λ k. stride_ok (stride_by f k)))) }
{
    f.strides().iter().all(|stride| ask::stride_ok(*stride))
}

// Question 5, of planes whose rows have so many samples.
pub fn rows_ok(f: Four, rows: [usize; 4]) -> bool
    ensures { result ≡ all_of (take f.count (of_four (λ k. leb (rows_needed (stride_by f k)) (get_or rows k 0)))) }
{
    f.strides()
        .iter()
        .zip(rows.iter())
        .all(|(stride, n)| ask::rows_ok(*stride, *n))
}

// The columns of blocks of a plane.
fn column(stride: usize) -> usize
    ensures { (result ≡ stride / 8) × (result < 2 ^ 61) }
{
    stride / 8
}

// The columns of blocks of all planes together.
pub fn columns(f: Four) -> usize
    ensures { result ≡ sum_of (take f.count (of_four (λ k. stride_by f k / 8))) }
{
    f.strides().iter().map(|stride| column(*stride)).sum()
}
