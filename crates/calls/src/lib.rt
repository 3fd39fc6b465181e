// What the calls on planes and slices are given, as records by value; and the definitions of what they are asked, of a plane's
// two streams, of previews, reports and sizes.
#![tactic(auto)]

ghost use Rattle.std.specs.Prelude.{◌≡◌, ◌<◌, length, take};
ghost use Rattle.calls.specs.Arguments.{buffers, lengths_of};
ghost use Rattle.calls.specs.Views.{stride_by, positions_by, lengths_by, starts_by};

// How coefficients are quantised and DCs are coded.
#[derive(Clone, Copy, Debug, PartialEq, Eq, Hash)]
pub struct Settings {
    pub preset: usize,
    pub shift: u32,
}

// A plane's place in its picture, and the samples of a row.
#[derive(Clone, Copy, Debug, PartialEq, Eq, Hash)]
pub struct Shape {
    pub place: usize,
    pub stride: usize,
}

// The first `count` of four planes, by the samples of a row of each.
#[derive(Clone, Copy, Debug, PartialEq, Eq, Hash)]
pub struct Four {
    pub count: usize,
    pub strides: [usize; 4],
}

impl Four {
    // Those of the planes that are meant; a count above 4 means all four.
    pub fn strides(&self) -> &[usize]
        ensures { result.now ≡ take self.now.count self.now.strides }
    {
        &self.strides[..self.count.min(4)]
    }

    // Of one plane: its place is its index.
    pub fn shape(self, place: usize) -> Shape
        requires { place < 4 }
        ensures { (result.place ≡ place) × (result.stride ≡ stride_by self place) }
    {
        Shape {
            place,
            stride: self.strides[place],
        }
    }
}

// A position in each of the two streams.
#[derive(Clone, Copy, Debug, PartialEq, Eq, Hash)]
pub struct Positions {
    pub dc: usize,
    pub ac: usize,
}

// A stream by its length and the position at which a call starts in it.
#[derive(Clone, Copy, Debug, PartialEq, Eq, Hash)]
pub struct Stream {
    pub len: usize,
    pub at: usize,
}

impl Stream {
    // Of these bytes, from the byte `at` on.
    pub fn of(bytes: &[u8], at: usize) -> Stream
        ensures { (result.len ≡ length bytes.now) × (result.at ≡ at) }
    {
        Stream {
            len: bytes.len(),
            at,
        }
    }
}

// Both streams of a call.
#[derive(Clone, Copy, Debug, PartialEq, Eq, Hash)]
pub struct Streams {
    pub dc: Stream,
    pub ac: Stream,
}

impl Streams {
    // Of the bytes of both, each from its position on.
    pub fn of(dc: &[u8], ac: &[u8], at: Positions) -> Streams
        ensures lengths { lengths_by result ≡ lengths_of (buffers dc.now ac.now) }
        ensures starts { starts_by result ≡ positions_by at }
    {
        Streams {
            dc: Stream::of(dc, at.dc),
            ac: Stream::of(ac, at.ac),
        }
    }
}
