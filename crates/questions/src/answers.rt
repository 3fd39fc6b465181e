// What the calls on planes and slices answer: what they are refused with, or where the streams end.
ghost use Rattle.std.specs.Prelude.{◌≡◌};
ghost use Rattle.ask.specs.Refusals.{given};
ghost use Rattle.questions.specs.answers.Refusing.{given_at, start_in};

use ask::Refusal;
use calls::Positions;

// Of a call that was refused: the first "no", and the positions of both streams as they were given.
#[derive(Clone, Copy, Debug, PartialEq, Eq, Hash)]
pub struct Refused {
    pub no: Refusal,
    pub start: Positions,
}

// A length for each of the two streams.
#[derive(Clone, Copy, Debug, PartialEq, Eq, Hash)]
pub struct Lengths {
    pub dc: usize,
    pub ac: usize,
}

// What a call's questions gave, with the positions that it hands back where it is refused.
pub fn refused_at(asked: Result<(), Refusal>, start: Positions) -> Result<(), Refused>
    ensures { (given_at result ≡ given asked) × (start_in start result ≡ start) }
{
    asked.map_err(|no| Refused { no, start })
}
