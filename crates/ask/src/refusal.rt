// What a call is refused with: the question that was answered "no".
ghost use Rattle.std.specs.Prelude.{◌≡◌};
ghost use Rattle.ask.specs.Ask.{or_else};
ghost use Rattle.ask.specs.Refusals.{number_of, given};

// Each question by what a "no" says, and its number; 0 is accepted.
#[derive(Clone, Copy, Debug, PartialEq, Eq, Hash)]
pub enum Refusal {
    Preset = 1,
    Shift = 2,
    Plane = 3,
    Stride = 4,
    Rows = 5,
    Room = 6,
    Start = 7,
    Code = 8,
    Size = 9,
    Bytes = 10,
    Format = 11,
    Count = 12,
    Limit = 13,
    Turn = 14,
}

impl Refusal {
    // The question's number.
    pub fn number(self) -> u32
        ensures { result ≡ number_of self }
    {
        self as u32
    }
}

// A question: nothing where it is answered yes, else what the call is refused with.
pub fn ask(yes: bool, no: Refusal) -> Result<(), Refusal>
    ensures { given result ≡ or_else yes (number_of no) 0 }
{
    if yes {
        return Ok(());
    }
    Err(no)
}

// The number of what a call's questions gave, 0 where all are answered yes.
pub fn number_given(asked: Result<(), Refusal>) -> u32
    ensures { result ≡ given asked }
{
    match asked {
        Ok(()) => 0,
        Err(no) => no.number(),
    }
}
