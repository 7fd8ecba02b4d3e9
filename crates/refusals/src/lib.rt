// What a call refuses, and the number that each refusal goes by in C and in the lines that the programs print.
#![tactic(auto)]

ghost use Rattle.refusals.specs.Promises.{Number, Code};

// README.md's table of refusals has a row for each.
#[derive(Clone, Copy, Debug, PartialEq, Eq)]
pub enum Refusal {
    HeaderLength,
    Edition,
    ZeroField,
    Period,
    CutShort,
    ZeroStep,
    TooMany,
    EndEdge,
    Room,
    Burst,
    // With the bit that is refused.
    Register(u8),
    NoWayBack,
    ZeroBits,
    State,
}

impl Refusal {
    pub fn number(self) -> u32
        ensures { Number self result }
    {
        match self {
            Refusal::HeaderLength => 1,
            Refusal::Edition => 2,
            Refusal::ZeroField => 3,
            Refusal::Period => 4,
            Refusal::CutShort => 5,
            Refusal::ZeroStep => 6,
            Refusal::TooMany => 7,
            Refusal::EndEdge => 8,
            Refusal::Room => 9,
            Refusal::Burst => 10,
            Refusal::Register(bit) => 11 + 256 * bit as u32,
            Refusal::NoWayBack => 13,
            Refusal::ZeroBits => 14,
            Refusal::State => 17,
        }
    }
}

// What C is told of a call: 0 where it did what was asked, else the refusal's number.
pub fn code(done: Result<(), Refusal>) -> u32
    ensures { Code done result }
{
    match done {
        Ok(()) => 0,
        Err(refusal) => refusal.number(),
    }
}
