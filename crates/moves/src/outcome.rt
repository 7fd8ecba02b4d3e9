// The first check that fails, as a refusal.
ghost use Rattle.std.specs.Prelude.{◌≡◌, ◌%◌, if◌then◌else◌, nat_eq, nat_lt};
ghost use Rattle.refusals.specs.Refusals.{number_of, number_in};
ghost use Rattle.moves.specs.Told.{told_of};
ghost use Rattle.moves.specs.Promises.{Outcome};

use crate::Check;
use refusals::Refusal;

impl Check {
    // What `refusal` tells. Only a check made by hand holds a number that is no refusal's; it is refused by 17, as a state out of range is.
    #[tactic(auto, using(crate::proofs::Outcomes::outcome_told))]
    pub fn outcome(self) -> Result<(), Refusal>
        ensures { Outcome self (number_in result) }
    {
        told(self.refusal())
    }
}

// By a number: nothing was refused, or the refusal whose number it is; State for a number of none.
#[tactic(auto, unfolding(crate::specs::Told::is_told))]
fn told(number: u32) -> Result<(), Refusal>
    ensures { number_in result ≡ told_of number }
{
    match number {
        0 => Ok(()),
        1 => Err(Refusal::HeaderLength),
        2 => Err(Refusal::Edition),
        3 => Err(Refusal::ZeroField),
        4 => Err(Refusal::Period),
        5 => Err(Refusal::CutShort),
        6 => Err(Refusal::ZeroStep),
        7 => Err(Refusal::TooMany),
        8 => Err(Refusal::EndEdge),
        9 => Err(Refusal::Room),
        10 => Err(Refusal::Burst),
        13 => Err(Refusal::NoWayBack),
        14 => Err(Refusal::ZeroBits),
        n => Err(eleven(n)),
    }
}

// "11 plus 256 times that bit"
fn eleven(number: u32) -> Refusal
    ensures { number_of result ≡ (if nat_lt number 65536 then (if nat_eq (number % 256) 11 then number else 17) else 17) }
{
    if number >= 65536 {
        return Refusal::State;
    }
    if number % 256 != 11 {
        return Refusal::State;
    }
    Refusal::Register((number / 256) as u8)
}
