// The mode registers MR0 to MR3: which codes a header allows, which field of a code it does not, and register reading.
#![tactic(auto)]

mod decoding;
mod permit;
mod reading;
mod taken_apart;

ghost use Rattle.std.specs.Prelude.{◌≡◌};
ghost use Rattle.refusals.specs.declared.Refusal.TheVariants.{Register};

pub use decoding::decode;
pub use reading::read;
use refusals::Refusal;

// The lowest address bit of a field that is not allowed, 16 above register 3.
#[derive(Clone, Copy, Debug, PartialEq, Eq)]
pub struct BadBit {
    pub bit: u8,
}

impl From<BadBit> for Refusal {
    ghost from_gives = { λ b r. r ≡ Register b.bit };

    fn from(bad: BadBit) -> Refusal {
        Refusal::Register(bad.bit)
    }
}
