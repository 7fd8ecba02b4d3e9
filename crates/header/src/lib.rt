// The six header bytes of a recording, the four bins, and the clock counts of a header.
#![tactic(auto)]

mod bins;
mod counts;
mod opening;

pub use opening::{edition_for, parse};
use units::Ps;

#[derive(Clone, Copy)]
pub struct Header {
    // 0 to 3: 1066, 1333, 1600, 1866. A number: the methods answer for any, of which an enum would refuse some.
    pub bin: u8,
    // 2 Gb, else 1 Gb
    pub dense: bool,
    // x16, else x8
    pub wide: bool,
    pub hot: bool,
    pub period: Ps,
}
