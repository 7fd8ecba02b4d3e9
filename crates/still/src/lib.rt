// A rank at rest: before its first record, its ranges, its registers and the verdict so far. Nothing here adds clocks to an edge, so nothing asks
// ranges of its callers.
#![tactic(auto)]

mod opening;
mod ranges;
mod shown;

pub use opening::fresh;
pub use ranges::{in_range, is_small};
pub use shown::{no_end, registers_of, so_far};
