// What a record breaks by what is kept: rules 1 to 23, 26, 27, 29 and 30.
#![tactic(auto)]

mod bank;
mod breaks;
mod down;
mod spaced;
mod spacing;

pub use bank::status;
pub use breaks::{barred, first_barred, joined, or_else, rule3, speaks_of_all};
pub use down::{exit_rules, rule26, rule27};
pub use spaced::{needing, since};
pub use spacing::{last_rules, spacings};
