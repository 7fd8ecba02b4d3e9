// What is said of an edge: which deadline is the sooner, and the verdict.
#![tactic(auto)]

mod deadlines;
mod says;

pub use deadlines::{late_by, sooner, soonest, why};
pub use says::{clean_at, first, late_at, none, verdict_at};
