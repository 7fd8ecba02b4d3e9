// One rank of the running judge: the loop over a section's records, and its end.
#![tactic(auto)]

mod asked;
mod asking;
mod banks;
mod changes;
mod clearing;
mod clocks;
mod closing;
mod coming;
mod counting;
mod deadlines;
mod device;
mod entering;
mod fold;
mod lane;
mod latest;
mod moved;
mod numbers;
mod owing;
mod passing;
mod placed;
mod quick;
mod said;
mod seldom;
mod slow;
mod smooth;
mod taking;
mod views;
mod waiting;
mod ways;

pub use closing::end;
pub use taking::take;
