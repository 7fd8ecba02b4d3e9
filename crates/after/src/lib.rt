// The clocks that a record needs of later ones.
#![tactic(auto)]

mod needs;

pub use needs::{need4, need13, need19};
