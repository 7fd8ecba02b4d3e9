// The part that is judged: a header's clock counts as plain numbers, worked out once, and what the registers in force set.
#![tactic(auto)]

mod latencies;
mod part;

use header::Header;
pub use latencies::{al_of, b_of, cl_of, cwl_of, h_of, wr_of};
pub use part::chip_of;

// most: greatest t_ras. nine: nine times t_refi, which rules 28 and 31 ask for.
#[derive(Clone, Copy)]
pub struct Chip {
    pub header: Header,
    pub trcd: u32,
    pub trp: u32,
    pub trc: u32,
    pub tras: u32,
    pub trrd: u32,
    pub tfaw: u32,
    pub tcke: u32,
    pub trtp: u32,
    pub twtr: u32,
    pub twr: u32,
    pub tmod: u32,
    pub trfc: u32,
    pub txs: u32,
    pub zqlong: u32,
    pub zqshort: u32,
    pub most: u32,
    pub trefi: u32,
    pub txp: u32,
    pub txpdll: u32,
    pub nine: u32,
}

// The codes last written to the mode registers; 0 where there is none.
#[derive(Clone, Copy)]
pub struct Regs {
    pub mr0: u16,
    pub mr1: u16,
    pub mr2: u16,
    pub mr3: u16,
}
