// The clock counts of a header: each time of 01's "Clock counts" in clocks of the header's period.
ghost use Rattle.std.specs.Prelude.{◌≡◌, ◌+◌, ◌<◌, cond};
ghost use Rattle.header.specs.Bins.{time_at};
ghost use Rattle.header.specs.Counts.{row, least, least_or, greatest, t_rcd, t_rp, t_rc, t_ras, t_rrd, t_faw, t_cke, t_rtp, t_wtr, t_wr, t_mrd, t_mod, t_rfc, t_xs, zq_long, zq_short, most_ras, t_refi, t_xp, t_xpdll, nine_refi};
ghost use Rattle.header.specs.Promises.{Counted};

use crate::Header;
use crate::bins::{row, time};
use units::{Clocks, Ps};

impl Header {
    pub fn trcd(self) -> Clocks
        ensures { Counted t_rcd self result }
    {
        core(self, 0)
    }

    pub fn trp(self) -> Clocks
        ensures { Counted t_rp self result }
    {
        core(self, 0)
    }

    pub fn trc(self) -> Clocks
        ensures { Counted t_rc self result }
    {
        core(self, 1)
    }

    pub fn tras(self) -> Clocks
        ensures { Counted t_ras self result }
    {
        core(self, 2)
    }

    pub fn trrd(self) -> Clocks
        ensures { Counted t_rrd self result }
    {
        let time = paged(self, 3);
        least_or(self, time, 4)
    }

    pub fn tfaw(self) -> Clocks
        ensures { Counted t_faw self result }
    {
        let time = paged(self, 5);
        least(self, time)
    }

    pub fn tcke(self) -> Clocks
        ensures { Counted t_cke self result }
    {
        let time = time(self.bin, 7);
        least_or(self, time, 3)
    }

    pub fn trtp(self) -> Clocks
        ensures { Counted t_rtp self result }
    {
        least_or(self, 7500, 4)
    }

    pub fn twtr(self) -> Clocks
        ensures { Counted t_wtr self result }
    {
        least_or(self, 7500, 4)
    }

    pub fn twr(self) -> Clocks
        ensures { Counted t_wr self result }
    {
        least(self, 15000)
    }

    pub fn tmrd(self) -> Clocks
        ensures { Counted t_mrd self result }
    {
        Clocks { clocks: 4 }
    }

    pub fn tmod(self) -> Clocks
        ensures { Counted t_mod self result }
    {
        least_or(self, 15000, 12)
    }

    pub fn trfc(self) -> Clocks
        ensures { Counted t_rfc self result }
    {
        let time = choice(self.dense, 160000, 110000);
        least(self, time)
    }

    // t_rfc + 10000, at least 5.
    pub fn txs(self) -> Clocks
        ensures { Counted t_xs self result }
    {
        let time = choice(self.dense, 160000, 110000);
        least_or(self, time + 10000, 5)
    }

    pub fn zqlong(self) -> Clocks
        ensures { Counted zq_long self result }
    {
        least_or(self, 320000, 256)
    }

    pub fn zqshort(self) -> Clocks
        ensures { Counted zq_short self result }
    {
        least_or(self, 80000, 64)
    }

    pub fn mostras(self) -> Clocks
        ensures { Counted most_ras self result }
    {
        let time = choice(self.hot, 35100000, 70000000);
        greatest(self, time)
    }

    pub fn trefi(self) -> Clocks
        ensures { Counted t_refi self result }
    {
        let time = choice(self.hot, 3900000, 7800000);
        greatest(self, time)
    }

    pub fn txp(self) -> Clocks
        ensures { Counted t_xp self result }
    {
        let time = choice(row(self.bin) == 0, 7500, 6000);
        least_or(self, time, 3)
    }

    pub fn txpdll(self) -> Clocks
        ensures { Counted t_xpdll self result }
    {
        least_or(self, 24000, 10)
    }

    // Nine times tREFI's clocks.
    pub fn ninerefi(self) -> Clocks
        ensures { Counted nine_refi self result }
    {
        let c = self.trefi();
        Clocks {
            clocks: 9 * c.clocks,
        }
    }
}

// A time of the bin's row, rounded up.
fn core(h: Header, column: usize) -> Clocks
    requires { column < 8 }
    ensures { result ≡ least h (time_at column (row h)) }
{
    let time = time(h.bin, column);
    least(h, time)
}

// The time of the 1K page, or that of the 2K page in the next column.
fn paged(h: Header, column: usize) -> u64
    requires { column < 7 }
    ensures { result ≡ cond h.wide (time_at (column + 1) (row h)) (time_at column (row h)) }
{
    if h.wide {
        return time(h.bin, column + 1);
    }
    time(h.bin, column)
}

fn choice(first: bool, a: u64, b: u64) -> u64
    ensures { result ≡ cond first a b }
{
    if first {
        return a;
    }
    b
}

// A least time, rounded up.
fn least(h: Header, time: u64) -> Clocks
    ensures { result ≡ least h time }
{
    let period = h.period;
    Ps { ps: time }.up(period)
}

// A least time, but at least so many clocks.
fn least_or(h: Header, time: u64, floor: u64) -> Clocks
    ensures { result ≡ least_or h time floor }
{
    let c = least(h, time);
    if c.clocks < floor {
        return Clocks { clocks: floor };
    }
    c
}

// A greatest time, rounded down.
fn greatest(h: Header, time: u64) -> Clocks
    ensures { result ≡ greatest h time }
{
    let period = h.period;
    Ps { ps: time }.down(period)
}
