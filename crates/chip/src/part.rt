// Here `Clocks` become plain numbers, of 32 bits: no count is above 80,000,000.
ghost use Rattle.std.specs.Prelude.{◌≡◌, ◌≤◌};
ghost use Rattle.chip.specs.Promises.{ChipOf};

use crate::Chip;
use header::Header;
use units::Clocks;

pub fn chip_of(h: Header) -> Chip
    ensures { ChipOf h result }
{
    Chip {
        header: h,
        trcd: plain(h.trcd()),
        trp: plain(h.trp()),
        trc: plain(h.trc()),
        tras: plain(h.tras()),
        trrd: plain(h.trrd()),
        tfaw: plain(h.tfaw()),
        tcke: plain(h.tcke()),
        trtp: plain(h.trtp()),
        twtr: plain(h.twtr()),
        twr: plain(h.twr()),
        tmod: plain(h.tmod()),
        trfc: plain(h.trfc()),
        txs: plain(h.txs()),
        zqlong: plain(h.zqlong()),
        zqshort: plain(h.zqshort()),
        most: plain(h.mostras()),
        trefi: plain(h.trefi()),
        txp: plain(h.txp()),
        txpdll: plain(h.txpdll()),
        nine: plain(h.ninerefi()),
    }
}

fn plain(c: Clocks) -> u32
    requires { c.clocks ≤ 80000000 }
    ensures { result ≡ c.clocks }
{
    c.clocks as u32
}
