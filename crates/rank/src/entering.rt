// May a power-down entry come? The latest MRS, and the latest RD and WR of each bank, have no more to ask of it.
ghost use Rattle.std.specs.Prelude.{true, cond, ◌≡◌, ℕ, ◌-◌, ◌<◌, eqb, leb};
ghost use Rattle.running.specs.Down as down;
ghost use Rattle.edges.specs.Views.{regs_by};
ghost use Rattle.edges.specs.Seldom as seldom;

use crate::clocks::regs_of;
use crate::device::MRS;
use crate::numbers::either;
use chip::{al_of, cl_of, cwl_of, h_of, wr_of};
use edges::{Banks, Device};
use kept::since;

// Of a RD, record n; k: what one asks by the registers in force; mrs: the latest MRS.
fn read_over(k: u32, mrs: u32, n: u32, at: u64, e: u64) -> bool
    ensures { result ≡ leb (down.read_asks k mrs n) (e - at) }
{
    either(mrs < n, k, 0) as u64 <= since(e, at)
}

// Of a WR; k: what one with auto precharge asks; shut: the record that closed its bank.
fn write_over(k: u32, mrs: u32, shut: u32, n: u32, plain: u32, at: u64, e: u64) -> bool
    ensures { result ≡ leb (down.write_asks k mrs shut n plain) (e - at) }
{
    either(shut == n, either(mrs < n, k, 0), plain) as u64 <= since(e, at)
}

fn columns_over(banks: &Banks, k: u32, l: u32, mrs: u32, e: u64) -> bool
    ensures { result ≡ true → (b : ℕ) → b < 8 → seldom.Over k l mrs e banks.now b }
{
    (0..8).all(|b| {
        let i = b + 8;
        read_over(k, mrs, banks.colno[b], banks.colat[b], e)
            & write_over(
                l,
                mrs,
                banks.shutno[b],
                banks.colno[i],
                banks.colpre[i],
                banks.colat[i],
                e,
            )
    })
}

// The clocks that an MRS, a RD and a WR with auto precharge ask for, by the registers in force.
#[derive(Clone, Copy)]
struct Entry {
    set: u32,
    read: u32,
    auto: u32,
}

fn entry_of(tmod: u32, mrs: u32, codes: [u16; 4]) -> Entry
    ensures set_value { result.set ≡ cond (eqb mrs 0) 0 tmod }
    ensures read_value { result.read ≡ down.of_read (regs_by codes) }
    ensures auto_value { result.auto ≡ down.of_auto (regs_by codes) }
{
    let g = regs_of(codes);
    let al = al_of(g);
    Entry {
        set: either(mrs == 0, 0, tmod),
        read: al + cl_of(g) + 5,
        auto: al + cwl_of(g) + h_of(g) + wr_of(g) + 1,
    }
}

pub(crate) fn may_enter(banks: &Banks, device: &Device, tmod: u32, e: u64) -> bool
    ensures { result ≡ true → seldom.Entered tmod e banks.now device.now }
{
    let mrs = device.no[MRS];
    let asked = entry_of(tmod, mrs, device.codes);
    (asked.set as u64 <= since(e, device.at[MRS]))
        && columns_over(banks, asked.read, asked.auto, mrs, e)
}
