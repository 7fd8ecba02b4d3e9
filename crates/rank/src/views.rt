// What is kept, as the rules ask for it: the marks of a bank, and those that all banks share.
ghost use Rattle.std.specs.Prelude.{◌≡◌, cond, ◌≤◌, ◌<◌, ltb, map, get_or};
ghost use Rattle.std.specs.List.{range_with_len};
ghost use Rattle.edges.specs.Views as views;

use chip::{Chip, Regs};
use edges::{Acts, Banks, Device};
use kept::needing;
use running::{Debt, Kept, Mark, Read, Rests, Shared, Written, Wrote};
use std::array;

// ── A bank ──────────────────────────────────────────────────────────────────────────────────

pub(crate) fn kept_of(chip: Chip, banks: Banks, b: usize) -> Kept
    requires { b < 8 }
    ensures { result ≡ views.kept_of chip banks b }
{
    let i = b + 8;
    let shut = Mark {
        at: banks.shutat[b],
        num: banks.shutno[b],
        need: 0,
    };
    Kept {
        acted: Mark {
            at: banks.actat[b],
            num: banks.actno[b],
            need: banks.actneed[b],
        },
        row: banks.row[b],
        read: Mark {
            at: banks.colat[b],
            num: banks.colno[b],
            need: banks.colpre[b],
        },
        wrote: Mark {
            at: banks.colat[i],
            num: banks.colno[i],
            need: banks.colpre[i],
        },
        shut: needing(chip.trp, shut),
    }
}

pub(crate) fn kepts(chip: Chip, banks: Banks) -> [Kept; 8]
    ensures { result ≡ map (λ b. views.kept_of chip banks b) (range_with_len 0 8) }
{
    array::from_fn(|b| kept_of(chip, banks, b))
}

// ── All banks ───────────────────────────────────────────────────────────────────────────────

// The place of the greatest number, of the eight from a place on.
fn latest(nums: [u32; 16], from: usize) -> usize
    requires { from ≤ 8 }
    ensures value { result ≡ views.latest_from nums from 7 }
    ensures upper_bound { result < 16 }
{
    let mut best = from;
    for i in 0..7 {
        best = later(nums, best, from + (i + 1));
    }
    best
}

fn later(nums: [u32; 16], x: usize, y: usize) -> usize
    requires x_bound { x < 16 }
    requires y_bound { y < 16 }
    ensures value { result ≡ cond (ltb (get_or nums x 0) (get_or nums y 0)) y x }
    ensures upper_bound { result < 16 }
{
    if nums[x] < nums[y] {
        return y;
    }
    x
}

// The bank of the greatest start, of equals that of the later record.
fn last_start(at: [u64; 8], nums: [u32; 8]) -> usize
    ensures value { result ≡ views.last_start at nums 7 }
    ensures upper_bound { result < 8 }
{
    let mut best: usize = 0;
    for i in 0..7 {
        best = later_start(at, nums, best, i + 1);
    }
    best
}

fn later_start(at: [u64; 8], nums: [u32; 8], x: usize, b: usize) -> usize
    requires x_bound { x < 8 }
    requires b_bound { b < 8 }
    ensures value { result ≡ cond (views.starts_after at nums x b) b x }
    ensures upper_bound { result < 8 }
{
    let was = at[x];
    let is = at[b];
    if (was < is) | ((was == is) & (nums[x] < nums[b])) {
        return b;
    }
    x
}

fn read_of(banks: Banks) -> Read
    ensures { result ≡ views.read_of banks }
{
    let i = latest(banks.colno, 0);
    Read {
        at: banks.colat[i],
        num: banks.colno[i],
        n10: banks.colpre[i],
        n13: banks.colturn[i],
        n19: banks.colout[i],
    }
}

fn wrote_of(banks: Banks) -> Wrote
    ensures { result ≡ views.wrote_of banks }
{
    let i = latest(banks.colno, 8);
    Wrote {
        at: banks.colat[i],
        num: banks.colno[i],
        n11: banks.colpre[i],
        n14: banks.colturn[i],
    }
}

fn shut_of(chip: Chip, banks: Banks) -> Mark
    ensures { result ≡ views.shut_of chip banks }
{
    let b = last_start(banks.shutat, banks.shutno);
    needing(
        chip.trp,
        Mark {
            at: banks.shutat[b],
            num: banks.shutno[b],
            need: 0,
        },
    )
}

// The ACT that has n after it.
fn act_back(chip: Chip, acts: Acts, n: u64) -> Mark
    requires turn_bound { acts.turn ≤ 3 }
    requires n_bound { n ≤ 3 }
    ensures { result ≡ views.act_back chip acts n }
{
    let i = ((acts.turn + (3 - n)) % 4) as usize;
    needing(
        chip.tras,
        Mark {
            at: acts.at[i],
            num: acts.no[i],
            need: 0,
        },
    )
}

// ── The device ──────────────────────────────────────────────────────────────────────────────

fn device_mark(device: Device, i: usize) -> Mark
    requires { i < 9 }
    ensures { result ≡ views.device_mark device i }
{
    Mark {
        at: device.at[i],
        num: device.no[i],
        need: device.need[i],
    }
}

fn rests_of(device: Device) -> Rests
    ensures { result ≡ views.rests_of device }
{
    Rests {
        refreshed: device_mark(device, 0),
        tuned: device_mark(device, 2),
        reset: reset_of(device_mark(device, 4), device_mark(device, 5)),
        woke: device_mark(device, 4),
        slept: device_mark(device, 3),
        turned: device_mark(device, 6),
        left: device_mark(device, 7),
        slow: device_mark(device, 8),
    }
}

// Rule 20 counts from the later of an SRX and a DLL reset.
fn reset_of(srx: Mark, dll: Mark) -> Mark
    ensures { result ≡ cond (ltb dll.num srx.num) (record { at = srx.at; num = srx.num; need = 512 }) dll }
{
    if dll.num < srx.num {
        return Mark {
            at: srx.at,
            num: srx.num,
            need: 512,
        };
    }
    dll
}

pub(crate) fn written_of(device: Device) -> Written
    ensures { result ≡ views.written_of device }
{
    let w = device.written;
    Written {
        w0: w[0],
        w1: w[1],
        w2: w[2],
        w3: w[3],
        dll: device.no[5] != 0,
    }
}

pub(crate) fn regs_of(device: Device) -> Regs
    ensures { result ≡ views.regs_of device }
{
    let codes = device.codes;
    Regs {
        mr0: codes[0],
        mr1: codes[1],
        mr2: codes[2],
        mr3: codes[3],
    }
}

// What rules 4 to 30 look at; now, level and debt they do not.
pub(crate) fn shared_of(chip: Chip, banks: Banks, acts: Acts, device: Device) -> Shared
    requires { acts.turn ≤ 3 }
    ensures { result ≡ views.shared_of chip banks acts device }
{
    let last = [
        act_back(chip, acts, 0),
        act_back(chip, acts, 1),
        act_back(chip, acts, 2),
        act_back(chip, acts, 3),
    ];
    Shared {
        now: 0,
        level: true,
        acts: last,
        rests: rests_of(device),
        debt: Debt {
            sleeps: false,
            phase: 0,
            owed: 0,
            gap: 0,
        },
        regs: regs_of(device),
        written: written_of(device),
        read: read_of(banks),
        wrote: wrote_of(banks),
        mrs: device_mark(device, 1),
        shut: shut_of(chip, banks),
    }
}
