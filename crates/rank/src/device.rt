// The latest REF, MRS, ZQ, SRE, SRX, DLL reset, change of CKE and exits, and the registers, after a seldom command.
ghost use Rattle.std.specs.Prelude.{◌≡◌, ◌≤◌, ◌<◌, Bool, set};
ghost use Rattle.chip.specs.declared.Chip.{Chip};
ghost use Rattle.records.specs.declared.Command.TheVariants.{Mrs};
ghost use Rattle.edges.specs.Next as next;
ghost use Rattle.edges.specs.Ways as ways;

use crate::changes::resets;
use chip::Chip;
use edges::Device;
use records::{Command, Record};

// The places of the latest REF, MRS, ZQ, SRE, SRX, DLL reset, change of CKE, power-down exit, and slow one.
pub(crate) const REF: usize = 0;

pub(crate) const MRS: usize = 1;

pub(crate) const ZQ: usize = 2;

pub(crate) const SRE: usize = 3;

pub(crate) const SRX: usize = 4;

pub(crate) const DLL: usize = 5;

pub(crate) const CKE: usize = 6;

pub(crate) const PDX: usize = 7;

pub(crate) const SLOW: usize = 8;

// The latest event of a place: its edge, its number, and the clocks that it asks for.
fn stamp(device: &mut Device, x: usize, e: u64, n: u32, k: u32)
    requires { x < 9 }
    ensures { device.new ≡ record device.old { at = set device.old.at x e; no = set device.old.no x n; need = set device.old.need x k } }
{
    device.at[x] = e;
    device.no[x] = n;
    device.need[x] = k;
}

#[tactic(auto, unfolding(edges::specs::Next::device_next))]
fn moded(device: &mut Device, r: Record, e: u64, n: u32)
    ensures { (C : Chip) (slow : Bool) → device.new ≡ next.device_next C Mrs r e n slow device.old }
{
    let i = (r.bank % 8 % 4) as usize;
    stamp(device, MRS, e, n, 4);
    device.codes[i] = r.a;
    device.written[i] = true;
    if resets(r) {
        stamp(device, DLL, e, n, 512);
    }
}

// k: what the command asks for; slow: an exit is one of precharge power-down with MR0 A12 = 0.
#[tactic(auto, unfolding(edges::specs::Next::device_next))]
pub(crate) fn device_next(
    device: &mut Device,
    chip: Chip,
    c: Command,
    r: Record,
    e: u64,
    n: u32,
    k: u32,
    slow: bool,
)
    requires tcke { chip.tcke ≤ 70000000 }
    requires asked { k ≡ ways.asked_by chip c r }
    ensures { device.new ≡ next.device_next chip c r e n slow device.old }
{
    match c {
        Command::Mrs => moded(device, r, e, n),
        Command::Ref => stamp(device, REF, e, n, k),
        Command::Zq => stamp(device, ZQ, e, n, k),
        Command::Sre => {
            stamp(device, SRE, e, n, chip.tcke + 1);
            stamp(device, CKE, e, n, chip.tcke)
        }
        Command::Srx => {
            stamp(device, SRX, e, n, k);
            stamp(device, CKE, e, n, chip.tcke)
        }
        Command::Pde => stamp(device, CKE, e, n, chip.tcke),
        Command::Pdx => {
            stamp(device, CKE, e, n, chip.tcke);
            stamp(device, PDX, e, n, k);
            if slow {
                stamp(device, SLOW, e, n, chip.txpdll);
            }
        }
        Command::Pre | Command::Act | Command::Wr | Command::Rd => {}
        Command::Nop | Command::Des | Command::Low | Command::Bad => {}
    }
}
