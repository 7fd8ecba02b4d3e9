// The clocks that a record needs, by the registers in force at it.
ghost use Rattle.std.specs.Prelude.{◌≡◌, true, false, get_or};
ghost use Rattle.running.specs.Easy as easy;
ghost use Rattle.running.specs.Next as next;
ghost use Rattle.running.specs.Ranges.{Small};
ghost use Rattle.edges.specs.Asks as asks;

use after::{need4, need13, need19};
use chip::{Chip, Regs};
use running::Asks;

pub(crate) fn need10(chip: Chip, g: Regs) -> u32
    requires { Small chip }
    ensures { result ≡ next.need10 chip g }
{
    chip::al_of(g) + chip.trtp
}

pub(crate) fn need11(chip: Chip, g: Regs) -> u32
    requires { Small chip }
    ensures { result ≡ next.need11 chip g }
{
    chip::al_of(g) + chip::cwl_of(g) + chip::h_of(g) + chip.twr
}

pub(crate) fn need14(chip: Chip, g: Regs) -> u32
    requires { Small chip }
    ensures { result ≡ asks.need14 chip g }
{
    chip::cwl_of(g) + chip::h_of(g) + chip.twtr
}

pub(crate) fn asks_of(chip: Chip, g: Regs) -> Asks
    requires { Small chip }
    ensures { easy.Asked chip g result }
{
    let al = chip::al_of(g);
    let cwl = chip::cwl_of(g);
    let h = chip::h_of(g);
    let wr = chip::wr_of(g);
    Asks {
        n4: need4(chip.trcd, al),
        n10: need10(chip, g),
        n11: need11(chip, g),
        n14: need14(chip, g),
        start: al + cwl + h + wr,
        long13: need13(g, 4096),
        short13: need13(g, 0),
        long19: need19(g, 4096),
        short19: need19(g, 0),
    }
}

pub(crate) fn regs_of(codes: [u16; 4]) -> Regs
    ensures { result ≡ record { mr0 = get_or codes 0 0; mr1 = get_or codes 1 0; mr2 = get_or codes 2 0; mr3 = get_or codes 3 0 } }
{
    Regs {
        mr0: codes[0],
        mr1: codes[1],
        mr2: codes[2],
        mr3: codes[3],
    }
}

// w, or what the registers ask now.
pub(crate) fn asks_anew(yes: bool, chip: Chip, codes: &[u16; 4], w: Asks) -> Asks
    requires { Small chip }
    ensures asked { yes ≡ true → easy.Asked chip (record { mr0 = get_or codes.now 0 0; mr1 = get_or codes.now 1 0; mr2 = get_or codes.now 2 0; mr3 = get_or codes.now 3 0 }) result }
    ensures value { yes ≡ false → result ≡ w }
{
    if yes {
        return asks_of(chip, regs_of(*codes));
    }
    w
}
