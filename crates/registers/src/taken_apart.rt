// The six values of a code, register by register: what register reading writes of it, in its order.
ghost use Rattle.std.specs.Prelude.{◌≡◌};
ghost use Rattle.registers.specs.Reading as reads;

use codes::{cl, cwl, wr};

pub(crate) fn values_of(number: u32, code: u16) -> [u8; 6]
    ensures { result ≡ reads.values_of number code }
{
    if number == 0 {
        return values0(code);
    }
    if number == 1 {
        return values1(code);
    }
    if number == 2 {
        return values2(code);
    }
    [0, 0, 0, 0, 0, 0]
}

fn values0(code: u16) -> [u8; 6]
    ensures { result ≡ reads.values0 code }
{
    [
        (code % 4) as u8,
        (code / 8 % 2) as u8,
        cl(code),
        (code / 256 % 2) as u8,
        wr(code),
        (code / 4096 % 2) as u8,
    ]
}

fn values1(code: u16) -> [u8; 6]
    ensures { result ≡ reads.values1 code }
{
    [
        (code / 8 % 4) as u8,
        (code / 2 % 2) as u8,
        (code / 512 % 2 * 4 + code / 64 % 2 * 2 + code / 4 % 2) as u8,
        (code / 2048 % 2) as u8,
        (code / 4096 % 2) as u8,
        0,
    ]
}

fn values2(code: u16) -> [u8; 6]
    ensures { result ≡ reads.values2 code }
{
    [
        cwl(code),
        (code / 64 % 2) as u8,
        (code / 128 % 2) as u8,
        (code / 512 % 4) as u8,
        (code % 8) as u8,
        0,
    ]
}
