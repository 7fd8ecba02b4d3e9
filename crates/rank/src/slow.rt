// Is an exit one of precharge power-down with MR0 A12 = 0? Since the entry no bank was opened or closed.
ghost use Rattle.std.specs.Prelude.{true, false, not, ◌&&◌, ◌≡◌, ltb, get_or};
ghost use Rattle.laws.specs.Any.{any_of};
ghost use Rattle.codes.specs.Codes.{set};
ghost use Rattle.records.specs.declared.Command.TheVariants.{Pdx};
ghost use Rattle.records.specs.Command.{is_a};
ghost use Rattle.edges.specs.Next.{slow_now};

use edges::Rank;
use records::Command;

// Is a bank open? By `for`: with `any` the check did not find it equal to `any_of`.
fn any_open(actno: [u32; 8], shutno: [u32; 8]) -> bool
    ensures { result ≡ any_of (λ b. ltb (get_or shutno b 0) (get_or actno b 0)) 8 }
{
    let mut open = false;
    for b in 0..8 {
        open = open | (shutno[b] < actno[b]);
    }
    open
}

pub(crate) fn slow_now(
    actno: [u32; 8],
    shutno: [u32; 8],
    codes: [u16; 4],
    written: [bool; 4],
) -> bool
    ensures { result ≡ get_or written 0 false && (not (set (get_or codes 0 0) 12) && not (any_of (λ b. ltb (get_or shutno b 0) (get_or actno b 0)) 8)) }
{
    written[0] & (!(codes[0] / 4096 % 2 == 1) & !any_open(actno, shutno))
}

// Worked out where it is asked for.
pub(crate) fn slow_exit(c: Command, s: &Rank) -> bool
    ensures { is_a Pdx c ≡ true → result ≡ slow_now s.now.banks s.now.device }
{
    match c {
        Command::Pdx => slow_now(
            s.banks.actno,
            s.banks.shutno,
            s.device.codes,
            s.device.written,
        ),
        _ => false,
    }
}
