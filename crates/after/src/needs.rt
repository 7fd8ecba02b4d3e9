// The clocks that a record needs, by the registers in force at it.
ghost use Rattle.std.specs.Prelude.{◌≡◌, ◌-◌};
ghost use Rattle.after.specs.Promises.{Need4, Need13, Need19};

use chip::Regs;

pub fn need4(trcd: u32, al: u32) -> u32
    ensures { Need4 trcd al result }
{
    if al < trcd {
        return trcd - al;
    }
    1
}

pub fn need13(g: Regs, a: u16) -> u32
    ensures { Need13 g a result }
{
    less(chip::cl_of(g) + 2 + chip::b_of(g, a), chip::cwl_of(g))
}

pub fn need19(g: Regs, a: u16) -> u32
    ensures { Need19 g a result }
{
    chip::al_of(g) + chip::cl_of(g) + chip::b_of(g, a)
}

fn less(a: u32, b: u32) -> u32
    ensures { result ≡ a - b }
{
    if b < a {
        return a - b;
    }
    0
}
