// Picoseconds and clocks, kept apart as the standard keeps ns and nCK: two types of one field each.
// Only the two roundings here turn the one into the other. A period of 0 gives 0 clocks.
#![tactic(auto)]

ghost use Rattle.units.specs.Promises.{Up, Down};

#[derive(Clone, Copy)]
pub struct Ps {
    pub ps: u64,
}

#[derive(Clone, Copy)]
pub struct Clocks {
    pub clocks: u64,
}

impl Ps {
    // A least time: the least number of clocks that is not shorter. Quotient plus one where there is a
    // remainder, so that no sum can wrap.
    pub fn up(self, period: Ps) -> Clocks
        ensures { Up self period result }
    {
        let t = self.ps;
        let p = period.ps;
        if p == 0 {
            return Clocks { clocks: 0 };
        }
        if t % p == 0 {
            return Clocks { clocks: t / p };
        }
        Clocks { clocks: t / p + 1 }
    }

    // A greatest time: the greatest number of clocks that is not longer.
    pub fn down(self, period: Ps) -> Clocks
        ensures { Down self period result }
    {
        let t = self.ps;
        let p = period.ps;
        if p == 0 {
            return Clocks { clocks: 0 };
        }
        Clocks { clocks: t / p }
    }
}
