// May a seldom command come, where no deadline passes? Where this says no it may come all the same.
ghost use Rattle.std.specs.Prelude.{true, ◌≡◌};
ghost use Rattle.edges.specs.Seldom as seldom;

use crate::device::{CKE, REF, SRE, SRX};
use crate::entering::may_enter;
use crate::lane::Lane;
use crate::seldom::{may_all, may_rest, may_set, over};
use chip::Chip;
use records::{Command, Record};

impl Lane {
    pub(crate) fn may(&self, chip: Chip, c: Command, r: Record, e: u64) -> bool
        ensures { result ≡ true → seldom.MayCome chip c r e self.now.floor self.now.rank.banks self.now.rank.waits.pre self.now.rank.waits.holds self.now.rank.device }
    {
        let banks = &self.rank.banks;
        let device = &self.rank.device;
        let holds = &self.rank.waits.holds;
        let f = self.floor;
        match c {
            Command::Mrs => may_rest(banks, f.idle, holds[1], e)
                & may_set(chip.header, r, f.out, e),
            Command::Ref => may_rest(banks, f.idle, holds[0], e),
            Command::Pre => may_all(banks, &self.rank.waits.pre, f.pre, r, e),
            Command::Zq => may_rest(banks, f.idle, holds[2], e),
            Command::Sre => {
                may_rest(banks, f.idle, holds[3], e)
                    & ((f.out <= e) & ((device.no[SRX] <= device.no[REF]) & over(device, CKE, e)))
            }
            Command::Srx => over(device, SRE, e) & over(device, CKE, e),
            Command::Pde => over(device, CKE, e) & may_enter(banks, device, chip.tmod, e),
            Command::Pdx => over(device, CKE, e),
            Command::Nop | Command::Des | Command::Low => true,
            Command::Act | Command::Rd | Command::Wr | Command::Bad => false,
        }
    }
}
