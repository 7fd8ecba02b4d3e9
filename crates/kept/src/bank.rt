// What a bank is at an edge: idle, open or closing.
ghost use Rattle.kept.specs.Promises.{Status};

use answers::Bank;
use running::Kept;

// The bank at an edge after the latest record.
pub fn status(k: Kept, t: u64) -> Bank
    ensures { Status k t result }
{
    if k.shut.num < k.acted.num {
        return Bank::Open {
            at: k.acted.at,
            num: k.acted.num as u64,
            row: k.row as u64,
        };
    }
    if k.shut.at <= t {
        return Bank::Idle;
    }
    Bank::Closing {
        at: k.acted.at,
        num: k.acted.num as u64,
        row: k.row as u64,
    }
}
