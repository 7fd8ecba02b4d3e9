// A rank before its first record.
ghost use Rattle.std.specs.Prelude.{◌≡◌};
ghost use Rattle.edges.specs.Ends as ends;
ghost use Rattle.still.specs.Promises.{Fresh};

use edges::{Acts, Banks, Debt, Device, Rank, Waits};
use says::none;

pub fn fresh(level: bool, due: u64, gap: u64) -> Rank
    ensures { Fresh level due gap result }
{
    Rank {
        edge: 0,
        count: 0,
        first: none(),
        level: level,
        debt: Debt {
            sleeps: false,
            due: due,
            gap: gap,
        },
        banks: fresh_banks(),
        waits: fresh_waits(),
        acts: fresh_acts(),
        device: fresh_device(),
    }
}

fn fresh_banks() -> Banks
    ensures { result ≡ ends.fresh_banks }
{
    Banks {
        actat: [0u64; 8],
        actno: [0u32; 8],
        actneed: [0u32; 8],
        row: [0u16; 8],
        colat: [0u64; 16],
        colno: [0u32; 16],
        colpre: [0u32; 16],
        colturn: [0u32; 16],
        colout: [0u32; 16],
        shutat: [0u64; 8],
        shutno: [0u32; 8],
    }
}

fn fresh_waits() -> Waits
    ensures { result ≡ ends.fresh_waits }
{
    Waits {
        act: [0u64; 8],
        col: [0u64; 16],
        pre: [0u64; 8],
        holds: [0u64; 4],
    }
}

fn fresh_acts() -> Acts
    ensures { result ≡ ends.fresh_acts }
{
    Acts {
        at: [0u64; 4],
        no: [0u32; 4],
        turn: 0,
    }
}

fn fresh_device() -> Device
    ensures { result ≡ ends.fresh_device }
{
    Device {
        at: [0u64; 9],
        no: [0u32; 9],
        need: [0u32; 9],
        codes: [0u16; 4],
        written: [false; 4],
    }
}
