// A record of a list: where it stands in the recording, and what it is.
ghost use Rattle.std.specs.Prelude.{◌≡◌, if◌then◌else◌, nat_lt};
ghost use Rattle.tally.specs.Promises.{ReachedStart, ReachedNext, ReachedFound};

use crate::{Found, Reached, kind_at, sleeps_after};
use records::Record;

impl Reached {
    // No record yet: CKE is high, and the part awake.
    pub fn start(limit: u64) -> Reached
        ensures { ReachedStart limit result }
    {
        Reached {
            number: 0,
            edge: 0,
            level: true,
            sleeps: false,
            limit: limit,
            before: 0,
        }
    }

    // A record more.
    pub fn next(self, r: Record) -> Reached
        ensures { ReachedNext self r result }
    {
        let number = std::num::wrapping_add_u64(self.number, 1);
        let edge = std::num::wrapping_add_u64(self.edge, r.step);
        Reached {
            number: number,
            edge: edge,
            level: r.cke,
            sleeps: sleeps_after(self.level, self.sleeps, r),
            limit: self.limit,
            before: earlier(edge, self.limit, number, self.before),
        }
    }

    // The record r, behind those that the walk has passed.
    pub fn found(self, r: Record) -> Found
        ensures { ReachedFound self r result }
    {
        let n = self.next(r);
        Found {
            reached: n,
            level: self.level,
            kind: kind_at(self.level, self.sleeps, r),
            fields: r,
        }
    }
}

fn earlier(edge: u64, limit: u64, number: u64, before: u64) -> u64
    ensures { result ≡ (if nat_lt edge limit then number else before) }
{
    if edge < limit {
        return number;
    }
    before
}
