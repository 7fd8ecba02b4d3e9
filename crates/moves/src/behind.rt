// The checks of what comes behind a header that was taken: 5, 7, 6, 14, 13, over all sections.
ghost use Rattle.std.specs.Prelude.{◌≡◌, if◌then◌else◌, nat_eq, nat_lt};
ghost use Rattle.refusals.specs.Refusals.{number_in};
ghost use Rattle.moves.specs.Moves as defs;
ghost use Rattle.moves.specs.Check.{refusal_of};

use crate::Check;
use refusals::Refusal;
use wide::Seen;

// The records of a recording, at most.
const LIMIT: u64 = 1048576;

impl Check {
    // The first that fails.
    pub(crate) fn behind(self) -> Result<(), Refusal>
        ensures { number_in result ≡ refusal_of (record self { refused = 0 }) }
    {
        let n = self.bytes;
        if self.edition == 1 {
            return counted(n % 6, n / 6, by_seen(self.seen));
        }
        counted(n % 8, n / 8, by_seen(self.seen))
    }
}

// By the bytes behind the last whole record, the number of records, and what is refused of them.
fn counted(over: u64, count: u64, more: Result<(), Refusal>) -> Result<(), Refusal>
    ensures { number_in result ≡ (if nat_eq over 0 then (if nat_lt 1048576 count then 7 else number_in more) else 5) }
{
    if over != 0 {
        return Err(Refusal::CutShort);
    }
    if LIMIT < count {
        return Err(Refusal::TooMany);
    }
    more
}

fn by_seen(s: Seen) -> Result<(), Refusal>
    ensures { number_in result ≡ defs.seen_refusal s }
{
    if s.zero {
        return Err(Refusal::ZeroStep);
    }
    if s.spare {
        return Err(Refusal::ZeroBits);
    }
    if s.stays {
        return Err(Refusal::NoWayBack);
    }
    Ok(())
}
