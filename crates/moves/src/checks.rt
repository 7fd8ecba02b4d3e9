// The checks of a move but for 9: 1, 2, 3, 4 of the header, then 5, 7, 6, 14, 13 over all sections.
ghost use Rattle.std.specs.Prelude.{◌≡◌};
ghost use Rattle.moves.specs.Check.{start_of, seen_by};
ghost use Rattle.moves.specs.Promises.{Begun, Over, Refusal};

use crate::Check;
use wide::Seen;

impl Check {
    // A recording's header, or as many of its bytes as there are.
    pub fn begun(header: &[u8], edition: u64) -> Check
        ensures { Begun header.now edition result }
    {
        match header::parse(header, edition) {
            Ok(_) => Check::start(edition, 0),
            Err(refused) => Check::start(edition, refused.number()),
        }
    }

    // Behind a header that was refused by this number; 0: it was taken.
    pub(crate) fn start(edition: u64, refused: u32) -> Check
        ensures { result ≡ start_of edition refused }
    {
        let none = Seen {
            zero: false,
            spare: false,
            stays: false,
        };
        Check {
            edition: edition,
            refused: refused,
            bytes: 0,
            seen: none,
        }
    }

    // A section more. Bytes behind its last whole record are counted and not looked at.
    pub fn over(self, bytes: &[u8]) -> Check
        ensures { Over self bytes.now result }
    {
        let seen = seen_by(self.edition, self.seen, bytes);
        Check {
            edition: self.edition,
            refused: self.refused,
            bytes: std::num::wrapping_add_u64(self.bytes, bytes.len() as u64),
            seen: seen,
        }
    }

    // The first check that fails, or 0.
    pub fn refusal(self) -> u32
        ensures { Refusal self result }
    {
        if self.refused != 0 {
            return self.refused;
        }
        refusals::code(self.behind())
    }
}

fn seen_by(edition: u64, s: Seen, bytes: &[u8]) -> Seen
    ensures { result ≡ seen_by edition s bytes.now }
{
    if edition == 1 {
        return Seen {
            zero: s.zero | wide::step_of_zero(bytes),
            spare: s.spare,
            stays: s.stays,
        };
    }
    wide::seen_in(s, bytes)
}
