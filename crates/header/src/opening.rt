// The six header bytes, bit-packed, most significant first, and the checks 1, 2, 3, 4 of opening.
ghost use Rattle.std.specs.Prelude.{◌≡◌};
ghost use Rattle.header.specs.Bytes.{header_of, fields_of};
ghost use Rattle.header.specs.Promises.{Parse, EditionFor};

use crate::Header;
use crate::bins::least;
use refusals::Refusal;
use units::Ps;

// edition: the one that is asked for.
pub fn parse(bytes: &[u8], edition: u64) -> Result<Header, Refusal>
    ensures { Parse bytes.now edition result }
{
    if bytes.len() != 6 {
        return Err(Refusal::HeaderLength);
    }
    fields(
        bits::word([bytes[0], bytes[1], bytes[2], bytes[3], bytes[4], bytes[5]]),
        edition,
    )
}

// The edition that judging asks for: 2 where the first four bits are 2, else 1.
pub fn edition_for(bytes: &[u8]) -> u64
    ensures { EditionFor bytes.now result }
{
    if bytes.len() == 0 {
        return 1;
    }
    if bytes[0] / 16 == 2 {
        return 2;
    }
    1
}

fn header(w: u64) -> Header
    ensures { result ≡ header_of w }
{
    Header {
        bin: (w / 4398046511104 % 4) as u8,
        dense: w / 2199023255552 % 2 == 1,
        wide: w / 1099511627776 % 2 == 1,
        hot: w / 549755813888 % 2 == 1,
        period: Ps {
            ps: w / 16777216 % 4096,
        },
    }
}

fn fields(w: u64, edition: u64) -> Result<Header, Refusal>
    ensures { result ≡ fields_of edition w }
{
    let bin = (w / 4398046511104 % 4) as u8;
    let period = w / 16777216 % 4096;
    if w / 17592186044416 % 16 != edition {
        return Err(Refusal::Edition);
    }
    if w / 68719476736 % 8 != 0 {
        return Err(Refusal::ZeroField);
    }
    if w % 16777216 != 0 {
        return Err(Refusal::ZeroField);
    }
    if period < least(bin) {
        return Err(Refusal::Period);
    }
    if 3300 < period {
        return Err(Refusal::Period);
    }
    Ok(header(w))
}
