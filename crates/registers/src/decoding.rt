// A register's code under a header: its values, or the bit that is refused.
ghost use Rattle.registers.specs.Promises.{Decode};

use crate::BadBit;
use crate::permit::bad_bit;
use crate::taken_apart::values_of;
use header::Header;

pub fn decode(h: Header, number: u32, code: u16) -> Result<[u8; 6], BadBit>
    ensures { Decode h number code result }
{
    match bad_bit(h, number, code) {
        None => Ok(values_of(number, code)),
        Some(bit) => Err(BadBit { bit }),
    }
}
