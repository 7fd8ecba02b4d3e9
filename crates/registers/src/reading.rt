// Register reading: a header, a register's number and a code to six bytes.
ghost use Rattle.refusals.specs.Refusals.{number_in};
ghost use Rattle.registers.specs.Promises.{Read};

use crate::decoding::decode;
use refusals::Refusal;

// Checks 9, 1, 2, 3, 4, 11 in this order; then writes six bytes. A refusal writes nothing.
pub fn read(header: &[u8], number: u32, code: u16, out: &mut [u8]) -> Result<(), Refusal>
    ensures { Read header.now number code out.old (number_in result) out.new }
{
    if out.len() < 6 {
        return Err(Refusal::Room);
    }
    let h = header::parse(header, 1)?;
    let six = decode(h, number, code)?;
    out[..6].copy_from_slice(&six);
    Ok(())
}
