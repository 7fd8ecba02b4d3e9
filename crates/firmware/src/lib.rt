// What the logger's C firmware calls, with numbers and byte slices: 0 is success, any other number 01's refusal.
// include/manilaply.h declares these for C.
#![tactic(auto)]

mod whole;

ghost use Rattle.refusals.specs.Refusals.{number_in};
ghost use Rattle.firmware.specs.Calls.{Judge, Register, Burst, Widening, Narrowing};

use refusals::Refusal;
use whole::{judged, needed};

// A whole recording, header and records, closed at the edge end: in out the 20 bytes of the verdict; of edition 2 the 40 of the two ranks'.
#[unsafe(no_mangle)]
pub extern "C" fn manilaply_judge(recording: &[u8], end: u64, out: &mut [u8]) -> u32
    ensures { Judge recording.now end out.old result out.new }
{
    refusals::code(judge(recording, end, out))
}

fn judge(recording: &[u8], end: u64, out: &mut [u8]) -> Result<(), Refusal>
    ensures { Judge recording.now end out.old (number_in result) out.new }
{
    let two = header::edition_for(recording) == 2;
    if out.len() < needed(two) {
        return Err(Refusal::Room);
    }
    let whole = judged(recording, end)?;
    if two {
        return answers::put_verdicts(whole.verdict, whole.second, out);
    }
    answers::put_verdict(whole.verdict, out)
}

// A header, a register's number and a code: six bytes in out, as 01's "Register reading" says.
#[unsafe(no_mangle)]
pub extern "C" fn manilaply_register(header: &[u8], number: u32, code: u16, out: &mut [u8]) -> u32
    ensures { Register header.now number code out.old result out.new }
{
    refusals::code(registers::read(header, number, code, out))
}

// The order of a burst's words, one byte a word, in out.
#[unsafe(no_mangle)]
pub extern "C" fn manilaply_burst(
    length: u32,
    start: u32,
    kind: u32,
    direction: u32,
    out: &mut [u8],
) -> u32
    ensures { Burst length start kind direction out.old result out.new }
{
    refusals::code(bursts::order(length, start, kind, direction, out))
}

// A whole recording of edition 1 moved to edition 2, in out.
#[unsafe(no_mangle)]
pub extern "C" fn manilaply_widen(recording: &[u8], out: &mut [u8]) -> u32
    ensures { Widening recording.now out.old result out.new }
{
    refusals::code(moves::widen(recording, out))
}

// And back, where every record can go back.
#[unsafe(no_mangle)]
pub extern "C" fn manilaply_narrow(recording: &[u8], out: &mut [u8]) -> u32
    ensures { Narrowing recording.now out.old result out.new }
{
    refusals::code(moves::narrow(recording, out))
}
