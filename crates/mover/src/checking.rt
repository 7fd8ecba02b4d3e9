// The first reading: what a whole recording is refused for. However it is cut into sections, that is what `moves` refuses it for (moves/proofs,
// Sections), but for 9.
use crate::direction::Direction;
use crate::file;
use crate::file::SECTION;
use crate::trouble::Trouble;
use moves::Check;
use std::fs::File;

// How many bytes of records the recording has.
pub(crate) fn checked(rt: &HostRuntime, way: Direction) -> Result<u64, Trouble> {
    let source = file::opened(rt)?;
    let c = sections(headed(&source, way)?, &source)?;
    match c.refusal() {
        0 => Ok(c.bytes),
        number => Err(Trouble::Refused(number)),
    }
}

fn headed(source: &Option<File>, way: Direction) -> Result<Check, Trouble> {
    let mut space = [0u8; 6];
    let header = file::next(source, &mut space)?;
    Ok(Check::begun(header, way.from()))
}

// Section after section, but none behind a header that is refused. Nothing says that a file ends, so the turns have a bound that no run comes to.
fn sections(start: Check, source: &Option<File>) -> Result<Check, Trouble> {
    let mut c = start;
    if c.refused != 0 {
        return Ok(c);
    }
    for _ in 0..u64::MAX {
        let mut space = [0u8; SECTION];
        let section = file::next(source, &mut space)?;
        c = c.over(section);
        if section.len() < SECTION {
            break;
        }
    }
    Ok(c)
}
