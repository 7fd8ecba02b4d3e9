// The second reading: the moved recording, on standard output.
ghost use Rattle.std.specs.Prelude.{◌≤◌};
ghost use Rattle.io.specs.Counts.{IsPrefixLen};

use crate::direction::Direction;
use crate::file;
use crate::file::SECTION;
use crate::trouble::Trouble;
use std::fs::File;

// Standard output, by number.
const STDOUT_FILENO: i32 = 1;

// The header, and so many bytes of records.
pub(crate) fn write(rt: &HostRuntime, way: Direction, bytes: u64) -> Result<(), Trouble> {
    let source = file::opened(rt)?;
    headed(&source, way)?;
    sections(&source, way, bytes)
}

fn headed(source: &Option<File>, way: Direction) -> Result<(), Trouble> {
    let mut header = [0u8; 6];
    if inputs::fill(source, &mut header) != 6 {
        return Err(Trouble::Unread);
    }
    header[0] = way.to() * 16 + header[0] % 16;
    put(&header)
}

fn sections(source: &Option<File>, way: Direction, bytes: u64) -> Result<(), Trouble> {
    for at in (0..bytes).step_by(SECTION) {
        let n = (bytes - at).min(SECTION as u64);
        section(source, way, n as usize)?;
    }
    Ok(())
}

// n bytes more of records.
fn section(source: &Option<File>, way: Direction, n: usize) -> Result<(), Trouble>
    requires { n ≤ 6000 }
{
    let mut space = [0u8; SECTION];
    if inputs::fill(source, &mut space) < n {
        return Err(Trouble::Unread);
    }
    let mut out = [0u8; 8000];
    let k = moved(way, &space[..n], &mut out);
    put(&out[..k])
}

fn put(bytes: &[u8]) -> Result<(), Trouble> {
    if io::write_all(STDOUT_FILENO, bytes) {
        return Ok(());
    }
    Err(Trouble::Unwritten)
}

// The moved records at the front of out, and how many bytes they take.
fn moved(way: Direction, bytes: &[u8], out: &mut [u8]) -> usize
    ensures { IsPrefixLen result out.new }
{
    match way {
        Direction::Widen => wide::widen_records(bytes, out),
        Direction::Narrow => wide::narrow_records(bytes, false, out).len,
    }
}
