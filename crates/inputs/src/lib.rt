// What a program is given: its arguments' bytes, and the files that they name.
#![tactic(auto)]

ghost use Rattle.std.specs.Prelude.{◌≡◌, IsNone};
ghost use Rattle.io.specs.Counts.{IsPrefixLen};

use std::env::{Env, FillError};
use std::fs::File;
use std::io::Read;
use std::os::fd::AsRawFd;
use std::str;

// How many arguments there are, the program's own name among them.
pub fn count(rt: &HostRuntime) -> usize {
    let mut none = [0u8; 0];
    for i in 0..usize::MAX {
        if matches!(rt.arg(i, &mut none), Err(FillError::NotPresent)) {
            return i;
        }
    }
    usize::MAX
}

// Puts an argument at the start of buf and returns its length, or 0 where it is missing or longer than buf.
pub fn read(rt: &HostRuntime, i: usize, buf: &mut [u8]) -> usize
    ensures { IsPrefixLen result buf.new }
{
    match rt.arg(i, buf) {
        Ok(n) => n,
        Err(_) => 0,
    }
}

// Is the argument this word, of 19 bytes at most?
pub fn is(rt: &HostRuntime, i: usize, word: &[u8]) -> bool {
    let mut said = [0u8; 20];
    let n = read(rt, i, &mut said);
    &said[..n] == word
}

// The file that an argument names, where it can be opened for reading. A name that is not UTF-8 names none.
pub fn open(rt: &HostRuntime, i: usize) -> Option<File> {
    let mut path = io::buffer();
    let n = read(rt, i, &mut path);
    let name = str::from_utf8(&path[..n]).ok()?;
    File::open(rt, name).ok()
}

// Reads until buf is full, the file ends or a read fails, and returns how many bytes it put at the start of buf; of no file none.
pub fn fill(file: &Option<File>, buf: &mut [u8]) -> usize
    ensures prefix { IsPrefixLen result buf.new }
    ensures none { IsNone file.now → (result ≡ 0) × (buf.new ≡ buf.old) }
{
    match file {
        Some(f) => io::read_full(f.as_raw_fd(), buf),
        None => 0,
    }
}

// Does the file end here? A read that fails is no end.
pub fn ends(file: &Option<File>) -> bool {
    let Some(f) = file else {
        return false;
    };
    let mut next = [0u8; 1];
    let mut reader: &File = f;
    matches!(reader.read(&mut next), Ok(0))
}
