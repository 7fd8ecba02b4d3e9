// Answers the cases that standard input lists: recordings cut into sections. A case is
//
//     1 byte    what to print
//     1 byte    the header's length, at most 8
//     6 bytes   the end edge; all ones: the last record's
//     2 bytes   the number of sections, at most 16,384
//     8 bytes   the header, and zeros behind it
//     4 bytes   for each section: its length, at most 65,536
//     the sections, one after the other
//
// 0 and 1 print one line: the case's first refusal, or its closing. 2, 3 and 4 print a line after each section, its refusal or
// the verdict so far, 4 also one of the 36 waiting times, and then the closing of what was taken. A closing is the verdict's line;
// for 1, 3 and 4 the verdict, its 20 bytes, the banks, the registers and the refresh debt. Of edition 2 each of these is a line a rank, the first
// rank's first; a refusal is one.
#![tactic(auto)]

mod calls;
mod show;

use judge::State;
use refusals::Refusal;

// Standard input, by number.
const STDIN_FILENO: i32 = 0;

// At most so many cases.
const CASES: u64 = 100000;

// What to print: a line after each section, its waiting times too, the whole closing.
#[derive(Clone, Copy)]
struct Print {
    each: bool,
    waits: bool,
    whole: bool,
}

impl From<u8> for Print {
    fn from(n: u8) -> Print {
        Print {
            each: n >= 2,
            waits: n == 4,
            whole: n % 2 == 1 || n == 4,
        }
    }
}

fn main() {
    for _ in 0..CASES {
        if !answered() {
            return;
        }
    }
}

// The next case; false where there is none.
fn answered() -> bool {
    let mut head = [0u8; 18];
    if io::read_full(STDIN_FILENO, &mut head) < 18 {
        return false;
    }
    let [print, length, e0, e1, e2, e3, e4, e5, s0, s1, ..] = head;
    let print = Print::from(print);
    let end = bits::word([e0, e1, e2, e3, e4, e5]);
    let header = &head[10..];
    let start = State::open(&header[..io::count(length as isize, header)]);
    let run = judged(start, print, u16::from_be_bytes([s0, s1]));
    show::close(run, print.whole, end);
    true
}

// The state stands in one place, and each section changes it there: handed on in a Result it would be copied several times a section.
fn judged(start: Result<State, Refusal>, print: Print, sections: u16) -> Result<State, Refusal> {
    let mut space = io::large_buffer();
    let lengths = read(u32::from(sections) * 4, &mut space);
    let mut state = start.unwrap_or(State::unopened());
    let mut refused = start.err();
    for &n in lengths.as_chunks::<4>().0 {
        refused = next(&mut state, refused, print, u32::from_be_bytes(n));
    }
    match refused {
        None => Ok(state),
        Some(refusal) => Err(refusal),
    }
}

// The section that comes next, and what is refused behind it. Its buffer stands in a function of its own, for each is zeroed where its function begins.
fn next(state: &mut State, refused: Option<Refusal>, print: Print, length: u32) -> Option<Refusal> {
    let mut space = io::large_buffer();
    let section = read(length, &mut space);
    if refused.is_some() {
        return refused;
    }
    taken(state, print, section).err()
}

// So many bytes more of standard input, at the front of space.
fn read(length: u32, space: &mut [u8]) -> &[u8] {
    let n = io::count(length as isize, space);
    let k = io::read_full(STDIN_FILENO, &mut space[..n]);
    &space[..k]
}

// Where each section has a line, a refusal is that line, and the state stays.
fn taken(state: &mut State, print: Print, section: &[u8]) -> Result<(), Refusal> {
    let taken = state.section(section);
    if !print.each {
        *state = taken?.state;
        return Ok(());
    }
    match taken {
        Ok(t) => {
            *state = t.state;
            show::verdicts(calls::verdicts(t));
        }
        Err(n) => show::refusal(n),
    }
    if print.waits {
        show::waits(calls::waits(*state));
    }
    Ok(())
}
