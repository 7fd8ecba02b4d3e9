// What the program makes of the bytes that it reads (01, P8): the header's, a section's, those of a block of sections, and the lines
// that it prints, one a rank.
#![tactic(auto)]

ghost use Rattle.program.specs.Promises.{Begun, Next, Over, Line, SecondLine};

use judge::State;
use lines::ROOM;

// A section's bytes.
pub const SECTION: usize = 6000;

// A block's: ten sections. So much a pipe can hold, so that one call may read it all.
pub const BLOCK: usize = 60000;

// So many sections has a block.
const SECTIONS: usize = 10;

// What was refused (0: nothing), the state, and whether there may be more to read. The refusal is a number, as `over`, `line` and `second_line`
// answer for any.
#[derive(Clone, Copy)]
pub struct Run {
    pub refused: u64,
    pub state: State,
    pub more: bool,
}

// The run after the header's bytes.
pub fn begun(header: &[u8]) -> Run
    ensures { Begun header.now result }
{
    match State::open(header) {
        Ok(state) => Run {
            refused: 0,
            state,
            more: true,
        },
        Err(refused) => Run {
            refused: u64::from(refused.number()),
            state: State::unopened(),
            more: false,
        },
    }
}

// The run after a section's bytes.
pub fn next(state: State, bytes: &[u8]) -> Run
    ensures { Next state bytes.now result }
{
    match state.section(bytes) {
        Ok(taken) => Run {
            refused: 0,
            state: taken.state,
            more: bytes.len() == SECTION,
        },
        Err(refused) => Run {
            refused: u64::from(refused.number()),
            state,
            more: false,
        },
    }
}

// The run after a block's bytes: section after section, ten at most, while there may be more. The last section of a block that is
// not full is not full either, if only because it is empty: behind it there is no more.
pub fn over(start: Run, block: &[u8]) -> Run
    ensures { Over start block.now result }
{
    let mut run = start;
    let mut rest = block;
    for turn in 0..SECTIONS {
        if !run.more {
            return run;
        }
        let (section, behind) = rest.split_at(rest.len().min(SECTION));
        run = next(run.state, section);
        rest = behind;
    }
    run
}

// Puts the line of what was judged at the start of text, and answers how many bytes it takes.
pub fn line(run: Run, text: &mut [u8; ROOM]) -> usize
    ensures { Line run text.old result text.new }
{
    if run.refused != 0 {
        return lines::refusal_line(run.refused, text);
    }
    match run.state.close(run.state.one.edge) {
        Ok(closed) => lines::verdict_line(closed.end.verdict, text),
        Err(refused) => lines::refusal_line(refused.number() as u64, text),
    }
}

// The same of the second rank's line: no byte in edition 1, and none behind a refusal.
pub fn second_line(run: Run, text: &mut [u8; ROOM]) -> usize
    ensures { SecondLine run text.old result text.new }
{
    if (run.refused != 0) | (run.state.edition != 2) {
        return 0;
    }
    match run.state.close(run.state.one.edge) {
        Ok(closed) => lines::verdict_line(closed.second.verdict, text),
        Err(_) => 0,
    }
}
