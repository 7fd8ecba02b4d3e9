// Judges the recording that standard input holds and prints one line a rank (01, P8): the first refusal, or the verdict at the last
// record's edge. The header is read first, then sections of 6,000 bytes, ten at a time, the last perhaps shorter.
#![tactic(auto)]

ghost use Rattle.std.specs.Prelude.{◌≡◌, length};
ghost use Rattle.verdict.specs.Reading.{Opened, Took, Ran, Judged, Told, ToldSecond};

use judge::State;
use lines::ROOM;
use program::{BLOCK, Run};

// The standard streams, by number.
const STDIN_FILENO: i32 = 0;

const STDOUT_FILENO: i32 = 1;

// A block has 7,500 records at least, those of edition 2: behind so many blocks the limit is passed.
const BLOCKS: u64 = State::LIMIT / 7500 + 1;

fn main() {
    answer(judged());
}

// The run over all of the input.
fn judged() -> Run
    ensures { Judged result }
{
    ran(opened())
}

// Opening, of the bytes that are there.
fn opened() -> Run
    ensures { Opened result }
{
    let mut header = [0u8; 6];
    let n = io::read_full(STDIN_FILENO, &mut header);
    program::begun(&header[..n])
}

// Block after block, up to a refusal or the end of the input. Past the limit there was a refusal, so the loop ends.
fn ran(start: Run) -> Run
    requires { start.state.one.count ≡ 0 }
    ensures { Ran start result }
{
    let mut run = start;
    let mut space = room();
    for turn in 0..BLOCKS {
        if !run.more {
            return run;
        }
        run = taken(run, &mut space);
    }
    run
}

// A block's room, of which only the length is known: lending it asks no more.
fn room() -> [u8; BLOCK]
    ensures { 60000 ≡ length result }
{
    [0; BLOCK]
}

// A block, of the bytes that are there.
fn taken(run: Run, space: &mut [u8]) -> Run
    requires { length space.old ≡ 60000 }
    ensures { Took run result }
{
    let n = io::read_full(STDIN_FILENO, space);
    program::over(run, &space[..n])
}

// The lines of what was judged, the first rank's first.
fn answer(run: Run)
    requires { Judged run }
{
    let mut text = [0u8; ROOM];
    let n = program::line(run, &mut text);
    print(&text[..n]);
    let m = program::second_line(run, &mut text);
    print_second(&text[..m]);
}

fn print(line: &[u8])
    requires { Told line.now }
{
    io::write_all(STDOUT_FILENO, line);
}

fn print_second(line: &[u8])
    requires { ToldSecond line.now }
{
    io::write_all(STDOUT_FILENO, line);
}
