// Moves a recording to the other edition (02, Q-7): `mover widen IN` from 1 to 2, `mover narrow IN` back. IN is read twice, in sections of 6,000
// bytes: first for the checks, in the order in which `moves` makes them but for 9, and then to write the moved recording to standard output. So a
// move that is refused writes nothing there. A refusal, and a file that cannot be read, is told on standard error. A program has no exit status
// to set.
#![tactic(auto)]

mod checking;
mod direction;
mod file;
mod trouble;
mod writing;

use direction::Direction;
use trouble::Trouble;

fn main(rt: HostRuntime) {
    let way = Direction::named(&rt);
    match way {
        Some(way) if inputs::count(&rt) == 3 => run(&rt, way),
        _ => usage(),
    }
}

fn usage() {
    trouble::tell(b"usage: mover widen IN, or mover narrow IN\n");
}

fn run(rt: &HostRuntime, way: Direction) {
    if let Err(why) = moved(rt, way) {
        why.tell();
    }
}

fn moved(rt: &HostRuntime, way: Direction) -> Result<(), Trouble> {
    let bytes = checking::checked(rt, way)?;
    writing::write(rt, way, bytes)
}
