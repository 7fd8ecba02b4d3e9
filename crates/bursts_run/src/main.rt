// Prints the order of every burst, a line each: by length, direction, type and start.
#![tactic(auto)]

// Standard output, by number.
const STDOUT_FILENO: i32 = 1;

#[derive(Clone, Copy)]
enum Direction {
    Read,
    Write,
}

#[derive(Clone, Copy)]
enum Kind {
    Sequential,
    Interleave,
}

// The bursts of a length, of a type, in a direction.
#[derive(Clone, Copy)]
struct Bursts {
    length: u32,
    kind: Kind,
    direction: Direction,
}

fn main() {
    let mut eight = [0u8; 8];
    let mut four = [0u8; 4];
    print_length(8, &mut eight);
    print_length(4, &mut four);
}

// The bursts of a length, by way of a buffer that they just fill.
fn print_length(length: u32, out: &mut [u8]) {
    for direction in [Direction::Read, Direction::Write] {
        for kind in [Kind::Sequential, Kind::Interleave] {
            print_starts(
                Bursts {
                    length,
                    kind,
                    direction,
                },
                out,
            );
        }
    }
}

fn print_starts(b: Bursts, out: &mut [u8]) {
    for start in 0..8 {
        print_burst(b, start, out);
    }
}

// One line.
fn print_burst(b: Bursts, start: u32, out: &mut [u8]) {
    print_name(b, start);
    let ordered = bursts::order(b.length, start, b.kind.number(), b.direction.number(), out);
    if ordered.is_ok() {
        print_words(out);
    } else {
        put(b" refused");
    }
    put(b"\n");
}

fn print_name(b: Bursts, start: u32) {
    io::print_decimal(STDOUT_FILENO, u64::from(b.length));
    b.direction.put();
    b.kind.put();
    io::print_decimal(STDOUT_FILENO, u64::from(start));
    put(b":");
}

impl Direction {
    // As it is handed over.
    fn number(self) -> u32 {
        match self {
            Direction::Read => 0,
            Direction::Write => 1,
        }
    }

    fn put(self) {
        match self {
            Direction::Read => put(b" read"),
            Direction::Write => put(b" write"),
        }
    }
}

impl Kind {
    // As it is handed over.
    fn number(self) -> u32 {
        match self {
            Kind::Sequential => 0,
            Kind::Interleave => 1,
        }
    }

    fn put(self) {
        match self {
            Kind::Sequential => put(b" sequential "),
            Kind::Interleave => put(b" interleave "),
        }
    }
}

fn print_words(words: &[u8]) {
    for &word in words {
        put(b" ");
        io::print_decimal(STDOUT_FILENO, u64::from(word));
    }
}

fn put(text: &[u8]) {
    io::write_all(STDOUT_FILENO, text);
}
