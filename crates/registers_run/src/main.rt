// Answers the register readings that standard input lists, a line each. A call is ten bytes: six of
// header, the register's number, the code's two, and the length of the buffer lent, at most 8.
#![tactic(auto)]

// The standard streams, by number.
const STDIN_FILENO: i32 = 0;

const STDOUT_FILENO: i32 = 1;

const CALL: usize = 10;

fn main() {
    let mut space = io::large_buffer();
    let n = io::read_full(STDIN_FILENO, &mut space);
    answer_all(&space[..n]);
}

// What is left behind the last whole call is passed over.
fn answer_all(calls: &[u8]) {
    for &call in calls.as_chunks::<CALL>().0 {
        answer(call);
    }
}

fn answer(call: [u8; CALL]) {
    let [h0, h1, h2, h3, h4, h5, number, c0, c1, room] = call;
    let header = [h0, h1, h2, h3, h4, h5];
    let code = u16::from_be_bytes([c0, c1]);
    print_header(&header);
    print_call(number, code, room);
    print_answer(&header, number, code, room);
}

// Two bytes at once: each call is a write.
fn print_header(header: &[u8; 6]) {
    for &two in header.as_chunks::<2>().0 {
        io::print_hex(STDOUT_FILENO, u64::from(u16::from_be_bytes(two)), 4);
    }
}

fn print_call(number: u8, code: u16, room: u8) {
    io::write_all(STDOUT_FILENO, b" ");
    io::print_decimal(STDOUT_FILENO, u64::from(number));
    io::write_all(STDOUT_FILENO, b" ");
    io::print_hex(STDOUT_FILENO, u64::from(code), 4);
    io::write_all(STDOUT_FILENO, b" ");
    io::print_decimal(STDOUT_FILENO, u64::from(room));
    io::write_all(STDOUT_FILENO, b" -> ");
}

fn print_answer(header: &[u8; 6], number: u8, code: u16, room: u8) {
    let mut space = [255u8; 8];
    let lent = io::count(room as isize, &space);
    print_read(header, number, code, &mut space[..lent]);
}

// The refusal's number; or 0, and the whole buffer as it is now.
fn print_read(header: &[u8; 6], number: u8, code: u16, out: &mut [u8]) {
    let read = registers::read(header, u32::from(number), code, out);
    io::print_decimal(STDOUT_FILENO, u64::from(refusals::code(read)));
    if read.is_ok() {
        io::write_all(STDOUT_FILENO, b":");
        print_values(out);
    }
    io::write_all(STDOUT_FILENO, b"\n");
}

fn print_values(values: &[u8]) {
    for &value in values {
        io::write_all(STDOUT_FILENO, b" ");
        io::print_decimal(STDOUT_FILENO, u64::from(value));
    }
}
