// Words and numbers on standard output.
// Standard output, by number.
pub(crate) const STDOUT_FILENO: i32 = 1;

pub(crate) fn put(text: &[u8]) {
    io::write_all(STDOUT_FILENO, text);
}

pub(crate) fn number(n: u64) {
    io::print_decimal(STDOUT_FILENO, n);
}

// A text and a number.
pub(crate) fn say(text: &[u8], n: u64) {
    put(text);
    number(n);
}

// A text, and a number in hexadecimal with so many digits.
pub(crate) fn hex(text: &[u8], n: u64, digits: usize) {
    put(text);
    io::print_hex(STDOUT_FILENO, n, digits);
    put(b"\n");
}

// A text without the spaces that fill it up.
pub(crate) fn word(text: &[u8]) {
    put(text.trim_ascii_end());
}

// `name value`, and the line's end.
pub(crate) fn value(name: &[u8], n: u64) {
    put(name);
    say(b" ", n);
    put(b"\n");
}
