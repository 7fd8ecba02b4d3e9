// Why nothing, or not all, was moved; told on standard error.

// Standard error, by number.
const STDERR_FILENO: i32 = 2;

// Of output that cannot be written nothing is told; a refusal is told by its number.
#[derive(Clone, Copy)]
pub(crate) enum Trouble {
    Unopened,
    Unread,
    Unwritten,
    Refused(u32),
}

impl Trouble {
    pub(crate) fn tell(self) {
        match self {
            Trouble::Unopened => tell(b"why unopened\n"),
            Trouble::Unread => tell(b"why unread\n"),
            Trouble::Unwritten => (),
            Trouble::Refused(number) => refused(number),
        }
    }
}

fn refused(number: u32) {
    tell(b"refused ");
    io::print_decimal(STDERR_FILENO, u64::from(number));
    tell(b"\n");
}

pub(crate) fn tell(text: &[u8]) {
    io::write_all(STDERR_FILENO, text);
}
