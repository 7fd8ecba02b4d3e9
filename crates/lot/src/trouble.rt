// Why a file cannot be judged: then there is no verdict.
use crate::text::{put, value};
use refusals::Refusal;

// The file's number, counted from 1.
#[derive(Clone, Copy)]
pub(crate) struct Trouble {
    pub(crate) file: usize,
    pub(crate) why: Why,
}

// Refused: at a byte of the file.
#[derive(Clone, Copy)]
pub(crate) enum Why {
    Unopened,
    Unread,
    Empty,
    Refused { refusal: Refusal, at: u64 },
}

impl Trouble {
    pub(crate) fn tell(self) {
        put(b"outcome none\n");
        value(b"trouble_file", self.file as u64);
        self.why.tell();
    }
}

impl Why {
    fn tell(self) {
        match self {
            Why::Unopened => put(b"why unopened\n"),
            Why::Unread => put(b"why unread\n"),
            Why::Empty => put(b"why empty\n"),
            Why::Refused { refusal, at } => {
                put(b"why refused\n");
                value(b"refused", u64::from(refusal.number()));
                value(b"refused_byte", at);
            }
        }
    }
}
