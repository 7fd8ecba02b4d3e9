// What is printed of a case; of edition 2 a line a rank.
use crate::calls;
use crate::calls::Ranks;
use answers::{End, Shown, Verdict};
use edges::Waits;
use judge::State;
use lines::ROOM;
use refusals::Refusal;

// Standard output, by number.
const STDOUT_FILENO: i32 = 1;

// As an end edge: the last record's.
const LAST: u64 = 281474976710655;

pub(crate) fn verdicts(all: Ranks<Verdict>) {
    line(all.first);
    if let Some(second) = all.second {
        line(second);
    }
}

pub(crate) fn waits(all: Ranks<Waits>) {
    rank_waits(all.first);
    if let Some(second) = all.second {
        rank_waits(second);
    }
}

// Eight of an ACT, of a RD, of a WR and of a PRE, then those of a REF, an MRS, a ZQ and an SRE.
fn rank_waits(w: Waits) {
    io::print_decimal(STDOUT_FILENO, w.act[0]);
    numbers(&w.act[1..]);
    numbers(&w.col);
    numbers(&w.pre);
    numbers(&w.holds);
    put(b"\n");
}

fn numbers(all: &[u64]) {
    for &n in all {
        put(b" ");
        io::print_decimal(STDOUT_FILENO, n);
    }
}

pub(crate) fn close(run: Result<State, Refusal>, whole: bool, end: u64) {
    match run.and_then(|state| closed(state, end)) {
        Ok(ends) => ended(ends, whole),
        Err(n) => refusal(n),
    }
}

fn closed(state: State, end: u64) -> Result<Ranks<End>, Refusal> {
    calls::closed(state, if end == LAST { state.one.edge } else { end })
}

fn ended(ends: Ranks<End>, whole: bool) {
    rank_ended(ends.first, whole);
    if let Some(second) = ends.second {
        rank_ended(second, whole);
    }
}

fn rank_ended(e: End, whole: bool) {
    if whole {
        closing(e);
    } else {
        line(e.verdict);
    }
}

pub(crate) fn refusal(refusal: Refusal) {
    let mut text = [0u8; ROOM];
    let k = lines::refusal_line(u64::from(refusal.number()), &mut text);
    put(&text[..k]);
}

fn line(v: Verdict) {
    let mut text = [0u8; ROOM];
    let k = lines::verdict_line(v, &mut text);
    put(&text[..k]);
}

fn closing(c: End) {
    words(c.verdict);
    put(b"\t");
    bytes(&answers::verdict_bytes(c.verdict));
    put(b"\t");
    print_banks(c.banks);
    put(b"\t");
    print_registers(c.registers);
    put(b"\t");
    debt(c.owed);
    put(b"\n");
}

fn words(v: Verdict) {
    let mut text = [0u8; ROOM];
    let k = lines::verdict_words(v, &mut text);
    put(&text[..k]);
}

fn bytes(all: &[u8]) {
    for &b in all {
        io::print_hex(STDOUT_FILENO, u64::from(b), 2);
    }
}

fn print_banks(banks: [Shown; 8]) {
    for (i, &b) in banks.iter().enumerate() {
        apart(i);
        bank(b);
    }
}

// A space before each but the first.
fn apart(i: usize) {
    if i != 0 {
        put(b" ");
    }
}

fn bank(b: Shown) {
    match b {
        Shown::Idle => put(b"i"),
        Shown::Open { row, act } => active(b"o", row, act),
        Shown::Closing { row, act } => active(b"c", row, act),
    }
}

fn active(status: &[u8], row: u64, act: u64) {
    put(status);
    io::print_hex(STDOUT_FILENO, row, 4);
    put(b"@");
    io::print_decimal(STDOUT_FILENO, act);
}

fn print_registers(registers: [Option<u16>; 4]) {
    for (i, &code) in registers.iter().enumerate() {
        apart(i);
        register(code);
    }
}

fn register(code: Option<u16>) {
    match code {
        Some(code) => hex(code),
        None => put(b"-"),
    }
}

fn hex(code: u16) {
    io::print_hex(STDOUT_FILENO, u64::from(code), 4);
}

// owed is the debt + 8.
fn debt(owed: u64) {
    if owed < 8 {
        put(b"-");
        io::print_decimal(STDOUT_FILENO, 8 - owed);
    } else {
        io::print_decimal(STDOUT_FILENO, owed - 8);
    }
}

fn put(text: &[u8]) {
    io::write_all(STDOUT_FILENO, text);
}
