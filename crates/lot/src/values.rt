// Each value under its name, on standard output: `name value` a line, and nothing laid out. What is written is under no contract; what the values
// are is, where they are worked out. A name that stands several times (file, row, list) begins anew what follows it.
use crate::text::{hex, number, put, say, value, word};
use answers::{End, Shown, Verdict};
use chip::Chip;
use glossary::{Level, Line};
use header::Header;
use tally::{Found, Placed, Tally};

// The kind of a power-down entry.
const ENTRY: usize = 17;

// An edition that is not 1.
pub(crate) fn edition(n: u64) {
    if n == 2 {
        value(b"edition", n);
    }
}

pub(crate) fn part(h: Header) {
    value(b"bin", h.bin as u64);
    value(b"density_gb", if h.dense { 2 } else { 1 });
    value(b"width", if h.wide { 16 } else { 8 });
    value(b"period_ps", h.period.ps);
    value(b"hot", u64::from(h.hot));
    clocks(chip::chip_of(h));
}

fn count(name: &[u8], n: u32) {
    value(name, n as u64);
}

// Each time of the part in clocks. A check grows with the square of a function's calls, so these are four.
fn clocks(c: Chip) {
    of_a_bank(c);
    of_all_banks(c);
    of_the_device(c);
    of_power_down(c);
}

fn of_a_bank(c: Chip) {
    count(b"clocks_trcd", c.trcd);
    count(b"clocks_trp", c.trp);
    count(b"clocks_trc", c.trc);
    count(b"clocks_tras", c.tras);
    count(b"clocks_trtp", c.trtp);
    count(b"clocks_twr", c.twr);
}

fn of_all_banks(c: Chip) {
    count(b"clocks_trrd", c.trrd);
    count(b"clocks_tfaw", c.tfaw);
    count(b"clocks_twtr", c.twtr);
    count(b"clocks_tmod", c.tmod);
    count(b"clocks_tcke", c.tcke);
    count(b"clocks_trfc", c.trfc);
}

fn of_the_device(c: Chip) {
    count(b"clocks_txs", c.txs);
    count(b"clocks_zqlong", c.zqlong);
    count(b"clocks_zqshort", c.zqshort);
    count(b"clocks_most", c.most);
    count(b"clocks_trefi", c.trefi);
}

fn of_power_down(c: Chip) {
    count(b"clocks_txp", c.txp);
    count(b"clocks_txpdll", c.txpdll);
    count(b"clocks_stay", c.nine);
}

// A file that was read to its end: its number, its records, the edge before it and its last; whether it begins with a header of its own.
pub(crate) fn file(n: u64, records: u64, from: u64, to: u64, headed: bool) {
    value(b"file", n);
    value(b"file_records", records);
    value(b"file_after_edge", from);
    value(b"file_to_edge", to);
    value(b"file_headed", u64::from(headed));
}

// The tally, the verdict, and what stands at the end.
pub(crate) fn end(t: Tally, records: u32, c: End, header: [u8; 6]) {
    rows(t.counts);
    count(b"count_all", records);
    verdict(c.verdict);
    print_banks(c.banks);
    print_registers(header, c.registers);
    value(b"debt_plus_8", c.owed);
}

// The rows of the glossary, with the count of each one's kind.
fn rows(counts: [u64; 19]) {
    for i in 0..28 {
        row(glossary::line_at(i, counts));
    }
}

// The levels are of CKE before and now, of asleep before, of CS, RAS, CAS, WE and A10.
fn row(l: Line) {
    let w = l.row;
    text(b"row ", &w.name);
    put(b"row_levels ");
    for l in w.levels {
        level(l);
    }
    text(b"\nrow_meaning ", &w.meaning);
    value(b"row_count", l.count);
}

// x for any.
fn level(l: Level) {
    match l.pin() {
        Some(n) => number(n),
        None => put(b"x"),
    }
}

fn text(name: &[u8], words: &[u8]) {
    put(name);
    word(words);
    put(b"\n");
}

fn verdict(v: Verdict) {
    if v.outcome == 0 {
        put(b"outcome clean\n");
    } else {
        put(b"outcome broken\n");
        value(b"record", v.number);
    }
    value(b"rule", v.rule);
    value(b"partner", v.partner);
    value(b"edge", v.edge);
    value(b"needed", v.needed);
    value(b"found", v.found);
}

// One record of a list: the file that it stands in, and its first byte there.
pub(crate) fn listed(p: Placed, at: u64) {
    let f = p.found;
    value(b"list", f.reached.number);
    value(b"list_file", p.file);
    value(b"list_byte", at);
    value(b"list_edge", f.reached.edge);
    pins(f);
    let r = f.fields;
    value(b"list_bank", r.bank);
    hex(b"list_address ", r.a as u64, 4);
}

fn pins(f: Found) {
    let r = f.fields;
    let w = glossary::row_of(f.kind as u64);
    text(b"list_command ", &w.name);
    value(b"list_cke_before", u64::from(f.level));
    value(b"list_cke", u64::from(r.cke));
    value(b"list_pins", r.pins);
    value(b"list_power_down", u64::from(f.kind == ENTRY));
}

fn print_banks(banks: [Shown; 8]) {
    for (i, &b) in banks.iter().enumerate() {
        bank(i as u64, b);
    }
}

// 0 idle, 1 open, 2 closing; row and ACT edge unless it is idle.
fn bank(i: u64, b: Shown) {
    say(b"bank", i);
    value(b"", b.status());
    if b.status() != 0 {
        say(b"bank", i);
        hex(b"_row ", b.row(), 4);
        say(b"bank", i);
        value(b"_act_edge", b.act());
    }
}

fn print_registers(header: [u8; 6], registers: [Option<u16>; 4]) {
    for (i, &code) in registers.iter().enumerate() {
        if let Some(code) = code {
            register(header, i as u32, code);
        }
    }
}

// Its code and the six values of register reading.
fn register(header: [u8; 6], n: u32, code: u16) {
    say(b"mr", u64::from(n));
    hex(b" ", u64::from(code), 4);
    let mut six = [0u8; 6];
    if registers::read(&of_edition_1(header), n, code, &mut six).is_ok() {
        say(b"mr", u64::from(n));
        put(b"_reading");
        for n in six {
            say(b" ", u64::from(n));
        }
        put(b"\n");
    }
}

// Register reading takes a header of edition 1; the part is the same.
fn of_edition_1(header: [u8; 6]) -> [u8; 6] {
    let mut h = header;
    h[0] = header[0] % 16 + 16;
    h
}
