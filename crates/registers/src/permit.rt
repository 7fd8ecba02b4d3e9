// Which field of a code a header does not allow.
ghost use Rattle.std.specs.Prelude.{◌≡◌, cond};
ghost use Rattle.registers.specs.Allowed as allows;

use codes::{cl, cwl, wr};
use header::Header;

// The periods, from one to under another, and the bins, the lowest and the highest, of a CAS latency.
#[derive(Clone, Copy)]
struct Span {
    from: u64,
    under: u64,
    lowest: u64,
    highest: u64,
}

// What is named in the place of a bit where there is no such register.
const NO_REGISTER: u8 = 16;

// The lowest bit of a field that is not allowed; none where every field is.
pub(crate) fn bad_bit(h: Header, number: u32, code: u16) -> Option<u8>
    ensures { result ≡ allows.bit_of h number code }
{
    if 3 < number {
        return Some(NO_REGISTER);
    }
    if number == 0 {
        return bad0(h, code);
    }
    if number == 1 {
        return bad1(h, code);
    }
    if number == 2 {
        return bad2(h, code);
    }
    bad3(code)
}

fn bad0(h: Header, code: u16) -> Option<u8>
    ensures { result ≡ allows.first_of (allows.table0 h code) }
{
    let recovery = h.twr().clocks <= wide(wr(code));
    let from9 = or_bit(9, recovery, from13(code));
    let from7 = or_bit(7, code / 128 % 2 == 0, from9);
    let from2 = or_bit(2, cl_fits(h, cl(code)), from7);
    or_bit(0, code % 4 < 3, from2)
}

fn bad1(h: Header, code: u16) -> Option<u8>
    ensures { result ≡ allows.first_of (allows.table1 h code) }
{
    let rtt = code / 512 % 2 * 4 + code / 64 % 2 * 2 + code / 4 % 2;
    let from11 = or_bit(11, !(h.wide & (code / 2048 % 2 == 1)), from13(code));
    let from10 = or_bit(10, code / 1024 % 2 == 0, from11);
    let from8 = or_bit(8, code / 256 % 2 == 0, from10);
    let from7 = or_bit(7, code / 128 % 2 == 0, from8);
    let from5 = or_bit(5, code / 32 % 2 == 0, from7);
    let from3 = or_bit(3, code / 8 % 4 < 3, from5);
    let from2 = or_bit(2, rtt < 6, from3);
    or_bit(0, code % 2 == 0, from2)
}

fn bad2(h: Header, code: u16) -> Option<u8>
    ensures { result ≡ allows.first_of (allows.table2 h code) }
{
    let latency = wide(cwl(code)) == cwl_for(h.period.ps);
    let both = (code / 64 % 2 == 1) & (code / 128 % 2 == 1);
    let from9 = or_bit(9, code / 512 % 4 < 3, from11(code));
    let from8 = or_bit(8, code / 256 % 2 == 0, from9);
    let from6 = or_bit(6, !both, from8);
    or_bit(3, latency, from6)
}

fn bad3(code: u16) -> Option<u8>
    ensures { result ≡ allows.first_of (allows.table3 code) }
{
    if code == 0 {
        return None;
    }
    let from10 = or_bit(10, code / 1024 % 2 == 0, from11(code));
    let from9 = or_bit(9, code / 512 % 2 == 0, from10);
    let from8 = or_bit(8, code / 256 % 2 == 0, from9);
    let from7 = or_bit(7, code / 128 % 2 == 0, from8);
    let from6 = or_bit(6, code / 64 % 2 == 0, from7);
    let from5 = or_bit(5, code / 32 % 2 == 0, from6);
    let from4 = or_bit(4, code / 16 % 2 == 0, from5);
    let from3 = or_bit(3, code / 8 % 2 == 0, from4);
    let from2 = or_bit(2, code / 4 % 2 == 0, from3);
    let from1 = or_bit(1, code / 2 % 2 == 0, from2);
    or_bit(0, code % 2 == 0, from1)
}

// A11 to A15, each 0; first together, since most codes have none of them.
fn from11(code: u16) -> Option<u8>
    ensures { result ≡ allows.first_of (allows.from11 code) }
{
    if code < 2048 {
        return None;
    }
    let from12 = or_bit(12, code / 4096 % 2 == 0, from13(code));
    or_bit(11, code / 2048 % 2 == 0, from12)
}

// A13 to A15 in the same way.
fn from13(code: u16) -> Option<u8>
    ensures { result ≡ allows.first_of (allows.from13 code) }
{
    if code < 8192 {
        return None;
    }
    let from15 = or_bit(15, code / 32768 % 2 == 0, None);
    let from14 = or_bit(14, code / 16384 % 2 == 0, from15);
    or_bit(13, code / 8192 % 2 == 0, from14)
}

// The field's lowest bit, or what the fields above it give where it is allowed.
fn or_bit(low: u8, ok: bool, above: Option<u8>) -> Option<u8>
    ensures { result ≡ cond ok above (Some low) }
{
    if ok {
        return above;
    }
    Some(low)
}

// A latency that is not listed has none.
fn spanned(cl: u8) -> Span
    ensures { result ≡ allows.span_as (allows.span_of cl) }
{
    match cl {
        5 => between(3000, 3301, 0, 2),
        6 => between(2500, 3301, 0, 3),
        7 => between(1875, 2500, 0, 3),
        8 => between(1875, 2500, 0, 3),
        9 => between(1500, 1875, 1, 3),
        10 => between(1500, 1875, 1, 3),
        11 => between(1250, 1500, 2, 3),
        12 => between(1070, 1250, 3, 3),
        _ => between(0, 0, 0, 0),
    }
}

fn between(from: u64, under: u64, lowest: u64, highest: u64) -> Span
    ensures { result ≡ allows.span_as (allows.span from under lowest highest) }
{
    Span {
        from,
        under,
        lowest,
        highest,
    }
}

// Has the CAS latency this period and bin among its own?
fn cl_fits(h: Header, cl: u8) -> bool
    ensures { result ≡ allows.cl_fits h cl }
{
    let p = h.period.ps;
    let b = wide(h.bin);
    let s = spanned(cl);
    (s.from <= p) & ((p < s.under) & ((s.lowest <= b) & (b <= s.highest)))
}

// The one CAS write latency of a period; 0 where there is none.
fn cwl_for(period: u64) -> u64
    ensures { result ≡ allows.cwl_for period }
{
    if 2500 <= period {
        return 5;
    }
    if 1875 <= period {
        return 6;
    }
    if 1500 <= period {
        return 7;
    }
    if 1250 <= period {
        return 8;
    }
    if 1070 <= period {
        return 9;
    }
    0
}

fn wide(x: u8) -> u64
    ensures { result ≡ x }
{
    x as u64
}
