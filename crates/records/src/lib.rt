// A record of the recording, and the command that it gives.
#![tactic(auto)]

ghost use Rattle.std.specs.Prelude.{◌≡◌};
ghost use Rattle.records.specs.Record.{fields_of};
ghost use Rattle.records.specs.Command.{by_pins, falling, rising};
ghost use Rattle.records.specs.Promises.{Sixes, Decode, CommandOf, RankOf};

// Edges since the record before, the pin levels of CKE and of CS, RAS, CAS, WE as one number, BA, and A15..A0.
#[derive(Clone, Copy)]
pub struct Record {
    pub step: u64,
    pub cke: bool,
    pub pins: u64,
    pub bank: u64,
    pub a: u16,
}

// Low: CKE stays low and the pins are ignored. Bad: a CKE change that is none of the others. Pde, Pdx: entry and exit of power-down.
#[derive(Clone, Copy, PartialEq, Eq)]
pub enum Command {
    Mrs,
    Ref,
    Pre,
    Act,
    Wr,
    Rd,
    Zq,
    Nop,
    Des,
    Sre,
    Srx,
    Low,
    Bad,
    Pde,
    Pdx,
}

// A section's records, six bytes each. Bytes behind the last whole one belong to none.
pub fn sixes(bytes: &[u8]) -> &[[u8; 6]]
    ensures { Sixes bytes.now result.now }
{
    bytes.as_chunks::<6>().0
}

pub fn decode(six: [u8; 6]) -> Record
    ensures { Decode six result }
{
    fields(bits::word(six))
}

fn fields(w: u64) -> Record
    ensures { result ≡ fields_of w }
{
    Record {
        step: w / 16777216 % 16777216,
        cke: w / 8388608 % 2 == 1,
        pins: w / 524288 % 16,
        bank: w / 65536 % 8,
        a: (w % 65536) as u16,
    }
}

// The command of a record, by the CKE level before it, and whether the part was asleep.
pub fn command_of(before: bool, asleep: bool, r: Record) -> Command
    ensures { CommandOf before asleep r result }
{
    let pins = r.pins;
    if before {
        if r.cke {
            return by_pins(pins);
        }
        return falls(pins);
    }
    if r.cke {
        return rises(asleep, pins);
    }
    Command::Low
}

fn by_pins(pins: u64) -> Command
    ensures { result ≡ by_pins pins }
{
    match pins {
        0 => Command::Mrs,
        1 => Command::Ref,
        2 => Command::Pre,
        3 => Command::Act,
        4 => Command::Wr,
        5 => Command::Rd,
        6 => Command::Zq,
        7 => Command::Nop,
        _ => Command::Des,
    }
}

fn falls(pins: u64) -> Command
    ensures { result ≡ falling pins }
{
    if pins == 1 {
        return Command::Sre;
    }
    if 7 <= pins {
        return Command::Pde;
    }
    Command::Bad
}

fn rises(asleep: bool, pins: u64) -> Command
    ensures { result ≡ rising asleep pins }
{
    if pins < 7 {
        return Command::Bad;
    }
    if asleep {
        return Command::Srx;
    }
    Command::Pdx
}

// The command's number; no two commands have one.
pub fn rank_of(c: Command) -> u64
    ensures { RankOf c result }
{
    match c {
        Command::Mrs => 0,
        Command::Ref => 1,
        Command::Pre => 2,
        Command::Act => 3,
        Command::Wr => 4,
        Command::Rd => 5,
        Command::Zq => 6,
        Command::Nop => 7,
        Command::Des => 8,
        Command::Sre => 9,
        Command::Srx => 10,
        Command::Low => 11,
        Command::Bad => 12,
        Command::Pde => 13,
        Command::Pdx => 14,
    }
}
