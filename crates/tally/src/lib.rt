// How many records of each command a recording has, carried over its sections as the judge's state is: 01, "Commands and the 25
// rules", first paragraph, and 02, Q-1. A count's place in the tally is the kind that `kind_of` gives. And where a record stands.
#![tactic(auto)]

mod places;
mod refused;
mod walk;

ghost use Rattle.std.specs.Prelude.{◌≡◌, ◌+◌, ◌<◌, ◌≤◌, ◌↔◌, length, if◌then◌else◌, IsTrue, EachIndex, slice_index};
ghost use Rattle.records.specs.Record.{records, record_at};
ghost use Rattle.records.specs.Command.{asleep_after};
ghost use Rattle.tally.specs.Kinds.{kind_of};
ghost use Rattle.tally.specs.Tally as defs;
ghost use Rattle.tally.specs.Promises.{TallyStart, TallySection, KindAt};

use records::{Command, Record};
use refusals::Refusal;
pub use refused::refused_at;

// A count above this is refused: from there a sum could wrap.
const LARGEST: u64 = 1152921504606846976;

// The CKE level after the records so far, whether the part sleeps, and the number of records of each kind.
#[derive(Clone, Copy)]
pub struct Tally {
    pub level: bool,
    pub sleeps: bool,
    pub counts: [u64; 19],
}

// How far a walk over the records has come: the number and the edge of the last, the CKE level after it, whether the part sleeps, and how many
// stand before the edge `limit`.
#[derive(Clone, Copy)]
pub struct Reached {
    pub number: u64,
    pub edge: u64,
    pub level: bool,
    pub sleeps: bool,
    pub limit: u64,
    pub before: u64,
}

// A record: the walk up to it, the CKE level before it, its kind, and its fields.
#[derive(Clone, Copy)]
pub struct Found {
    pub reached: Reached,
    pub level: bool,
    pub kind: usize,
    pub fields: Record,
}

// A walk over a lot's files: how far it has come, the number of the file, and the byte of it that comes next.
#[derive(Clone, Copy)]
pub struct Spot {
    pub reached: Reached,
    pub file: u64,
    pub at: u64,
}

// A record, the number of its file, its first byte there, and its six bytes as one number.
#[derive(Clone, Copy)]
pub struct Placed {
    pub found: Found,
    pub file: u64,
    pub at: u64,
    pub word: u64,
}

impl Tally {
    // No record yet: CKE is high, and the part awake.
    pub fn start() -> Tally
        ensures { TallyStart result }
    {
        let counts = [0u64; 19];
        Tally {
            level: true,
            sleeps: false,
            counts: counts,
        }
    }

    // Checks 17, 5; then the section's records are counted.
    pub fn section(self, bytes: &[u8]) -> Result<Tally, Refusal>
        ensures { TallySection self bytes.now result }
    {
        if !in_range(self.counts) {
            return Err(Refusal::State);
        }
        if bytes.len() % 6 != 0 {
            return Err(Refusal::CutShort);
        }
        Ok(fold(self, bytes))
    }
}

// Is no count above the largest?
fn in_range(counts: [u64; 19]) -> bool
    ensures { IsTrue result ↔ EachIndex counts (λ k. slice_index counts k ≤ defs.largest) }
{
    counts.iter().all(|&n| n <= LARGEST)
}

fn fold(t: Tally, bytes: &[u8]) -> Tally
    requires { defs.Ready t bytes.now }
    ensures { result ≡ defs.fold_of t (records bytes.now) }
{
    let mut n = t;
    for &six in records::sixes(bytes) {
        let r = records::decode(six);
        let k = kind_at(n.level, n.sleeps, r);
        n.sleeps = sleeps_after(n.level, n.sleeps, r);
        n.level = r.cke;
        n.counts[k] += 1;
    }
    n
}

// Does the part sleep after a record? CKE fell with the pins of a REF, and has not risen.
fn sleeps_after(level: bool, sleeps: bool, r: Record) -> bool
    ensures { result ≡ asleep_after level sleeps r }
{
    let pins = r.pins;
    if r.cke {
        return false;
    }
    if level {
        return pins == 1;
    }
    sleeps
}

// The kind of a record, by the CKE level before it, and whether the part was asleep.
pub fn kind_at(level: bool, sleeps: bool, r: Record) -> usize
    ensures { KindAt level sleeps r result }
{
    let c = records::command_of(level, sleeps, r);
    kind_of(c, r.a / 1024 % 2 == 1)
}

// A command's place in the tally; A10 tells two kinds of PRE, WR, RD and ZQ apart.
fn kind_of(c: Command, a10: bool) -> usize
    ensures { (result ≡ kind_of c a10) × (result < 19) }
{
    match c {
        Command::Mrs => 0,
        Command::Ref => 1,
        Command::Pre => either(a10, 3, 2),
        Command::Act => 4,
        Command::Wr => either(a10, 6, 5),
        Command::Rd => either(a10, 8, 7),
        Command::Zq => either(a10, 9, 10),
        Command::Nop => 11,
        Command::Des => 12,
        Command::Sre => 13,
        Command::Srx => 14,
        Command::Low => 15,
        Command::Bad => 16,
        Command::Pde => 17,
        Command::Pdx => 18,
    }
}

fn either(first: bool, a: usize, b: usize) -> usize
    requires { (a < 19) × (b < 19) }
    ensures { (result ≡ (if first then a else b)) × (result < 19) }
{
    if first {
        return a;
    }
    b
}
