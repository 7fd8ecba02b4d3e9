// Opening, a section, closing.
ghost use Rattle.std.specs.Prelude.{true, ◌≡◌};
ghost use Rattle.judge.specs.Answers.{opened_as, taken_as, closed_as};
ghost use Rattle.judge.specs.Calls as calls;
ghost use Rattle.judge.specs.Ranges as ranges;
ghost use Rattle.judge.specs.Promises.{Open, Unopened, Section, Close};

use crate::ranks::both;
use crate::{Closed, Pair, State, Taken};
use answers::{End, Verdict};
use edges::Rank;
use header::Header;
use refusals::Refusal;
use units::Ps;

impl State {
    // At most so many records in all.
    pub const LIMIT: u64 = 1048576;

    // Checks 1, 2, 3, 4.
    pub fn open(header: &[u8]) -> Result<State, Refusal>
        ensures { Open header.now (opened_as result) }
    {
        let edition = header::edition_for(header);
        let h = header::parse(header, edition)?;
        Ok(start(h, edition))
    }

    // The state of no recording: each of its sections and its closing are refused by 17.
    pub fn unopened() -> State
        ensures { Unopened result }
    {
        let h = Header {
            bin: 0,
            dense: false,
            wide: false,
            hot: false,
            period: Ps { ps: 0 },
        };
        let fresh = still::fresh(false, 0, 0);
        holding(h, 0, fresh, fresh)
    }

    // Checks 17, 5, 7, 6, 14.
    pub fn section(self, bytes: &[u8]) -> Result<Taken, Refusal>
        ensures { Section self bytes.now (taken_as self result) }
    {
        if !in_range(self) {
            return Err(Refusal::State);
        }
        if self.edition == 2 {
            return of_two(self, bytes);
        }
        of_one(self, bytes)
    }

    // Checks 17, 8; then the verdict, the banks, the registers and the debt at the end edge.
    pub fn close(self, end: u64) -> Result<Closed, Refusal>
        ensures { Close self end (closed_as result) }
    {
        if !in_range(self) {
            return Err(Refusal::State);
        }
        if (end < self.one.edge) | (17592186044416 < end) {
            return Err(Refusal::EndEdge);
        }
        Ok(Closed {
            end: rank::end(chip::chip_of(self.header), self.one, end),
            second: second_end(self, end),
        })
    }
}

// Edition 1: 5, 7, and 6 with the records, in one pass: a step of 0 leaves the rank as it was.
fn of_one(s: State, bytes: &[u8]) -> Result<Taken, Refusal>
    requires s_value { ranges.in_range s ≡ true }
    requires edition_value { s.edition ≡ 1 }
    ensures { taken_as s result ≡ calls.section_of s bytes.now }
{
    if bytes.len() % 6 != 0 {
        return Err(Refusal::CutShort);
    }
    if State::LIMIT < s.one.count as u64 + (bytes.len() / 6) as u64 {
        return Err(Refusal::TooMany);
    }
    match rank::take(chip::chip_of(s.header), s.one, bytes) {
        None => Err(Refusal::ZeroStep),
        Some(one) => Ok(taken(holding(s.header, s.edition, one, s.two))),
    }
}

// Edition 2: 5, 7, and 6 and 14 with the first rank's records; both ranks have the same steps.
fn of_two(s: State, bytes: &[u8]) -> Result<Taken, Refusal>
    requires s_value { ranges.in_range s ≡ true }
    requires edition_value { s.edition ≡ 2 }
    ensures { taken_as s result ≡ calls.section_of s bytes.now }
{
    if bytes.len() % 8 != 0 {
        return Err(Refusal::CutShort);
    }
    if State::LIMIT < s.one.count as u64 + (bytes.len() / 8) as u64 {
        return Err(Refusal::TooMany);
    }
    let start = Pair {
        spare: false,
        one: s.one,
        two: s.two,
    };
    match both(chip::chip_of(s.header), start, bytes) {
        None => Err(Refusal::ZeroStep),
        Some(p) if p.spare => Err(Refusal::ZeroBits),
        Some(p) => Ok(taken(holding(s.header, s.edition, p.one, p.two))),
    }
}

// Check 17.
fn in_range(s: State) -> bool
    ensures { result ≡ ranges.in_range s }
{
    let interval = s.header.trefi().clocks;
    (1 <= interval) & (still::in_range(s.one) & ranks_agree(s))
}

// An edition that there is; of edition 2 the second rank's ranges too, and that both ranks have counted the same records.
fn ranks_agree(s: State) -> bool
    ensures { result ≡ ranges.ranks_agree s }
{
    if s.edition == 2 {
        return still::in_range(s.two) & ((s.one.count == s.two.count) & (s.one.edge == s.two.edge));
    }
    s.edition == 1
}

fn holding(h: Header, edition: u64, one: Rank, two: Rank) -> State
    ensures { result ≡ calls.holding h edition one two }
{
    State {
        header: h,
        edition: edition,
        one: one,
        two: two,
    }
}

fn start(h: Header, edition: u64) -> State
    ensures { result ≡ calls.start_of h edition }
{
    let nine = h.ninerefi().clocks;
    let fresh = still::fresh(true, nine, nine + 1);
    holding(h, edition, fresh, fresh)
}

fn taken(s: State) -> Taken
    ensures { taken_as s (Ok result) ≡ calls.take s }
{
    Taken {
        state: s,
        verdict: still::so_far(s.one),
        second: second_verdict(s),
    }
}

fn second_verdict(s: State) -> Verdict
    ensures { result ≡ calls.second_verdict s }
{
    if s.edition == 2 {
        return still::so_far(s.two);
    }
    says::none()
}

fn second_end(s: State, end: u64) -> End
    ensures { result ≡ calls.second_ended s end }
{
    if s.edition == 2 {
        return rank::end(chip::chip_of(s.header), s.two, end);
    }
    still::no_end()
}
