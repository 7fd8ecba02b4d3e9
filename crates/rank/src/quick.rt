// The frequent commands, one after the other, up to a record that is none of them or may not be fine.
ghost use Rattle.std.specs.Prelude.{◌≡◌, ◌+◌, ◌≤◌, ◌<◌, true, false, length};
ghost use Rattle.records.specs.Record.{record_at};
ghost use Rattle.edges.specs.Running as running;
ghost use Rattle.rank.specs.Lane as lane;

use crate::device::DLL;
use crate::lane::Lane;
use crate::ways::col_start;
use chip::Chip;
use edges::Device;
use records::Record;
use running::Asks;

pub(crate) fn record_at(bytes: &[u8], at: usize) -> Record
    requires { at + 6 ≤ length bytes.now }
    ensures { result ≡ record_at bytes.now at }
{
    records::decode([
        bytes[at],
        bytes[at + 1],
        bytes[at + 2],
        bytes[at + 3],
        bytes[at + 4],
        bytes[at + 5],
    ])
}

fn all_written(device: &Device) -> bool
    ensures { result ≡ running.all_written device.now }
{
    let set = &device.written;
    set[0] & (set[1] & (set[2] & set[3]))
}

impl Lane {
    // Each of these answers whether the record r is fine at the edge e, behind n records; if it is, it comes. (n + 1 is left to them: that is
    // faster.)
    fn precharge(&mut self, chip: Chip, w: Asks, r: Record, e: u64, n: u32) -> bool
        requires pins { r.pins ≡ 2 }
        requires near { lane.Near self.old e n }
        ensures came { result ≡ true → lane.Goes chip w r e (n + 1) self.old self.new }
        ensures unmoved { result ≡ false → self.new ≡ self.old }
    {
        let b = (r.bank % 8) as usize;
        if (r.a / 1024 % 2 == 1) | !self.may_precharge(b, e) {
            return false;
        }
        self.shut(chip.trp, b, e, n + 1);
        true
    }

    fn activate(&mut self, chip: Chip, w: Asks, r: Record, e: u64, n: u32) -> bool
        requires pins { r.pins ≡ 3 }
        requires near { lane.Near self.old e n }
        ensures came { result ≡ true → lane.Goes chip w r e (n + 1) self.old self.new }
        ensures unmoved { result ≡ false → self.new ≡ self.old }
    {
        let b = (r.bank % 8) as usize;
        if !all_written(&self.rank.device) | !self.may_activate(b, e) {
            return false;
        }
        self.act(chip, w, b, r.a, e, n + 1);
        true
    }

    fn read_or_write(&mut self, chip: Chip, w: Asks, r: Record, e: u64, n: u32) -> bool
        requires pins { (4 ≤ r.pins) × (r.pins < 6) }
        requires near { lane.Near self.old e n }
        ensures came { result ≡ true → lane.Goes chip w r e (n + 1) self.old self.new }
        ensures unmoved { result ≡ false → self.new ≡ self.old }
    {
        let b = (r.bank % 8) as usize;
        let y = (5 - r.pins) as usize;
        let reset = self.rank.device.no[DLL] != 0;
        if ((y == 0) & !reset) | !self.may_column(b, y, e) {
            return false;
        }
        self.column(w, b, y, r.a / 4096 % 2 == 1, e, n + 1);
        if r.a / 1024 % 2 == 1 {
            let start = col_start(w, chip.tras, y == 0, e, self.rank.banks.actat[b]);
            self.shut(chip.trp, b, start, n + 1);
            return true;
        }
        true
    }

    fn frequent(&mut self, chip: Chip, w: Asks, r: Record, e: u64, n: u32) -> bool
        requires pins { 2 ≤ r.pins }
        requires near { lane.Near self.old e n }
        ensures came { result ≡ true → lane.Goes chip w r e (n + 1) self.old self.new }
        ensures unmoved { result ≡ false → self.new ≡ self.old }
    {
        // A NOP or DES first: many recordings hold little else.
        if 6 < r.pins {
            return true;
        }
        if r.pins < 4 {
            if r.pins == 2 {
                return self.precharge(chip, w, r, e, n);
            }
            return self.activate(chip, w, r, e, n);
        }
        if r.pins < 6 {
            return self.read_or_write(chip, w, r, e, n);
        }
        false
    }

    // w: what the registers ask. clear: the edge before which no deadline passes. By index, as are the other loops over bytes: each goes on
    // where one stopped.
    pub(crate) fn quick(
        &mut self,
        chip: Chip,
        w: Asks,
        clear: u64,
        bytes: &[u8],
        from: usize,
    ) -> usize
        requires { running.Standing chip clear bytes.now from (lane.track self.old) }
        ensures { lane.Came chip w clear bytes.now self.old (lane.track self.old) from self.new (lane.track self.new) result }
    {
        let mut at = from;
        let mut edge = self.rank.edge;
        let mut n = self.rank.count;
        while at < bytes.len() {
            let r = record_at(bytes, at);
            let e = edge + r.step;
            if ((r.step == 0) | (clear <= e)) | (!r.cke | (r.pins < 2)) {
                break;
            }
            if !self.frequent(chip, w, r, e, n) {
                break;
            }
            at += 6;
            n += 1;
            edge = e;
        }
        self.rank.edge = edge;
        self.rank.count = n;
        at
    }
}
