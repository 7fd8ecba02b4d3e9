// The waiting times after a record.
ghost use Rattle.std.specs.Prelude.{◌≡◌, ◌+◌, ◌++◌, max, map, get_or};
ghost use Rattle.std.specs.List.{range_with_len};
ghost use Rattle.laws.specs.Eight.{table};
ghost use Rattle.edges.specs.Asks as asks;

use crate::asked::Event;
use edges::Waits;
use std::array;

impl Event {
    fn act_waits(self, was: [u64; 8]) -> [u64; 8]
        ensures { result ≡ map (λ b. max (get_or was b 0) (asks.asks_act self.chip self.c self.r self.e self.g self.start self.four self.slow b)) (range_with_len 0 8) }
    {
        array::from_fn(|b| was[b].max(self.asks_act(b)))
    }

    fn rd_waits(self, was: [u64; 16]) -> [u64; 8]
        ensures { result ≡ map (λ b. max (get_or was b 0) (asks.asks_rd self.chip self.c self.r self.e self.g self.start self.four self.slow b)) (range_with_len 0 8) }
    {
        array::from_fn(|b| was[b].max(self.asks_rd(b)))
    }

    fn wr_waits(self, was: [u64; 16]) -> [u64; 8]
        ensures { result ≡ map (λ b. max (get_or was (b + 8) 0) (asks.asks_wr self.chip self.c self.r self.e self.g self.start self.four self.slow b)) (range_with_len 0 8) }
    {
        array::from_fn(|b| was[b + 8].max(self.asks_wr(b)))
    }

    fn pre_waits(self, was: [u64; 8]) -> [u64; 8]
        ensures { result ≡ map (λ b. max (get_or was b 0) (asks.asks_pre self.chip self.c self.r self.e self.g self.start self.four self.slow b)) (range_with_len 0 8) }
    {
        array::from_fn(|b| was[b].max(self.asks_pre(b)))
    }

    pub(crate) fn waits_next(self, w: Waits) -> Waits
        ensures { result ≡ asks.waits_next self.chip self.c self.r self.e self.g self.start self.four self.slow w }
    {
        let refs = self.asks_ref();
        Waits {
            act: self.act_waits(w.act),
            col: joined(self.rd_waits(w.col), self.wr_waits(w.col)),
            pre: self.pre_waits(w.pre),
            holds: [
                w.holds[0].max(refs),
                w.holds[1].max(self.asks_mrs()),
                w.holds[2].max(refs),
                w.holds[3].max(self.asks_sre()),
            ],
        }
    }
}

// Sixteen reads: of `array::from_fn` over both halves, and of `copy_from_slice` into them, no proof closed.
fn joined(a: [u64; 8], b: [u64; 8]) -> [u64; 16]
    ensures { result ≡ table (λ i. get_or a i 0) ++ table (λ i. get_or b i 0) }
{
    [
        a[0], a[1], a[2], a[3], a[4], a[5], a[6], a[7], b[0], b[1], b[2], b[3], b[4], b[5], b[6],
        b[7],
    ]
}
