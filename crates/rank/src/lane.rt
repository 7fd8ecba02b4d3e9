// The rank of what the loop holds: the floor is put into the eight banks and the device.
ghost use Rattle.std.specs.Prelude.{◌++◌, ◌≡◌, ◌+◌, max, get_or};
ghost use Rattle.laws.specs.Eight.{table};
ghost use Rattle.edges.specs.Floors as floors;

use edges::{Floor, Rank, Waits};

// A rank in the lane: what a section asks of every bank stands in the floor, and is put into the waits at its end.
#[derive(Clone, Copy)]
pub(crate) struct Lane {
    pub rank: Rank,
    pub floor: Floor,
}

fn none() -> Floor
    ensures { result ≡ floors.no_floor }
{
    Floor {
        act: 0,
        rd: 0,
        wr: 0,
        pre: 0,
        idle: 0,
        out: 0,
    }
}

// Place by place: tried with `array::from_fn` and `map`, but the proof of the whole array did not close, and that of a loop is longer.
#[tactic(auto, unfolding(laws::specs::Eight::table))]
fn eight(xs: [u64; 8], x: u64) -> [u64; 8]
    ensures { result ≡ table (λ b. max (get_or xs b 0) x) }
{
    [
        xs[0].max(x),
        xs[1].max(x),
        xs[2].max(x),
        xs[3].max(x),
        xs[4].max(x),
        xs[5].max(x),
        xs[6].max(x),
        xs[7].max(x),
    ]
}

#[tactic(auto, unfolding(laws::specs::Eight::table))]
fn sixteen(xs: [u64; 16], x: u64, y: u64) -> [u64; 16]
    ensures { result ≡ table (λ b. max (get_or xs b 0) x) ++ table (λ b. max (get_or xs (b + 8) 0) y) }
{
    [
        xs[0].max(x),
        xs[1].max(x),
        xs[2].max(x),
        xs[3].max(x),
        xs[4].max(x),
        xs[5].max(x),
        xs[6].max(x),
        xs[7].max(x),
        xs[8].max(y),
        xs[9].max(y),
        xs[10].max(y),
        xs[11].max(y),
        xs[12].max(y),
        xs[13].max(y),
        xs[14].max(y),
        xs[15].max(y),
    ]
}

#[tactic(auto, unfolding(edges::specs::Floors::under))]
fn under(w: Waits, f: Floor) -> Waits
    ensures { result ≡ floors.under f w }
{
    let out = f.idle.max(f.out);
    let h = w.holds;
    Waits {
        act: eight(w.act, f.act),
        col: sixteen(w.col, f.rd, f.wr),
        pre: eight(w.pre, f.pre),
        holds: [
            h[0].max(f.idle),
            h[1].max(out),
            h[2].max(f.idle),
            h[3].max(out),
        ],
    }
}

impl Lane {
    pub(crate) fn of(rank: Rank) -> Lane
        ensures { result ≡ record { rank = rank; floor = floors.no_floor } }
    {
        Lane {
            rank: rank,
            floor: none(),
        }
    }

    // The floor is put in.
    #[tactic(auto, unfolding(edges::specs::Floors::settled))]
    pub(crate) fn settle(&mut self)
        ensures { self.new ≡ record { rank = floors.settled self.old.floor self.old.rank; floor = floors.no_floor } }
    {
        self.rank.waits = under(self.rank.waits, self.floor);
        self.floor = none();
    }
}
