// The two ways in which a recording is moved.
ghost use Rattle.std.specs.Prelude.{◌≤◌};

#[derive(Clone, Copy)]
pub(crate) enum Direction {
    Widen,
    Narrow,
}

impl Direction {
    // The way that the first argument names.
    pub(crate) fn named(rt: &HostRuntime) -> Option<Direction> {
        if inputs::is(rt, 1, b"widen") {
            return Some(Direction::Widen);
        }
        if inputs::is(rt, 1, b"narrow") {
            return Some(Direction::Narrow);
        }
        None
    }

    // The edition that a move starts from.
    pub(crate) fn from(self) -> u64 {
        match self {
            Direction::Widen => 1,
            Direction::Narrow => 2,
        }
    }

    // The edition that it comes to.
    pub(crate) fn to(self) -> u8
        ensures { result ≤ 2 }
    {
        match self {
            Direction::Widen => 2,
            Direction::Narrow => 1,
        }
    }
}
