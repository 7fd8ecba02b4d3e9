// Small functions of numbers.
ghost use Rattle.std.specs.Prelude.{◌≡◌, cond, ◌≤◌};

pub(crate) fn either<T: Copy>(yes: bool, a: T, b: T) -> T
    ensures { result ≡ cond yes a b }
{
    if yes {
        return a;
    }
    b
}

pub(crate) fn if_so(yes: bool, a: u64) -> u64
    ensures value { result ≡ cond yes a 0 }
    ensures upper_bound { result ≤ a }
{
    if yes {
        return a;
    }
    0
}
