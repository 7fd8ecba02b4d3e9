// A place of an array, or all of it, stored where yes holds.
ghost use Rattle.std.specs.Prelude.{◌≡◌, cond, ◌<◌, set, replicate};

pub(crate) fn put<T: Copy, const N: usize>(yes: bool, xs: [T; N], i: usize, v: T) -> [T; N]
    requires { i < N }
    ensures { result ≡ cond yes (set xs i v) xs }
{
    if yes {
        let mut out = xs;
        out[i] = v;
        return out;
    }
    xs
}

pub(crate) fn put_all<T: Copy, const N: usize>(yes: bool, xs: [T; N], v: T) -> [T; N]
    ensures { result ≡ cond yes (replicate N v) xs }
{
    if yes {
        return [v; N];
    }
    xs
}
