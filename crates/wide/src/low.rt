// Records narrowed many at a time, in words whose first byte is the least significant one: such a word is one load and one store, and of a
// loop over words alone the compiler makes vectors.
ghost use Rattle.std.specs.Prelude.{◌≡◌, false, true, cond, ◌++◌, ◌+◌, ◌*◌, ◌≤◌, ◌<◌, length, take, drop};
ghost use Rattle.wide.specs.Wide.{word_at};
ghost use Rattle.wide.specs.Low as low;

// So many words at a time.
pub(crate) const ROW: usize = 125;

// The n records from a place on, as each rank sees them; not 0 if zero bits are set.
pub(crate) fn look(
    bytes: &[u8],
    at: usize,
    n: usize,
    one: &mut [u64; ROW],
    two: &mut [u64; ROW],
) -> u64
    requires n_bound { n ≤ 125 }
    requires n_in_bounds { at + 8 * n ≤ length bytes.now }
    requires one_len { (length one.old ≡ 125) × (length two.old ≡ 125) }
    ensures { low.Looked (drop at bytes.now) n one.new two.new result }
{
    let mut spare: u64 = 0;
    for i in 0..n {
        let x = low_word(bytes, at + 8 * i);
        one[i] = first_seen(x);
        two[i] = second_seen(x);
        spare = spare + spare_bits(x);
    }
    spare
}

// The first n words, six bytes each, to a place. A word is put whole, and the next one over its last two bytes.
pub(crate) fn lay(words: &[u64; ROW], n: usize, out: &mut [u8], at: usize)
    requires words_len { (length words.now ≡ 125) × (n ≤ 125) }
    requires n_in_bounds { at + 6 * n ≤ length out.old }
    ensures { out.new ≡ take at out.old ++ low.lows n words.now ++ drop (at + 6 * n) out.old }
{
    if n == 0 {
        return;
    }
    let last = n - 1;
    for i in 0..last {
        put_whole(out, at + 6 * i, words[i]);
    }
    put(out, at + 6 * last, words[last]);
}

// Those of the first or the second rank.
pub(crate) fn lay_either(
    one: &[u64; ROW],
    two: &[u64; ROW],
    second: bool,
    n: usize,
    out: &mut [u8],
    at: usize,
)
    requires one_len { (length one.now ≡ 125) × (length two.now ≡ 125) }
    requires n_bound { (n ≤ 125) × (at + 6 * n ≤ length out.old) }
    ensures { out.new ≡ take at out.old ++ low.lows n (cond second two.now one.now) ++ drop (at + 6 * n) out.old }
{
    if second {
        lay(two, n, out, at);
        return;
    }
    lay(one, n, out, at);
}

fn put(out: &mut [u8], at: usize, n: u64)
    requires { at + 6 ≤ length out.old }
    ensures { out.new ≡ take at out.old ++ low.low6 n ++ drop (at + 6) out.old }
{
    let [b0, b1, b2, b3, b4, b5, ..] = n.to_le_bytes();
    out[at..at + 6].copy_from_slice(&[b0, b1, b2, b3, b4, b5]);
}

// Two bytes more than a record has.
fn put_whole(out: &mut [u8], at: usize, n: u64)
    requires { at + 8 ≤ length out.old }
    ensures out_after { take (at + 6) out.new ≡ take at out.old ++ low.low6 n }
    ensures out_unchanged { drop (at + 8) out.new ≡ drop (at + 8) out.old }
    ensures out_len_unchanged { length out.new ≡ length out.old }
{
    out[at..at + 8].copy_from_slice(&n.to_le_bytes());
}

fn low_word(bytes: &[u8], at: usize) -> u64
    requires { at + 8 ≤ length bytes.now }
    ensures { low.Turned result (word_at bytes.now at) }
{
    u64::from_le_bytes([
        bytes[at],
        bytes[at + 1],
        bytes[at + 2],
        bytes[at + 3],
        bytes[at + 4],
        bytes[at + 5],
        bytes[at + 6],
        bytes[at + 7],
    ])
}

fn first_seen(x: u64) -> u64
    ensures { result ≡ low.seen_low false x }
{
    shared(x) + x / 536870912 % 4 * 1073741824
}

fn second_seen(x: u64) -> u64
    ensures { result ≡ low.seen_low true x }
{
    shared(x) + x / 1073741824 % 2 * 2147483648 + x / 268435456 % 2 * 1073741824
}

// What both ranks see.
fn shared(x: u64) -> u64
    ensures value { result ≡ low.shared x }
    ensures upper_bound { result < 281474976710656 }
{
    x % 16777216 + upper(x) + lower(x)
}

fn upper(x: u64) -> u64
    ensures { result ≡ low.upper x }
{
    x / 16777216 % 8 * 134217728
        + x / 4294967296 % 32 * 34359738368
        + x / 1099511627776 % 32 * 8796093022208
}

fn lower(x: u64) -> u64
    ensures { result ≡ low.lower x }
{
    x / 137438953472 % 8 * 16777216
        + x / 35184372088832 % 8 * 4294967296
        + x / 9007199254740992 % 8 * 1099511627776
}

fn spare_bits(x: u64) -> u64
    ensures { result ≡ low.spare_low x }
{
    x / 281474976710656 % 32 + x / 72057594037927936 * 256
}
