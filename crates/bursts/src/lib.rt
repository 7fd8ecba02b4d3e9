// Burst order: which word of a burst comes when (01, "Registers", last paragraph). No order is stored: each word is worked
// out from the start and its position, eight at once, and a call copies as many as the burst has into the lent buffer.
#![tactic(auto)]

ghost use Rattle.std.specs.Prelude.{◌≡◌, ◌+◌, ◌<◌};
ghost use Rattle.refusals.specs.Refusals.{number_in};
ghost use Rattle.bursts.specs.Burst.{sequential, interleave, word_of, words_from, Ordered};
ghost use Rattle.bursts.specs.Parts.{write_start, Put};

use refusals::Refusal;

// Writes the words of a burst to the start of out, one byte a word. Type 0 is sequential and direction
// 0 a read; any other number is the other. A refusal, 10 before 9, leaves out as it was.
// The type and the direction are numbers, as C hands them over: any u32 is one.
pub fn order(
    length: u32,
    start: u32,
    kind: u32,
    direction: u32,
    out: &mut [u8],
) -> Result<(), Refusal>
    ensures { Ordered length start kind direction out.old (number_in result) out.new }
{
    if start > 7 {
        return Err(Refusal::Burst);
    }
    let words = words(length, start as u8, kind, direction);
    match length {
        8 => put(&words, out),
        4 => put(&words[..4], out),
        _ => Err(Refusal::Burst),
    }
}

// Puts words at the start of out, or refuses by 9 where out is too short for them.
fn put(words: &[u8], out: &mut [u8]) -> Result<(), Refusal>
    ensures { Put words.now out.old (number_in result) out.new }
{
    if out.len() < words.len() {
        return Err(Refusal::Room);
    }
    out[..words.len()].copy_from_slice(words);
    Ok(())
}

// Words 0 to 7; a burst of four is the first four of them.
fn words(length: u32, s: u8, kind: u32, direction: u32) -> [u8; 8]
    requires { s < 8 }
    ensures { result ≡ words_from (word_of length s kind direction) 0 8 }
{
    if direction != 0 {
        return up(write_start(length, s));
    }
    if kind != 0 {
        return interleaved(s);
    }
    in_sequence(s)
}

// Where a write starts: at s with its low three bits cleared (eight) or low two (four).
fn write_start(length: u32, s: u8) -> u8
    requires { s < 8 }
    ensures { (result < 8) × (result ≡ write_start length s) }
{
    if length == 8 {
        return s / 8 * 8;
    }
    s / 4 * 4
}

fn up(s: u8) -> [u8; 8]
    requires { s < 8 }
    ensures { result ≡ words_from (◌+◌ s) 0 8 }
{
    [s + 0, s + 1, s + 2, s + 3, s + 4, s + 5, s + 6, s + 7]
}

fn interleaved(s: u8) -> [u8; 8]
    ensures { result ≡ words_from (interleave s) 0 8 }
{
    [s ^ 0, s ^ 1, s ^ 2, s ^ 3, s ^ 4, s ^ 5, s ^ 6, s ^ 7]
}

fn in_sequence(s: u8) -> [u8; 8]
    requires { s < 8 }
    ensures { result ≡ words_from (sequential s) 0 8 }
{
    [
        word(s, 0),
        word(s, 1),
        word(s, 2),
        word(s, 3),
        word(s, 4),
        word(s, 5),
        word(s, 6),
        word(s, 7),
    ]
}

// Four times (s's bit 2 xor i's bit 2) plus (s + i) mod 4.
fn word(s: u8, i: u8) -> u8
    requires { (s < 8) × (i < 8) }
    ensures { result ≡ sequential s i }
{
    4 * ((s / 4 % 2) ^ (i / 4 % 2)) + (s + i) % 4
}
