// The program's one line, of a verdict or of a refusal: 01, P8 to P10. Numbers are in decimal, and a newline ends the line.
#![tactic(auto)]

ghost use Rattle.std.specs.Prelude.{◌≡◌, ◌+◌, ◌≤◌, ◌++◌, length, take, drop};
ghost use Rattle.lines.specs.Line.{spaced, clean_words, broken_words};
ghost use Rattle.lines.specs.Parts.{Put};
ghost use Rattle.lines.specs.Promises.{VerdictLine, RefusalLine, VerdictWords};

use answers::Verdict;

// The bytes of the longest line: `broken`, six numbers of 20 digits with a space before each, the newline.
pub const ROOM: usize = 133;

// Puts the verdict's line at the start of out, and answers how many bytes it takes.
pub fn verdict_line(v: Verdict, out: &mut [u8; ROOM]) -> usize
    ensures { VerdictLine v out.old result out.new }
{
    let at = verdict_words(v, out);
    put(out, at, b"\n")
}

// The same for a refusal's number.
pub fn refusal_line(n: u64, out: &mut [u8; ROOM]) -> usize
    ensures { RefusalLine n out.old result out.new }
{
    let word = put(out, 0, b"refused");
    let at = number(out, word, n);
    put(out, at, b"\n")
}

// The verdict's line without its newline.
pub fn verdict_words(v: Verdict, out: &mut [u8; ROOM]) -> usize
    ensures { VerdictWords v out.old result out.new }
{
    let outcome = v.outcome;
    if outcome == 0 {
        return clean(v, out);
    }
    broken(v, out)
}

fn clean(v: Verdict, out: &mut [u8; ROOM]) -> usize
    ensures upper_bound { result ≤ 132 }
    ensures put { Put (clean_words v) 0 out.old result out.new }
{
    let word = put(out, 0, b"clean");
    let records = number(out, word, v.number);
    number(out, records, v.edge)
}

fn broken(v: Verdict, out: &mut [u8; ROOM]) -> usize
    ensures upper_bound { result ≤ 132 }
    ensures put { Put (broken_words v) 0 out.old result out.new }
{
    let word = put(out, 0, b"broken");
    let rule = number(out, word, v.rule);
    let record = number(out, rule, v.number);
    let partner = number(out, record, v.partner);
    let edge = number(out, partner, v.edge);
    let needed = number(out, edge, v.needed);
    number(out, needed, v.found)
}

// Puts a space and n's digits at a place, and answers where they end.
fn number(out: &mut [u8; ROOM], at: usize, n: u64) -> usize
    requires { at + 21 ≤ 133 }
    ensures upper_bound { result ≤ at + 21 }
    ensures put { Put (spaced n) at out.old result out.new }
{
    let start = put(out, at, b" ");
    let mut digits = [0u8; 20];
    let k = io::decimal(n, &mut digits);
    put(out, start, &digits[..k])
}

// Puts a text at a place, and answers where it ends.
fn put(out: &mut [u8], at: usize, text: &[u8]) -> usize
    requires { at + length text.now ≤ length out.old }
    ensures { Put text.now at out.old result out.new }
{
    at + copy(text, &mut out[at..])
}

// A text at the start of the lent bytes, and its length.
fn copy(text: &[u8], out: &mut [u8]) -> usize
    requires { length text.now ≤ length out.old }
    ensures count { result ≡ length text.now }
    ensures put { out.new ≡ take (length text.now) text.now ++ drop (length text.now) out.old }
{
    out[..text.len()].copy_from_slice(text);
    text.len()
}
