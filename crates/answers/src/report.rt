// The 20 bytes of a verdict, and the 40 of two.
ghost use Rattle.std.specs.Prelude.{◌≡◌, ◌≤◌, ◌++◌, length, take, drop};
ghost use Rattle.refusals.specs.Refusals.{number_in};
ghost use Rattle.answers.specs.Answer.{Reported, ReportedBoth};
ghost use Rattle.answers.specs.Promises.{VerdictBytes};

use crate::Verdict;
use refusals::Refusal;

// Check 9; then the 20 bytes into the lent slice. Later bytes keep their values; a refusal writes nothing.
pub fn put_verdict(v: Verdict, out: &mut [u8]) -> Result<(), Refusal>
    ensures { Reported v out.old (number_in result) out.new }
{
    if out.len() < 20 {
        return Err(Refusal::Room);
    }
    let twenty = verdict_bytes(v);
    copy(&twenty, out);
    Ok(())
}

// The same of two ranks' verdicts, the first rank's first: 40 bytes.
pub fn put_verdicts(first: Verdict, second: Verdict, out: &mut [u8]) -> Result<(), Refusal>
    ensures { ReportedBoth first second out.old (number_in result) out.new }
{
    if out.len() < 40 {
        return Err(Refusal::Room);
    }
    let one = verdict_bytes(first);
    let two = verdict_bytes(second);
    copy(&one, out);
    copy(&two, &mut out[20..]);
    Ok(())
}

// A text at the start of the lent bytes.
fn copy(text: &[u8], out: &mut [u8])
    requires { length text.now ≤ length out.old }
    ensures { out.new ≡ take (length text.now) text.now ++ drop (length text.now) out.old }
{
    out[..text.len()].copy_from_slice(text);
}

// Of each number its last one, three or six bytes, most significant first.
pub fn verdict_bytes(v: Verdict) -> [u8; 20]
    ensures { VerdictBytes v result }
{
    let [.., outcome] = v.outcome.to_be_bytes();
    let [.., rule] = v.rule.to_be_bytes();
    let [.., r0, r1, r2] = v.number.to_be_bytes();
    let [.., p0, p1, p2] = v.partner.to_be_bytes();
    let [_, _, e0, e1, e2, e3, e4, e5] = v.edge.to_be_bytes();
    let [.., n0, n1, n2] = v.needed.to_be_bytes();
    let [.., f0, f1, f2] = v.found.to_be_bytes();
    [
        outcome, rule, r0, r1, r2, p0, p1, p2, e0, e1, e2, e3, e4, e5, n0, n1, n2, f0, f1, f2,
    ]
}
