// What a seldom command asks of the banks and of the device before it may come.
ghost use Rattle.std.specs.Prelude.{true, ◌≡◌, ◌-◌, ◌≤◌, ◌<◌};
ghost use Rattle.records.specs.Command.{a10, bank_in};
ghost use Rattle.registers.specs.Allowed.{allowed};
ghost use Rattle.edges.specs.Seldom as seldom;

use edges::{Banks, Device};
use header::Header;
use kept::since;
use records::Record;

fn idle(banks: &Banks, e: u64) -> bool
    ensures { result ≡ true → seldom.AllIdle banks.now e }
{
    (0..8).all(|b| (banks.actno[b] <= banks.shutno[b]) & (banks.shutat[b] <= e))
}

fn calm(banks: &Banks, pre: &[u64; 8], e: u64) -> bool
    ensures { result ≡ true → seldom.AllCalm banks.now pre.now e }
{
    (0..8).all(|b| ((banks.shutno[b] < banks.actno[b]) | (banks.shutat[b] <= e)) & (pre[b] <= e))
}

pub(crate) fn may_rest(banks: &Banks, starts: u64, hold: u64, e: u64) -> bool
    ensures { result ≡ true → seldom.Rested banks.now starts hold e }
{
    ((starts <= e) & (hold <= e)) && idle(banks, e)
}

pub(crate) fn may_all(banks: &Banks, pre: &[u64; 8], starts: u64, r: Record, e: u64) -> bool
    ensures { result ≡ true → (a10 r ≡ true) × seldom.AllCalm banks.now pre.now e × (starts ≤ e) }
{
    ((r.a / 1024 % 2 == 1) & (starts <= e)) && calm(banks, pre, e)
}

pub(crate) fn may_set(header: Header, r: Record, out: u64, e: u64) -> bool
    ensures { result ≡ true → (out ≤ e) × (allowed header (bank_in r) r.a ≡ true) }
{
    (out <= e) && registers::decode(header, (r.bank % 8) as u32, r.a).is_ok()
}

// What the latest event of a place asks for is over.
pub(crate) fn over(device: &Device, x: usize, e: u64) -> bool
    requires { x < 9 }
    ensures { result ≡ true → seldom.Past device.now x e }
{
    device.need[x] as u64 <= since(e, device.at[x])
}
