// Where a refused record begins, in the bytes of its section.
ghost use Rattle.std.specs.Prelude.{◌≡◌, ◌-◌, ◌*◌};
ghost use Rattle.records.specs.Record.{records};
ghost use Rattle.running.specs.Ranges.{limit};
ghost use Rattle.tally.specs.Refused.{before_zero};
ghost use Rattle.tally.specs.Promises.{RefusedAt};

// The records of a recording, at most.
const LIMIT: u64 = 1048576;

// Behind `count` records: the one cut short (5), the first of step 0 (6), the first past the limit (7). No other refusal is of a record.
pub fn refused_at(refused: u64, bytes: &[u8], count: u32) -> usize
    ensures { RefusedAt refused bytes.now count result }
{
    if refused == 5 {
        return bytes.len() - bytes.len() % 6;
    }
    if refused == 6 {
        return step_of_zero(bytes);
    }
    if refused == 7 {
        return past_limit(count);
    }
    0
}

fn past_limit(count: u32) -> usize
    ensures { result ≡ 6 * (limit - count) }
{
    let taken = count as u64;
    if taken <= LIMIT {
        return 6 * (LIMIT - taken) as usize;
    }
    0
}

fn step_of_zero(bytes: &[u8]) -> usize
    ensures { result ≡ 6 * before_zero (records bytes.now) }
{
    let records = records::sixes(bytes);
    for (i, &six) in records.iter().enumerate() {
        if records::decode(six).step == 0 {
            return 6 * i;
        }
    }
    6 * records.len()
}
