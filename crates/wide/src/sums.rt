// The steps of a section of edition 2, where nothing else of its records is asked for.
ghost use Rattle.std.specs.Prelude.{◌≡◌, ◌≤◌, length};
ghost use Rattle.wide.specs.Wide.{wides};
ghost use Rattle.wide.specs.Steps.{steps_seen};
ghost use Rattle.wide.specs.Promises.{StepsIn};

use crate::{Steps, eights, word};

// The bytes of 1,048,576 records.
const MOST: usize = 8388608;

// Of the whole records, 1,048,576 at most.
pub fn steps_in(bytes: &[u8]) -> Steps
    ensures { StepsIn bytes.now result }
{
    if MOST < bytes.len() {
        return summed(&bytes[..MOST]);
    }
    summed(bytes)
}

fn summed(bytes: &[u8]) -> Steps
    requires { length bytes.now ≤ 8388608 }
    ensures { result ≡ steps_seen (wides bytes.now) }
{
    let mut sum: u64 = 0;
    let mut zero = false;
    let mut spare = false;
    for &eight in eights(bytes) {
        let w = word(eight);
        let step = w / 1099511627776;
        sum += step;
        zero = zero | (step == 0);
        spare = spare | (w % 8192 != 0);
    }
    Steps { sum, zero, spare }
}
