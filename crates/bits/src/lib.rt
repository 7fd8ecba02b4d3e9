// Six bytes as one word, most significant first: a header and a record are six bytes each.
#![tactic(auto)]

ghost use Rattle.bits.specs.Promises.{Word};

pub fn word(six: [u8; 6]) -> u64
    ensures { Word six result }
{
    let [b0, b1, b2, b3, b4, b5] = six;
    u64::from_be_bytes([0, 0, b0, b1, b2, b3, b4, b5])
}
