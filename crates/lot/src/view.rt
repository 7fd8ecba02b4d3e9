// A rank, and what it sees of a section: in edition 1 the records as they stand, in edition 2 its own, narrowed to six bytes each.

// The bytes of a section, and so of what is narrowed.
pub(crate) const SECTION: usize = 6000;

#[derive(Clone, Copy)]
pub(crate) enum Rank {
    First,
    Second,
}

#[derive(Clone, Copy)]
pub(crate) struct View {
    pub(crate) edition: u64,
    pub(crate) rank: Rank,
}

impl View {
    // The records that the rank sees, or the section as it stands; space holds what is narrowed.
    pub(crate) fn of<'a>(self, bytes: &'a [u8], space: &'a mut [u8; SECTION]) -> &'a [u8] {
        if self.edition != 2 {
            return bytes;
        }
        let second = matches!(self.rank, Rank::Second);
        let part = wide::narrow_part(bytes, 0, second, space);
        &space[..part.len]
    }
}
