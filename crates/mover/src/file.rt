// The file that the second argument names, read in sections.
use crate::trouble::Trouble;
use std::fs::File;

// A section's bytes: whole records in both editions.
pub(crate) const SECTION: usize = 6000;

// The file, where it can be opened.
pub(crate) fn opened(rt: &HostRuntime) -> Result<Option<File>, Trouble> {
    let file = inputs::open(rt, 2);
    if file.is_none() {
        return Err(Trouble::Unopened);
    }
    Ok(file)
}

// The bytes that come next, at the front of space; what does not fill it is to be the file's end.
pub(crate) fn next<'a>(source: &Option<File>, space: &'a mut [u8]) -> Result<&'a [u8], Trouble> {
    let n = inputs::fill(source, space);
    if n < space.len() && !inputs::ends(source) {
        return Err(Trouble::Unread);
    }
    Ok(&space[..n])
}
