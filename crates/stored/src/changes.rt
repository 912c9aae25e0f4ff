// What a call changed in a buffer.
use crate::{bytes, decimal, word};
use std::io;
use std::io::Write;

// All words that were changed, of two slices of one length. The buffer's name and the place stand before a word where the one before it was not changed.
pub fn changed<W: Write>(out: &mut W, name: &[u8], old: &[u32], new: &[u32]) -> io::Result<()> {
    let mut before = false;
    for (i, (a, b)) in old.iter().zip(new).enumerate() {
        let differ = a != b;
        if differ {
            if !before {
                bytes(out, name)?;
                decimal(out, i as u64)?;
                bytes(out, b":")?;
            }
            word(out, *b)?;
        }
        before = differ;
    }
    Ok(())
}
