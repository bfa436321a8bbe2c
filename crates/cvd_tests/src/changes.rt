//! Many texts that are made of one.

use crate::tally::Tally;
use cvd_file::decode;
use std::alloc::Global;

fn count(alloc: Global, text: &[u8], tally: &mut Tally) {
    match decode(alloc, text) {
        Ok(_) => tally.design(),
        Err(fault) => tally.fault(&fault),
    }
}

/// Tries every proper front of a text.
pub(crate) fn prefixes(alloc: Global, text: &[u8]) -> anyhow::Result<String> {
    let mut tally = Tally::new();
    for length in 0..text.len() {
        count(alloc, &text[..length], &mut tally);
    }
    Ok(tally.told(alloc)?)
}

/// Tries a text with each byte replaced by a few others in turn.
pub(crate) fn replaced(alloc: Global, text: Vec<u8>) -> anyhow::Result<String> {
    let mut tally = Tally::new();
    let mut text = text;
    for at in 0..text.len() {
        let kept = text[at];
        for other in b" 0a\n" {
            text[at] = *other;
            count(alloc, text.as_slice(), &mut tally);
        }
        text[at] = kept;
    }
    Ok(tally.told(alloc)?)
}
