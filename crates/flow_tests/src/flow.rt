//! What the flow check says of a row's design.

use crate::fault::told;
use cvd_file::decode;
use design_rows::text_of;
use std::alloc::Global;

/// Whether the design of a row flows, or its fault.
pub(crate) fn verdict(alloc: Global, row: &str) -> anyhow::Result<String> {
    let text = text_of(alloc, row)?;
    match decode(alloc, text.as_slice()) {
        Ok(_) => Ok(String::from_str(alloc, "flows")?),
        Err(fault) => told(alloc, fault),
    }
}
