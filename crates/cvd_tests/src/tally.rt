//! How often each answer comes.

use cvd_file::CvdFault;
use std::alloc::{AllocError, Global};

/// How many texts have each fault, and how many are a design's.
#[derive(Clone, Copy)]
pub(crate) struct Tally {
    not_cvd: u32,
    version: u32,
    token: u32,
    number: u32,
    shape: u32,
    truncated: u32,
    trailing: u32,
    other: u32,
    designs: u32,
}

impl Tally {
    pub(crate) fn new() -> Tally {
        Tally {
            not_cvd: 0,
            version: 0,
            token: 0,
            number: 0,
            shape: 0,
            truncated: 0,
            trailing: 0,
            other: 0,
            designs: 0,
        }
    }

    /// One more text that is a design's, whether it flows or not.
    pub(crate) fn design(&mut self) {
        self.designs = self.designs.saturating_add(1);
    }

    /// One more text with such a fault.
    pub(crate) fn fault(&mut self, fault: &CvdFault) {
        let count = match fault {
            CvdFault::NotCvd(_) => &mut self.not_cvd,
            CvdFault::Version(_) => &mut self.version,
            CvdFault::BadToken(_) => &mut self.token,
            CvdFault::BadNumber(_) => &mut self.number,
            CvdFault::BadShape(_) => &mut self.shape,
            CvdFault::Truncated(_) => &mut self.truncated,
            CvdFault::Trailing(_) => &mut self.trailing,
            CvdFault::Invalid(_) => &mut self.designs,
            CvdFault::Limit(_) | CvdFault::NoMemory => &mut self.other,
        };
        *count = count.saturating_add(1);
    }

    pub(crate) fn told(&self, alloc: Global) -> Result<String, AllocError> {
        let Tally {
            not_cvd,
            version,
            token,
            number,
            shape,
            truncated,
            trailing,
            other,
            designs,
        } = *self;
        format!(in alloc;
            "NotCvd {not_cvd} Version {version} BadToken {token} BadNumber {number} BadShape {shape} Truncated {truncated} Trailing {trailing} other {other} designs {designs}"
        )
    }
}
