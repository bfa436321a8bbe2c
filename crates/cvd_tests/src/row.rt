//! Rows, and what they are answered.

ghost use Rattle.design_meaning.specs.Valid.{IsValid};

use cvd_file::{CvdFault, decode, encode};
use design_tree::Instrumented;
use std::alloc::{AllocError, Global};

/// What is wrong with a text, or whether its design has it.
pub fn answer(alloc: Global, text: &[u8]) -> Result<String, AllocError> {
    match decode(alloc, text) {
        Ok((design, _order)) => written_again(alloc, &design, text),
        Err(fault) => told(alloc, &fault),
    }
}

fn written_again(alloc: Global, design: &Instrumented, text: &[u8]) -> Result<String, AllocError>
    requires { IsValid design.now }
{
    match encode(alloc, design) {
        Ok(again) => {
            if again.as_slice() == text {
                format!(in alloc; "same text")
            } else {
                format!(in alloc; "another text")
            }
        }
        Err(fault) => told(alloc, &fault),
    }
}

fn told(alloc: Global, fault: &CvdFault) -> Result<String, AllocError> {
    match fault {
        CvdFault::NotCvd(place) => format!(in alloc; "{fault} {place}"),
        CvdFault::Version(place) => format!(in alloc; "{fault} {place}"),
        CvdFault::BadToken(place) => format!(in alloc; "{fault} {place}"),
        CvdFault::BadNumber(place) => format!(in alloc; "{fault} {place}"),
        CvdFault::BadShape(place) => format!(in alloc; "{fault} {place}"),
        CvdFault::Truncated(place) => format!(in alloc; "{fault} {place}"),
        CvdFault::Trailing(place) => format!(in alloc; "{fault} {place}"),
        CvdFault::Invalid(flow) => format!(in alloc; "{fault} {flow}"),
        CvdFault::Limit(_) => format!(in alloc; "{fault}"),
        CvdFault::NoMemory => format!(in alloc; "{fault}"),
    }
}
