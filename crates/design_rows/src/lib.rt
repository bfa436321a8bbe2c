//! Design files on one line: for rows of tests.
#![tactic(auto)]

use anyhow::anyhow;
use std::alloc::{AllocError, Global};

/// The text that a row stands for: `|` is a line feed, `^` is byte 1, `=` is byte 2, and brackets are nothing.
///
/// `{N:PART}` is a part so many times, in which `#` is the number of the turn, counted from 0, `+` the number after it, and `%` the number of the
/// turn in hexadecimal. No part holds another.
pub fn text_of(alloc: Global, row: &str) -> anyhow::Result<Vec<u8>> {
    let mut text = Vec::new(alloc);
    for (turn, piece) in row.split("{").enumerate() {
        if turn == 0 {
            add(&mut text, piece)?;
        } else {
            let (group, rest) = piece.split_once("}").ok_or(anyhow!("no closing brace"))?;
            let (count, part) = group.split_once(":").ok_or(anyhow!("no number of turns"))?;
            add_turns(alloc, &mut text, count.parse::<u32>()?, part)?;
            add(&mut text, rest)?;
        }
    }
    Ok(text)
}

/// Appends a part, once for each turn.
fn add_turns(alloc: Global, text: &mut Vec<u8>, count: u32, part: &str) -> anyhow::Result<()> {
    for turn in 0..count {
        for byte in part.bytes() {
            match byte {
                b'#' => add(text, format!(in alloc; "{turn}")?.as_str())?,
                b'+' => add(
                    text,
                    format!(in alloc; "{}", turn.saturating_add(1))?.as_str(),
                )?,
                b'%' => add(text, format!(in alloc; "{turn:x}")?.as_str())?,
                other => add_byte(text, other)?,
            }
        }
    }
    Ok(())
}

fn add(text: &mut Vec<u8>, part: &str) -> Result<(), AllocError> {
    for byte in part.bytes() {
        add_byte(text, byte)?;
    }
    Ok(())
}

fn add_byte(text: &mut Vec<u8>, byte: u8) -> Result<(), AllocError> {
    match byte {
        b'[' => {}
        b']' => {}
        b'|' => text.push(b'\n')?,
        b'^' => text.push(1)?,
        b'=' => text.push(2)?,
        other => text.push(other)?,
    }
    Ok(())
}
