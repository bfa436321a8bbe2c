//! The lines of a script.

use crate::case::{Case, Held};
use crate::escape::unescape;
use crate::setup::{Failing, Port};
use anyhow::anyhow;
use std::alloc::Global;
use std::thread::Threads;

/// What the lines so far have set.
#[derive(Drop)]
pub(crate) struct Script {
    alloc: Global,
    held: Vec<Held>,
    watched: Vec<String>,
    piece: u32,
}

/// A text before the first blank, and the one behind it.
fn cut(text: &str) -> (&str, &str) {
    text.split_once(' ').unwrap_or((text, ""))
}

/// A word of a script: `\e` stands for the empty one.
fn word(alloc: Global, text: &str) -> anyhow::Result<String> {
    let bytes = unescape(alloc, if text == "\\e" { "" } else { text })?;
    Ok(String::from_utf8(bytes)?)
}

impl Script {
    /// No files, pieces of 64 bytes.
    pub(crate) fn new(alloc: Global) -> Script {
        Script {
            alloc,
            held: Vec::new(alloc),
            watched: Vec::new(alloc),
            piece: 64,
        }
    }

    /// Follows a line: an empty one and one that begins with `#` do nothing.
    pub(crate) fn follow<R: Threads + Sync + Print>(
        &mut self,
        rt: &R,
        line: &str,
    ) -> anyhow::Result<()> {
        let (name, rest) = cut(line);
        match name {
            "" | "#" => {}
            "new" => self.held = Vec::new(self.alloc),
            "watch" => self.watched = self.words(rest)?,
            "piece" => self.piece = rest.parse::<u32>()?,
            "file" => self.add_file(rest)?,
            "fill" => self.fill(rest)?,
            "many" => self.run_many(rt, rest)?,
            "run" => self.run(rt, &self.words(rest)?)?,
            "files" => self.run_failing(rt, rest, Port::Files)?,
            "output" => self.run_failing(rt, rest, Port::Output)?,
            "lines" => self.run_failing(rt, rest, Port::Lines)?,
            _ => return Err(anyhow!("no such line: {line}")),
        }
        Ok(())
    }

    /// Words with blanks between them.
    fn words(&self, text: &str) -> anyhow::Result<Vec<String>> {
        let mut words = Vec::new(self.alloc);
        for part in text.split_whitespace() {
            words.push(word(self.alloc, part)?)?;
        }
        Ok(words)
    }

    /// `NAME TEXT`: the name holds the text from now on.
    fn add_file(&mut self, rest: &str) -> anyhow::Result<()> {
        let (name, text) = cut(rest);
        let name = word(self.alloc, name)?;
        let bytes = unescape(self.alloc, text)?;
        self.hold(name, bytes)
    }

    /// `NAME COUNT TEXT`: the name holds the text so many times.
    fn fill(&mut self, rest: &str) -> anyhow::Result<()> {
        let (name, rest) = cut(rest);
        let (count, text) = cut(rest);
        let piece = unescape(self.alloc, text)?;
        let mut bytes = Vec::new(self.alloc);
        for _turn in 0..count.parse::<u32>()? {
            bytes.extend_from_slice(piece.as_slice())?;
        }
        self.hold(word(self.alloc, name)?, bytes)
    }

    /// Makes a name hold these bytes.
    fn hold(&mut self, name: String, bytes: Vec<u8>) -> anyhow::Result<()> {
        for file in self.held.iter_mut() {
            if file.name == name {
                file.bytes = bytes;
                return Ok(());
            }
        }
        self.held.push(Held { name, bytes })?;
        Ok(())
    }

    fn case<'a>(&'a self, words: &'a Vec<String>) -> Case<'a> {
        Case {
            words,
            piece: self.piece,
            held: self.held.as_slice(),
            watched: self.watched.as_slice(),
        }
    }

    /// Runs the words with no call failing.
    fn run<R: Threads + Sync + Print>(&self, rt: &R, words: &Vec<String>) -> anyhow::Result<()> {
        let told = self.case(words).told(rt, self.alloc, None)?;
        println!(rt; "{told}")?;
        Ok(())
    }

    /// `COUNT NAME WORD..`: runs the words with so many times the name behind them.
    fn run_many<R: Threads + Sync + Print>(&self, rt: &R, rest: &str) -> anyhow::Result<()> {
        let (count, rest) = cut(rest);
        let (name, rest) = cut(rest);
        let mut words = self.words(rest)?;
        for _turn in 0..count.parse::<u32>()? {
            words.push(word(self.alloc, name)?)?;
        }
        self.run(rt, &words)
    }

    /// Runs the words with each call of a kind failing in turn, up to the first run in which none fails. Equal answers that follow one
    /// another are told once, with the numbers of the first and the last of them.
    fn run_failing<R: Threads + Sync + Print>(
        &self,
        rt: &R,
        rest: &str,
        port: Port,
    ) -> anyhow::Result<()> {
        let words = self.words(rest)?;
        let case = self.case(&words);
        let whole = case.told(rt, self.alloc, None)?;
        let mut first = 1;
        let mut before = case.told(rt, self.alloc, Some(Failing { port, call: 1 }))?;
        for call in 2..100_000 {
            let told = case.told(rt, self.alloc, Some(Failing { port, call }))?;
            if told != before {
                println!(rt; "{first}-{} {before}", call - 1)?;
                first = call;
                before = told;
            }
            if before == whole {
                break;
            }
        }
        println!(rt; "{first} {before}")?;
        Ok(())
    }
}
