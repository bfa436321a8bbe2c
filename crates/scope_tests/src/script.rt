//! The lines of a script.

use crate::design::files_of;
use crate::told::{answer_told, size_told};
use anyhow::anyhow;
use elab_scope::scopes;
use std::alloc::Global;

/// The files of a case, as far as they have come.
#[derive(Drop)]
pub(crate) struct Script {
    alloc: Global,
    texts: Vec<Vec<u8>>,
}

/// A text before the first blank, and the one behind it.
fn cut(text: &str) -> (&str, &str) {
    text.split_once(' ').unwrap_or((text, ""))
}

impl Script {
    /// No file yet.
    pub(crate) fn new(alloc: Global) -> Script {
        Script {
            alloc,
            texts: Vec::new(alloc),
        }
    }

    /// Follows a line: `file` and `chain` begin a file, `line` and `times` make it longer, `scopes` and `size` end the case and
    /// say what its scopes are. An empty line and one that begins with `#` do nothing.
    pub(crate) fn follow(&mut self, line: &str) -> anyhow::Result<Option<String>> {
        let (name, rest) = cut(line);
        match name {
            "" | "#" => Ok(None),
            "file" => self.add_file(rest),
            "line" => self.add_lines(1, rest),
            "times" => self.add_times(rest),
            "chain" => self.add_chain(rest.parse::<u32>()?),
            _ => self.tell(name, rest),
        }
    }

    /// A file with a first line.
    fn add_file(&mut self, line: &str) -> anyhow::Result<Option<String>> {
        if self.texts.push(Vec::new(self.alloc)).is_err() {
            return Err(anyhow!("no memory"));
        }
        self.add_lines(1, line)
    }

    /// A line so many times at the end of the last file.
    fn add_lines(&mut self, count: u32, line: &str) -> anyhow::Result<Option<String>> {
        let text = self.texts.last_mut().ok_or(anyhow!("no file"))?;
        for _turn in 0..count {
            text.extend_from_slice(line.as_bytes())?;
            text.push(b'\n')?;
        }
        Ok(None)
    }

    /// `COUNT LINE`
    fn add_times(&mut self, rest: &str) -> anyhow::Result<Option<String>> {
        let (count, line) = cut(rest);
        self.add_lines(count.parse::<u32>()?, line)
    }

    /// A file of a module and so many others, each of which the one before has an instance of.
    fn add_chain(&mut self, count: u32) -> anyhow::Result<Option<String>> {
        let alloc = self.alloc;
        self.add_file("// a chain")?;
        for n in 0..count {
            let inner = n.saturating_add(1);
            self.add_lines(
                1,
                format!(in alloc; "module m{n}; m{inner} u (); endmodule")?.as_str(),
            )?;
        }
        self.add_lines(1, format!(in alloc; "module m{count}; endmodule")?.as_str())
    }

    /// What the scopes below a module of this name are. The next case begins without files.
    fn tell(&mut self, name: &str, top: &str) -> anyhow::Result<Option<String>> {
        let files = files_of(self.alloc, self.texts.as_slice())?;
        self.texts.clear();
        let answer = scopes(self.alloc, &files, top.as_bytes());
        match name {
            "scopes" => Ok(Some(answer_told(self.alloc, answer)?)),
            "size" => Ok(Some(size_told(self.alloc, answer)?)),
            _ => Err(anyhow!("no such line: {name}")),
        }
    }
}
