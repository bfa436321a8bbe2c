ghost use Rattle.std.specs.Prelude.{◌≡◌, ◌<◌, ◌≤◌, [], ◌∷◌, ◌++◌, length, IfErr, OnOk};
ghost use Rattle.circuit_run.specs.Digits.{digit};
ghost use Rattle.cvd_text.specs.Tokens.{decimal_text, hex_text, number, hex, word};
ghost use Rattle.cov_types.specs.Limits.{most};
ghost use Rattle.cov_types.specs.declared.limit.LimitName.TheVariants.{CvdBytes};
ghost use Rattle.cvd_write.specs.Writing.{Refuses, spaced};

use crate::fault::WriteFault;
use cov_types::{ByteText, LimitName};
use itoa::Buffer;
use std::alloc::{AllocError, Global};
use std::marker::Model;

/// The greatest number of bytes of a text.
const MOST: usize = 1_073_741_824;

/// A text that is being written.
#[derive(Drop)]
pub(crate) struct Writer {
    bytes: Vec<u8>,
}

impl Model for Writer {
    ghost use Rattle.std.specs.Prelude.{List, ℕ};

    ghost Value = { List ℕ };

    ghost view = { λ writer. writer.bytes.items };
}

impl Writer {
    pub(crate) fn new(alloc: Global) -> Writer
        ensures { result ≡ [] }
    {
        Writer {
            bytes: Vec::new(alloc),
        }
    }

    pub(crate) fn into_text(self) -> ByteText
        ensures { result ≡ self }
    {
        let Writer { bytes } = self;
        ByteText::from_vec(bytes)
    }

    /// Puts bytes at the end.
    pub(crate) fn put(&mut self, more: &[u8]) -> Result<(), AllocError>
        ensures { OnOk result (self.new ≡ self.old ++ more.now) }
    {
        self.bytes.extend_from_slice(more)
    }

    /// Stops where the text is past the limit.
    pub(crate) fn within(&self) -> Result<(), WriteFault>
        ensures within { OnOk result (length self.now ≤ most CvdBytes) }
        ensures past { IfErr result (λ fault. Refuses fault self.now) }
    {
        if self.bytes.len() > MOST {
            return Err(WriteFault::Limit(LimitName::CvdBytes));
        }
        Ok(())
    }

    /// A number in decimal.
    pub(crate) fn decimal(&mut self, value: u64) -> Result<(), AllocError>
        ensures { OnOk result (self.new ≡ self.old ++ decimal_text value) }
    {
        let mut buffer = Buffer::new();
        self.put(buffer.format(value).as_bytes())
    }

    /// A number in hexadecimal, lower case.
    pub(crate) fn hexadecimal(&mut self, value: u128) -> Result<(), AllocError>
        ensures { OnOk result (self.new ≡ self.old ++ hex_text value) }
    {
        let last = [hex_digit((value % 16) as u8)];
        if value < 16 {
            return self.put(&last);
        }
        self.hexadecimal(value / 16)?;
        self.put(&last)
    }

    /// A word behind a blank.
    pub(crate) fn word(&mut self, name: &[u8]) -> Result<(), AllocError>
        ensures { OnOk result (self.new ≡ self.old ++ spaced (word name.now ∷ [])) }
    {
        self.put(b" ")?;
        self.put(name)
    }

    /// A number behind a blank.
    pub(crate) fn number(&mut self, value: u64) -> Result<(), AllocError>
        ensures { OnOk result (self.new ≡ self.old ++ spaced (number value ∷ [])) }
    {
        self.put(b" ")?;
        self.decimal(value)
    }

    /// A line's end.
    pub(crate) fn end(&mut self) -> Result<(), AllocError>
        ensures { OnOk result (self.new ≡ self.old ++ (10 ∷ [])) }
    {
        self.put(b"\n")
    }

    /// A hexadecimal number behind a blank.
    pub(crate) fn hex(&mut self, value: u128) -> Result<(), AllocError>
        ensures { OnOk result (self.new ≡ self.old ++ spaced (hex value ∷ [])) }
    {
        self.put(b" ")?;
        self.hexadecimal(value)
    }
}

/// A digit, `0` to `9` or `a` to `f`.
pub(crate) fn hex_digit(value: u8) -> u8
    requires { value < 16 }
    ensures { result ≡ digit value }
{
    if value < 10 {
        b'0' + value
    } else {
        b'a' - 10 + value
    }
}
