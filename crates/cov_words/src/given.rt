//! What the words behind a command give to its options.

ghost use Rattle.std.specs.Prelude.{◌≡◌, ◌∷◌, [], MatchOption, length, nat_le, option_copied};
ghost use Rattle.std.specs.List.{list_all};
ghost use Rattle.cov_words.specs.Command as spec;
ghost use Rattle.cov_words.specs.Seen.{seen_piece};

use crate::arguments::{Arguments, Pieces};
use crate::piece::Piece;
use crate::table::{CommandName, OptionName};
use crate::values::{is_name, is_value_of};
use cov_port::read_dec;

impl<'a> Arguments<'a> {
    /// The value of the option, which is empty where it takes none.
    pub(crate) fn value_of(&self, option: OptionName) -> Option<&'a str>
        ensures { option_copied result ≡ spec.value_of option self.now }
    {
        for piece in self.pieces() {
            if let Some(value) = value_in(option, piece) {
                return Some(value);
            }
        }
        None
    }

    pub(crate) fn is_given(&self, option: OptionName) -> bool
        ensures { result ≡ spec.is_given option self.now }
    {
        self.value_of(option).is_some()
    }

    /// The number that the value of the option spells.
    pub(crate) fn number_of(&self, option: OptionName) -> Option<u64>
        ensures { result ≡ spec.number_of option self.now }
    {
        match self.value_of(option) {
            None => None,
            Some(text) => read_dec(text.as_bytes(), u64::MAX),
        }
    }

    /// Whether each value and name may stand there, no option is given twice, and the command takes as
    /// many names.
    pub(crate) fn fit(&self, command: CommandName) -> bool
        ensures { result ≡ spec.fits command self.now }
    {
        self.are_in_range() && self.are_single(command) && command.takes_names(self.count_names())
    }

    fn are_in_range(&self) -> bool
        ensures { result ≡ list_all spec.is_in_range self.now }
    {
        for piece in self.pieces() {
            if !is_in_range(piece) {
                return false;
            }
        }
        true
    }

    fn are_single(&self, command: CommandName) -> bool
        ensures { result ≡ spec.are_single command self.now }
    {
        command
            .options()
            .iter()
            .all(|option| self.is_single(*option))
    }

    /// Whether the option is given at most once.
    fn is_single(&self, option: OptionName) -> bool
        ensures { result ≡ nat_le (length (spec.values_of option self.now)) 1 }
    {
        let mut seen = false;
        for piece in self.pieces() {
            if value_in(option, piece).is_some() {
                if seen {
                    return false;
                }
                seen = true;
            }
        }
        true
    }

    pub(crate) fn count_names(&self) -> usize
        ensures { result ≡ length (spec.names_of self.now) }
    {
        let mut count = 0;
        for piece in self.pieces() {
            if let Piece::Name(_) = piece {
                count += 1;
            }
        }
        count
    }
}

impl<'a> Pieces<'a> {
    /// The next name; options before it are passed over.
    pub(crate) fn next_name(&mut self) -> Option<&'a str>
        ensures { MatchOption result (spec.names_of self.old ≡ []) (λ name. spec.names_of self.old ≡ name.now ∷ spec.names_of self.new) }
    {
        while let Some(piece) = self.next() {
            if let Piece::Name(name) = piece {
                return Some(name);
            }
        }
        None
    }
}

/// The value that the piece gives to the option.
fn value_in<'a>(option: OptionName, piece: Piece<'a>) -> Option<&'a str>
    ensures { option_copied result ≡ spec.value_in option (seen_piece piece.entry) }
{
    match piece {
        Piece::Given(given, value) if option.word() == given.word() => Some(value),
        _ => None,
    }
}

/// Whether the value is one that its option takes, or the name is a file's.
fn is_in_range(piece: Piece<'_>) -> bool
    ensures { result ≡ spec.is_in_range (seen_piece piece.entry) }
{
    match piece {
        Piece::Given(option, value) => is_value_of(option.takes(), value),
        Piece::Name(text) => is_name(text),
    }
}
