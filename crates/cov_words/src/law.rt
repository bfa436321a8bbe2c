//! Laws of the definitions.

ghost use Rattle.std.specs.Prelude.{◌≡◌, ◌≤◌, ℕ, List, Some, IfSome};
ghost use Rattle.cov_words.specs.Command.{Simulating, command_of, sim};
ghost use Rattle.cov_words.specs.Cut.{IsCut, Piece};
ghost use Rattle.cov_words.specs.Pieces.{pieces_of};
ghost use Rattle.cov_words.specs.declared.table.CommandName.{CommandName};

/// The function finds the pieces of the words behind a command exactly where they have some, and
/// they have one list of pieces at most.
pub fn pieces_are_the_cut()
    ensures sound { (c : CommandName) (words : List (List ℕ)) (pieces : List Piece) → pieces_of c words ≡ Some pieces → IsCut c words pieces }
    ensures complete { (c : CommandName) (words : List (List ℕ)) (pieces : List Piece) → IsCut c words pieces → pieces_of c words ≡ Some pieces }
    ensures one { (c : CommandName) (words : List (List ℕ)) (a b : List Piece) → IsCut c words a → IsCut c words b → a ≡ b }
{}

/// The width of counts that words ask for is at most 64 bits.
pub fn count_bits_are_in_range()
    ensures { (words : List (List ℕ)) (asked : Simulating) → command_of words ≡ Some (sim asked) → IfSome asked.count_bits (λ bits. bits ≤ 64) }
{}
