use crate::token::Token;
use cov_types::{Pragma, Rows};

/// The tokens of a text and its coverage comments, each in the order of the text.
#[derive(Debug, Drop)]
pub struct TokenList {
    pub tokens: Rows<Token>,
    pub pragmas: Rows<Pragma>,
}
