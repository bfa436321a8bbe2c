use crate::token::{Token, TokenKind};
use crate::token_list::TokenList;
use cov_types::crosses_threads;

/// Tokens and their lists cross threads.
fn tokens_cross_threads() {
    crosses_threads::<TokenKind>();
    crosses_threads::<Token>();
    crosses_threads::<TokenList>();
}
