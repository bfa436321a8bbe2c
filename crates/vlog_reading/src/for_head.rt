use cov_types::ByteText;
use vlog_tree::Expr;

/// What the head of a `for` says: `(name = from; test; step_name = step)`.
#[derive(Drop)]
pub struct ForHead {
    pub name: ByteText,
    pub from: Expr,
    pub test: Expr,
    pub step_name: ByteText,
    pub step: Expr,
}
