use vlog_tree::Expr;

/// The head of a loop of a process: its variable, the variable's first value, the test before each pass, and the next value.
#[derive(Clone, Copy)]
pub struct PassHead<'a> {
    pub name: &'a [u8],
    pub from: &'a Expr,
    pub test: &'a Expr,
    pub step: &'a Expr,
}
