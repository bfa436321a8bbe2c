/// Which points a build makes (Verilator User's Guide, coverage options).
///
/// `line` asks for points of kinds `Line` and `Branch`, `toggle` and `user` for theirs. With `underscore` variables whose
/// names begin with an underscore have toggle points too. A variable of more than `max_width` bits, over all its words, has
/// none.
#[derive(Clone, Copy, Debug, PartialEq, Eq)]
pub struct CoverOptions {
    pub line: bool,
    pub toggle: bool,
    pub user: bool,
    pub underscore: bool,
    pub max_width: u64,
}
