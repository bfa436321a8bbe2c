//! The commands, with what they are asked for.

use crate::names::Names;

/// A command that words spell.
#[derive(Drop)]
pub enum Command<'a> {
    /// `check`, with the design files.
    Check(Names<'a>),
    /// `build`
    Build(Build<'a>),
    /// `sim`
    Sim(Sim<'a>),
    /// `cover`
    Cover(Cover<'a>),
    /// `selftest`, with its number, from 1 to 10,000.
    SelfTest(u16),
}

/// What `build` is asked for. An option that isn't given is `None` or false; what holds then is the
/// command's to say.
#[derive(Drop)]
pub struct Build<'a> {
    /// `--top`: the name of the module at the top.
    pub top: &'a str,
    /// `--out`: the name that the built design is stored at.
    pub out: &'a str,
    /// `--clock`: the name of the clock.
    pub clock: Option<&'a str>,
    /// `--coverage`: points of all kinds.
    pub all: bool,
    /// `--coverage-line`
    pub line: bool,
    /// `--coverage-toggle`
    pub toggle: bool,
    /// `--coverage-user`
    pub user: bool,
    /// `--coverage-underscore`
    pub underscore: bool,
    /// `--coverage-max-width`, in bits: 0 to 2^32.
    pub max_width: Option<u64>,
    /// The design files.
    pub files: Names<'a>,
}

/// What `sim` is asked for. An option that isn't given is `None`; what holds then is the command's
/// to say.
#[derive(Drop)]
pub struct Sim<'a> {
    /// `--count-bits`: the width of each counter, 1 to 64.
    pub count_bits: Option<u64>,
    /// `--data`: the name that the data file is stored at.
    pub data_name: Option<&'a str>,
    /// The file of the built design.
    pub design: &'a str,
    /// The file of the stimulus.
    pub stimulus: &'a str,
}

/// What `cover` is asked for. An option that isn't given is `None` or false; what holds then is the
/// command's to say.
#[derive(Drop)]
pub struct Cover<'a> {
    /// `--write`: the name that the merged file is stored at.
    pub write: Option<&'a str>,
    /// `--write-info`: the name that the info file is stored at.
    pub write_info: Option<&'a str>,
    /// `--rank`
    pub rank: bool,
    /// `--annotate`: the folder that annotated sources are stored in.
    pub annotate: Option<&'a str>,
    /// `--annotate-all`, which stands only with `--annotate`.
    pub annotate_all: bool,
    /// `--annotate-points`, which stands only with `--annotate`.
    pub annotate_points: bool,
    /// `--annotate-min`: a count of hits.
    pub annotate_min: Option<u64>,
    /// `--filter-type`: a pattern of `*`, `?`, lower-case letters, digits and `_`.
    pub filter_type: Option<&'a str>,
    /// The data files.
    pub files: Names<'a>,
}
