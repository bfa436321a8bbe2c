ghost use Rattle.std.specs.Prelude.{◌≡◌};
ghost use Rattle.cov_types.specs.Limits as spec;

/// What a limit counts. The number of each stands in the table of limits of `docs/formats.md`.
#[derive(Clone, Copy, Debug, PartialEq, Eq)]
pub enum LimitName {
    /// Files named on the command line.
    Files,
    /// Bytes of all design files together.
    DesignBytes,
    /// Bytes of one identifier.
    Identifier,
    /// Open brackets and blocks at one place.
    Nesting,
    /// Operators since the last `;`.
    Operators,
    /// `if` and `for` of one process.
    Branches,
    /// Words of one memory.
    MemoryWords,
    /// Scopes of the elaborated design.
    Scopes,
    /// Processes of the flat design.
    Processes,
    /// Copies of statements after unrolling.
    Statements,
    /// Bits of all variables together.
    StateBits,
    /// Nodes of all typed expressions.
    Nodes,
    /// Nodes on a path of one typed expression.
    Depth,
    /// The greatest lengths of all displayed texts together, in bytes.
    EdgeText,
    /// Coverage points of a design.
    Points,
    /// Bytes of one key of a built point.
    KeyBytes,
    /// Bytes of a design file in CVD form.
    CvdBytes,
    /// Keys of a merged data file.
    DataPoints,
    /// Bytes of all keys of a merged data file.
    TotalKeyBytes,
    /// Bytes of one data file.
    DataBytes,
    /// Bytes of one stimulus file.
    StimulusBytes,
    /// Lines of all line lists of a report.
    LineEntries,
    /// Pairs of a test and a point that it covers.
    CoveredPairs,
    /// Bytes of all annotated sources together.
    SourceBytes,
    /// Bytes of all stimulus files of a regression.
    RegressBytes,
    /// Bytes of all printed runs of a regression.
    RegressText,
    /// The measured size of an exported design.
    ExportSize,
    /// Macro uses inside one another.
    MacroDepth,
    /// Tokens that come from macro uses.
    ExpandedTokens,
}

impl LimitName {
    /// The greatest quantity that is within the limit.
    pub fn most(self) -> u64
        ensures { result ≡ spec.most self }
    {
        match self {
            LimitName::Files => 4_096,
            LimitName::DesignBytes => 4_194_304,
            LimitName::Identifier => 255,
            LimitName::Nesting => 100,
            LimitName::Operators => 500,
            LimitName::Branches => 500,
            LimitName::MemoryWords => 65_536,
            LimitName::Scopes => 65_536,
            LimitName::Processes => 65_536,
            LimitName::Statements => 1_048_576,
            LimitName::StateBits => 16_777_216,
            LimitName::Nodes => 4_194_304,
            LimitName::Depth => 2_000,
            LimitName::EdgeText => 16_777_216,
            LimitName::Points => 1_048_576,
            LimitName::KeyBytes => 65_000,
            LimitName::CvdBytes => 1_073_741_824,
            LimitName::DataPoints => 4_194_304,
            LimitName::TotalKeyBytes => 1_073_741_824,
            LimitName::DataBytes => 4_294_967_296,
            LimitName::StimulusBytes => 1_099_511_627_776,
            LimitName::LineEntries => 67_108_864,
            LimitName::CoveredPairs => 268_435_456,
            LimitName::SourceBytes => 67_108_864,
            LimitName::RegressBytes => 268_435_456,
            LimitName::RegressText => 268_435_456,
            LimitName::ExportSize => 67_108_864,
            LimitName::MacroDepth => 100,
            LimitName::ExpandedTokens => 4_194_304,
        }
    }

    /// The limit's name, as it is printed.
    pub fn name(self) -> &'static [u8]
        ensures { result.now ≡ spec.limit_name self }
    {
        match self {
            LimitName::Files => b"files",
            LimitName::DesignBytes => b"design bytes",
            LimitName::Identifier => b"identifier",
            LimitName::Nesting => b"nesting",
            LimitName::Operators => b"operators",
            LimitName::Branches => b"branches",
            LimitName::MemoryWords => b"memory words",
            LimitName::Scopes => b"scopes",
            LimitName::Processes => b"processes",
            LimitName::Statements => b"statements",
            LimitName::StateBits => b"state bits",
            LimitName::Nodes => b"nodes",
            LimitName::Depth => b"depth",
            LimitName::EdgeText => b"edge text",
            LimitName::Points => b"points",
            LimitName::KeyBytes => b"key bytes",
            LimitName::CvdBytes => b"cvd bytes",
            LimitName::DataPoints => b"data points",
            LimitName::TotalKeyBytes => b"total key bytes",
            LimitName::DataBytes => b"data bytes",
            LimitName::StimulusBytes => b"stimulus bytes",
            LimitName::LineEntries => b"line entries",
            LimitName::CoveredPairs => b"covered pairs",
            LimitName::SourceBytes => b"source bytes",
            LimitName::RegressBytes => b"regress bytes",
            LimitName::RegressText => b"regress text",
            LimitName::ExportSize => b"export size",
            LimitName::MacroDepth => b"macro depth",
            LimitName::ExpandedTokens => b"expanded tokens",
        }
    }
}
