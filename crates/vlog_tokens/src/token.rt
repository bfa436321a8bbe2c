use cov_types::{ByteText, Place};

/// What a token is.
///
/// Each reserved word, operator and other mark has a variant of its own. The reserved words are
/// those of IEEE 1364-2005 that the language here keeps, and then `cover`, `property`, `logic`,
/// `always_ff` and `always_comb` of IEEE 1800.
#[derive(Debug, Drop)]
pub enum TokenKind {
    /// An identifier that is no reserved word.
    Name(ByteText),
    /// A system name, with the `$` that it begins with.
    System(ByteText),
    /// A number: its width in bits, whether it is signed, its value, and the bits that a `z` or a
    /// `?` stood for. A free bit is 0 in the value.
    Number {
        width: u8,
        signed: bool,
        value: u128,
        free: u128,
    },
    /// The bytes that a string stands for.
    Text(ByteText),
    /// `always`
    Always,
    /// `and`
    And,
    /// `assign`
    Assign,
    /// `automatic`
    Automatic,
    /// `begin`
    Begin,
    /// `buf`
    Buf,
    /// `bufif0`
    BufIf0,
    /// `bufif1`
    BufIf1,
    /// `case`
    Case,
    /// `casex`
    CaseX,
    /// `casez`
    CaseZ,
    /// `cell`
    Cell,
    /// `cmos`
    Cmos,
    /// `config`
    Config,
    /// `deassign`
    Deassign,
    /// `default`
    Default,
    /// `defparam`
    DefParam,
    /// `design`
    Design,
    /// `disable`
    Disable,
    /// `edge`
    Edge,
    /// `else`
    Else,
    /// `end`
    End,
    /// `endcase`
    EndCase,
    /// `endconfig`
    EndConfig,
    /// `endfunction`
    EndFunction,
    /// `endgenerate`
    EndGenerate,
    /// `endmodule`
    EndModule,
    /// `endprimitive`
    EndPrimitive,
    /// `endspecify`
    EndSpecify,
    /// `endtable`
    EndTable,
    /// `endtask`
    EndTask,
    /// `event`
    Event,
    /// `for`
    For,
    /// `force`
    Force,
    /// `forever`
    Forever,
    /// `fork`
    Fork,
    /// `function`
    Function,
    /// `generate`
    Generate,
    /// `genvar`
    GenVar,
    /// `highz0`
    HighZ0,
    /// `highz1`
    HighZ1,
    /// `if`
    If,
    /// `ifnone`
    IfNone,
    /// `incdir`
    IncDir,
    /// `include`
    Include,
    /// `initial`
    Initial,
    /// `inout`
    Inout,
    /// `input`
    Input,
    /// `instance`
    Instance,
    /// `integer`
    Integer,
    /// `join`
    Join,
    /// `large`
    Large,
    /// `liblist`
    LibList,
    /// `library`
    Library,
    /// `localparam`
    LocalParam,
    /// `macromodule`
    MacroModule,
    /// `medium`
    Medium,
    /// `module`
    Module,
    /// `nand`
    Nand,
    /// `negedge`
    NegEdge,
    /// `nmos`
    Nmos,
    /// `nor`
    Nor,
    /// `noshowcancelled`
    NoShowCancelled,
    /// `not`
    Not,
    /// `notif0`
    NotIf0,
    /// `notif1`
    NotIf1,
    /// `or`
    Or,
    /// `output`
    Output,
    /// `parameter`
    Parameter,
    /// `pmos`
    Pmos,
    /// `posedge`
    PosEdge,
    /// `primitive`
    Primitive,
    /// `pull0`
    Pull0,
    /// `pull1`
    Pull1,
    /// `pulldown`
    PullDown,
    /// `pullup`
    PullUp,
    /// `pulsestyle_onevent`
    PulseStyleOnEvent,
    /// `pulsestyle_ondetect`
    PulseStyleOnDetect,
    /// `rcmos`
    Rcmos,
    /// `real`
    Real,
    /// `realtime`
    RealTime,
    /// `reg`
    Reg,
    /// `release`
    Release,
    /// `repeat`
    Repeat,
    /// `rnmos`
    Rnmos,
    /// `rpmos`
    Rpmos,
    /// `rtran`
    Rtran,
    /// `rtranif0`
    RtranIf0,
    /// `rtranif1`
    RtranIf1,
    /// `scalared`
    Scalared,
    /// `showcancelled`
    ShowCancelled,
    /// `signed`
    Signed,
    /// `small`
    Small,
    /// `specify`
    Specify,
    /// `specparam`
    SpecParam,
    /// `strong0`
    Strong0,
    /// `strong1`
    Strong1,
    /// `supply0`
    Supply0,
    /// `supply1`
    Supply1,
    /// `table`
    Table,
    /// `task`
    Task,
    /// `time`
    Time,
    /// `tran`
    Tran,
    /// `tranif0`
    TranIf0,
    /// `tranif1`
    TranIf1,
    /// `tri`
    Tri,
    /// `tri0`
    Tri0,
    /// `tri1`
    Tri1,
    /// `triand`
    TriAnd,
    /// `trior`
    TriOr,
    /// `trireg`
    TriReg,
    /// `unsigned`
    Unsigned,
    /// `use`
    Use,
    /// `uwire`
    UWire,
    /// `vectored`
    Vectored,
    /// `wait`
    Wait,
    /// `wand`
    Wand,
    /// `weak0`
    Weak0,
    /// `weak1`
    Weak1,
    /// `while`
    While,
    /// `wire`
    Wire,
    /// `wor`
    Wor,
    /// `xnor`
    Xnor,
    /// `xor`
    Xor,
    /// `cover`
    Cover,
    /// `property`
    Property,
    /// `logic`
    Logic,
    /// `always_ff`
    AlwaysFf,
    /// `always_comb`
    AlwaysComb,
    /// `+`
    Plus,
    /// `-`
    Minus,
    /// `*`
    Star,
    /// `/`
    Slash,
    /// `%`
    Percent,
    /// `!`
    Exclamation,
    /// `~`
    Tilde,
    /// `&`
    Ampersand,
    /// `|`
    Pipe,
    /// `^`
    Caret,
    /// `<`
    Less,
    /// `>`
    Greater,
    /// `?`
    Question,
    /// `~&`
    TildeAmpersand,
    /// `~|`
    TildePipe,
    /// `~^`
    TildeCaret,
    /// `^~`
    CaretTilde,
    /// `&&`
    LogicalAnd,
    /// `||`
    LogicalOr,
    /// `==`
    Equal,
    /// `!=`
    NotEqual,
    /// `<=`
    LessOrEqual,
    /// `>=`
    GreaterOrEqual,
    /// `<<`
    ShiftLeft,
    /// `>>`
    ShiftRight,
    /// `===`
    CaseEqual,
    /// `!==`
    CaseNotEqual,
    /// `<<<`
    ArithmeticShiftLeft,
    /// `>>>`
    ArithmeticShiftRight,
    /// `(`
    OpenParen,
    /// `)`
    CloseParen,
    /// `[`
    OpenBracket,
    /// `]`
    CloseBracket,
    /// `{`
    OpenBrace,
    /// `}`
    CloseBrace,
    /// `,`
    Comma,
    /// `;`
    Semicolon,
    /// `:`
    Colon,
    /// `.`
    Dot,
    /// `#`
    Hash,
    /// `@`
    At,
    /// `=`
    EqualSign,
    /// `+:`
    PlusColon,
    /// `-:`
    MinusColon,
}

/// A token and the place of its first byte.
#[derive(Debug, Drop)]
pub struct Token {
    pub place: Place,
    pub what: TokenKind,
}
