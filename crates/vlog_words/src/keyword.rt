ghost use Rattle.std.specs.Prelude.{◌≡◌};
ghost use Rattle.vlog_words.specs.Words as spec;

use crate::late::{LateKind, late_kind};
use vlog_tokens::TokenKind;

/// The word of the first of these spellings that the bytes are.
macro_rules! spelled {
    ($bytes:expr; $($spelling:literal => $kind:expr,)*) => {{
        $(if $bytes == $spelling.as_slice() {
            return Some($kind);
        })*
        None
    }};
}

fn word_a(bytes: &[u8]) -> Option<TokenKind>
    ensures { result ≡ spec.lookup spec.words_a bytes.now }
{
    spelled! { bytes;
        b"always" => TokenKind::Always,
        b"always_comb" => late_kind(LateKind::AlwaysComb),
        b"always_ff" => late_kind(LateKind::AlwaysFf),
        b"and" => TokenKind::And,
        b"assign" => TokenKind::Assign,
        b"automatic" => TokenKind::Automatic,
    }
}

fn word_b(bytes: &[u8]) -> Option<TokenKind>
    ensures { result ≡ spec.lookup spec.words_b bytes.now }
{
    spelled! { bytes;
        b"begin" => TokenKind::Begin,
        b"buf" => TokenKind::Buf,
        b"bufif0" => TokenKind::BufIf0,
        b"bufif1" => TokenKind::BufIf1,
    }
}

fn word_c(bytes: &[u8]) -> Option<TokenKind>
    ensures { result ≡ spec.lookup spec.words_c bytes.now }
{
    spelled! { bytes;
        b"case" => TokenKind::Case,
        b"casex" => TokenKind::CaseX,
        b"casez" => TokenKind::CaseZ,
        b"cell" => TokenKind::Cell,
        b"cmos" => TokenKind::Cmos,
        b"config" => TokenKind::Config,
        b"cover" => late_kind(LateKind::Cover),
    }
}

fn word_d(bytes: &[u8]) -> Option<TokenKind>
    ensures { result ≡ spec.lookup spec.words_d bytes.now }
{
    spelled! { bytes;
        b"deassign" => TokenKind::Deassign,
        b"default" => TokenKind::Default,
        b"defparam" => TokenKind::DefParam,
        b"design" => TokenKind::Design,
        b"disable" => TokenKind::Disable,
    }
}

fn word_e(bytes: &[u8]) -> Option<TokenKind>
    ensures { result ≡ spec.lookup spec.words_e bytes.now }
{
    spelled! { bytes;
        b"edge" => TokenKind::Edge,
        b"else" => TokenKind::Else,
        b"end" => TokenKind::End,
        b"endcase" => TokenKind::EndCase,
        b"endconfig" => TokenKind::EndConfig,
        b"endfunction" => TokenKind::EndFunction,
        b"endgenerate" => TokenKind::EndGenerate,
        b"endmodule" => TokenKind::EndModule,
        b"endprimitive" => TokenKind::EndPrimitive,
        b"endspecify" => TokenKind::EndSpecify,
        b"endtable" => TokenKind::EndTable,
        b"endtask" => TokenKind::EndTask,
        b"event" => TokenKind::Event,
    }
}

fn word_f(bytes: &[u8]) -> Option<TokenKind>
    ensures { result ≡ spec.lookup spec.words_f bytes.now }
{
    spelled! { bytes;
        b"for" => TokenKind::For,
        b"force" => TokenKind::Force,
        b"forever" => TokenKind::Forever,
        b"fork" => TokenKind::Fork,
        b"function" => TokenKind::Function,
    }
}

fn word_g(bytes: &[u8]) -> Option<TokenKind>
    ensures { result ≡ spec.lookup spec.words_g bytes.now }
{
    spelled! { bytes;
        b"generate" => TokenKind::Generate,
        b"genvar" => TokenKind::GenVar,
    }
}

fn word_h(bytes: &[u8]) -> Option<TokenKind>
    ensures { result ≡ spec.lookup spec.words_h bytes.now }
{
    spelled! { bytes;
        b"highz0" => TokenKind::HighZ0,
        b"highz1" => TokenKind::HighZ1,
    }
}

fn word_i(bytes: &[u8]) -> Option<TokenKind>
    ensures { result ≡ spec.lookup spec.words_i bytes.now }
{
    spelled! { bytes;
        b"if" => TokenKind::If,
        b"ifnone" => TokenKind::IfNone,
        b"incdir" => TokenKind::IncDir,
        b"include" => TokenKind::Include,
        b"initial" => TokenKind::Initial,
        b"inout" => TokenKind::Inout,
        b"input" => TokenKind::Input,
        b"instance" => TokenKind::Instance,
        b"integer" => TokenKind::Integer,
    }
}

fn word_j(bytes: &[u8]) -> Option<TokenKind>
    ensures { result ≡ spec.lookup spec.words_j bytes.now }
{
    spelled! { bytes;
        b"join" => TokenKind::Join,
    }
}

fn word_l(bytes: &[u8]) -> Option<TokenKind>
    ensures { result ≡ spec.lookup spec.words_l bytes.now }
{
    spelled! { bytes;
        b"large" => TokenKind::Large,
        b"liblist" => TokenKind::LibList,
        b"library" => TokenKind::Library,
        b"localparam" => TokenKind::LocalParam,
        b"logic" => late_kind(LateKind::Logic),
    }
}

fn word_m(bytes: &[u8]) -> Option<TokenKind>
    ensures { result ≡ spec.lookup spec.words_m bytes.now }
{
    spelled! { bytes;
        b"macromodule" => TokenKind::MacroModule,
        b"medium" => TokenKind::Medium,
        b"module" => TokenKind::Module,
    }
}

fn word_n(bytes: &[u8]) -> Option<TokenKind>
    ensures { result ≡ spec.lookup spec.words_n bytes.now }
{
    spelled! { bytes;
        b"nand" => TokenKind::Nand,
        b"negedge" => TokenKind::NegEdge,
        b"nmos" => TokenKind::Nmos,
        b"nor" => TokenKind::Nor,
        b"noshowcancelled" => TokenKind::NoShowCancelled,
        b"not" => TokenKind::Not,
        b"notif0" => TokenKind::NotIf0,
        b"notif1" => TokenKind::NotIf1,
    }
}

fn word_o(bytes: &[u8]) -> Option<TokenKind>
    ensures { result ≡ spec.lookup spec.words_o bytes.now }
{
    spelled! { bytes;
        b"or" => TokenKind::Or,
        b"output" => TokenKind::Output,
    }
}

fn word_p(bytes: &[u8]) -> Option<TokenKind>
    ensures { result ≡ spec.lookup spec.words_p bytes.now }
{
    spelled! { bytes;
        b"parameter" => TokenKind::Parameter,
        b"pmos" => TokenKind::Pmos,
        b"posedge" => TokenKind::PosEdge,
        b"primitive" => TokenKind::Primitive,
        b"property" => late_kind(LateKind::Property),
        b"pull0" => TokenKind::Pull0,
        b"pull1" => TokenKind::Pull1,
        b"pulldown" => TokenKind::PullDown,
        b"pullup" => TokenKind::PullUp,
        b"pulsestyle_ondetect" => TokenKind::PulseStyleOnDetect,
        b"pulsestyle_onevent" => TokenKind::PulseStyleOnEvent,
    }
}

fn word_r(bytes: &[u8]) -> Option<TokenKind>
    ensures { result ≡ spec.lookup spec.words_r bytes.now }
{
    spelled! { bytes;
        b"rcmos" => TokenKind::Rcmos,
        b"real" => TokenKind::Real,
        b"realtime" => TokenKind::RealTime,
        b"reg" => TokenKind::Reg,
        b"release" => TokenKind::Release,
        b"repeat" => TokenKind::Repeat,
        b"rnmos" => TokenKind::Rnmos,
        b"rpmos" => TokenKind::Rpmos,
        b"rtran" => TokenKind::Rtran,
        b"rtranif0" => TokenKind::RtranIf0,
        b"rtranif1" => TokenKind::RtranIf1,
    }
}

fn word_s(bytes: &[u8]) -> Option<TokenKind>
    ensures { result ≡ spec.lookup spec.words_s bytes.now }
{
    spelled! { bytes;
        b"scalared" => TokenKind::Scalared,
        b"showcancelled" => TokenKind::ShowCancelled,
        b"signed" => TokenKind::Signed,
        b"small" => TokenKind::Small,
        b"specify" => TokenKind::Specify,
        b"specparam" => TokenKind::SpecParam,
        b"strong0" => TokenKind::Strong0,
        b"strong1" => TokenKind::Strong1,
        b"supply0" => TokenKind::Supply0,
        b"supply1" => TokenKind::Supply1,
    }
}

fn word_t(bytes: &[u8]) -> Option<TokenKind>
    ensures { result ≡ spec.lookup spec.words_t bytes.now }
{
    spelled! { bytes;
        b"table" => TokenKind::Table,
        b"task" => TokenKind::Task,
        b"time" => TokenKind::Time,
        b"tran" => TokenKind::Tran,
        b"tranif0" => TokenKind::TranIf0,
        b"tranif1" => TokenKind::TranIf1,
        b"tri" => TokenKind::Tri,
        b"tri0" => TokenKind::Tri0,
        b"tri1" => TokenKind::Tri1,
        b"triand" => TokenKind::TriAnd,
        b"trior" => TokenKind::TriOr,
        b"trireg" => TokenKind::TriReg,
    }
}

fn word_u(bytes: &[u8]) -> Option<TokenKind>
    ensures { result ≡ spec.lookup spec.words_u bytes.now }
{
    spelled! { bytes;
        b"unsigned" => TokenKind::Unsigned,
        b"use" => TokenKind::Use,
        b"uwire" => TokenKind::UWire,
    }
}

fn word_v(bytes: &[u8]) -> Option<TokenKind>
    ensures { result ≡ spec.lookup spec.words_v bytes.now }
{
    spelled! { bytes;
        b"vectored" => TokenKind::Vectored,
    }
}

fn word_w(bytes: &[u8]) -> Option<TokenKind>
    ensures { result ≡ spec.lookup spec.words_w bytes.now }
{
    spelled! { bytes;
        b"wait" => TokenKind::Wait,
        b"wand" => TokenKind::Wand,
        b"weak0" => TokenKind::Weak0,
        b"weak1" => TokenKind::Weak1,
        b"while" => TokenKind::While,
        b"wire" => TokenKind::Wire,
        b"wor" => TokenKind::Wor,
    }
}

fn word_x(bytes: &[u8]) -> Option<TokenKind>
    ensures { result ≡ spec.lookup spec.words_x bytes.now }
{
    spelled! { bytes;
        b"xnor" => TokenKind::Xnor,
        b"xor" => TokenKind::Xor,
    }
}

/// The reserved word that these bytes are, if they are one.
pub fn word_of(bytes: &[u8]) -> Option<TokenKind>
    ensures { result ≡ spec.word_of bytes.now }
{
    let [first, ..] = bytes else {
        return None;
    };
    match *first {
        b'a' => word_a(bytes),
        b'b' => word_b(bytes),
        b'c' => word_c(bytes),
        b'd' => word_d(bytes),
        b'e' => word_e(bytes),
        b'f' => word_f(bytes),
        b'g' => word_g(bytes),
        b'h' => word_h(bytes),
        b'i' => word_i(bytes),
        b'j' => word_j(bytes),
        b'l' => word_l(bytes),
        b'm' => word_m(bytes),
        b'n' => word_n(bytes),
        b'o' => word_o(bytes),
        b'p' => word_p(bytes),
        b'r' => word_r(bytes),
        b's' => word_s(bytes),
        b't' => word_t(bytes),
        b'u' => word_u(bytes),
        b'v' => word_v(bytes),
        b'w' => word_w(bytes),
        b'x' => word_x(bytes),
        _ => None,
    }
}
