ghost use Rattle.std.specs.Prelude.{◌≡◌};
ghost use Rattle.std.specs.List.{list_all};
ghost use Rattle.vlog_words.specs.Names.{continues_name};
ghost use Rattle.vlog_words.specs.Identifier as spec;

use crate::keyword::word_of;
use crate::name::{begins_with_name, continues_name};

/// Whether the whole text is one identifier that a design may use (IEEE 1364-2005, 3.7): no
/// reserved word, and none that begins with `cov$`. Any length is allowed. It takes no memory.
#[tactic(auto, unfolding(crate::specs::Identifier::is_identifier))]
pub fn is_identifier(text: &[u8]) -> bool
    ensures { result ≡ spec.is_identifier text.now }
{
    is_spelled(text) && word_of(text).is_none() && !text.starts_with(b"cov$")
}

#[tactic(auto, unfolding(crate::specs::Identifier::is_spelled))]
fn is_spelled(text: &[u8]) -> bool
    ensures { result ≡ spec.is_spelled text.now }
{
    begins_with_name(text) && all_continue(text)
}

fn all_continue(text: &[u8]) -> bool
    ensures { result ≡ list_all continues_name text.now }
{
    text.iter().all(|byte| continues_name(*byte))
}
