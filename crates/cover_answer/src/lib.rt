//! What the command `cover` answers with all its options: definitions, and their laws.
#![tactic(auto)]

mod law;

pub use law::{
    cover_has_one_answer, cover_is_done_unless_wrong, writes_in_any_order, writing_merges,
};
