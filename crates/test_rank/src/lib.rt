//! Rankings of tests: which of them together cover all points, and what each adds.
#![tactic(auto)]

mod choose;
mod covers;
mod fault;
mod gains;
mod law;
mod marks;
mod order;
mod point_index;
mod ranking;
mod table;
mod test_list;
mod threads;

pub use covers::TestCovers;
pub use fault::RankFault;
pub use law::one_ranking;
pub use order::rank;
pub use ranking::{RankRow, Ranking};
pub use table::rank_text;
