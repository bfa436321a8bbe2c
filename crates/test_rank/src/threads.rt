use crate::covers::TestCovers;
use crate::fault::RankFault;
use crate::ranking::{RankRow, Ranking};
use cov_types::crosses_threads;

/// Covers and rankings cross threads.
fn rankings_cross_threads() {
    crosses_threads::<TestCovers>();
    crosses_threads::<RankFault>();
    crosses_threads::<RankRow>();
    crosses_threads::<Ranking>();
}
