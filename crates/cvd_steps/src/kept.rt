//! What is held of what was read.

use crate::sums::Sums;
use design_tree::{Step, StepArm};
use sqlite_items::Items;

/// The steps of a block, and what the lines up to its `end` add up to.
#[derive(Drop)]
pub struct Body {
    pub steps: Items<Step>,
    pub sums: Sums,
}

/// A step, and what the lines up to its last add up to.
#[derive(Drop)]
pub(crate) struct ReadStep {
    pub(crate) step: Step,
    pub(crate) sums: Sums,
}

/// An arm, and what the lines up to its last add up to.
#[derive(Drop)]
pub(crate) struct ReadArm {
    pub(crate) arm: StepArm,
    pub(crate) sums: Sums,
}

/// Arms, and what the lines up to the last one's last add up to.
#[derive(Drop)]
pub(crate) struct Arms {
    pub(crate) arms: Items<StepArm>,
    pub(crate) sums: Sums,
}

/// Where a step stands: how deep its block is, and how many steps of the block come before it.
#[derive(Clone, Copy, Debug)]
pub(crate) struct Place {
    pub(crate) deep: u32,
    pub(crate) before: usize,
}

/// The width of what a case compares, how often an arm has to be read, and how deep the case stands.
#[derive(Clone, Copy, Debug)]
pub(crate) struct Case {
    pub(crate) width: u8,
    pub(crate) turns: u128,
    pub(crate) deep: u32,
}
