use crate::arm::{ArmComment, ArmRow};
use crate::elab_fault::ElabFault;
use crate::flat_expression::{FlatExpr, FlatSelect};
use crate::flat_fault::FlatFault;
use crate::flat_source::{FlatProcess, FlatSource, FlatVar};
use crate::flat_statement::{FlatArm, FlatKind, FlatStmt};
use crate::scope::{Constant, Scope, ScopeItem, ScopeTree};
use cov_types::crosses_threads;

/// Scope trees cross threads, with all their parts.
pub(crate) fn trees_cross_threads() {
    crosses_threads::<Constant>();
    crosses_threads::<ScopeItem>();
    crosses_threads::<Scope>();
    crosses_threads::<ScopeTree>();
}

/// Expressions and statements cross threads.
pub(crate) fn statements_cross_threads() {
    crosses_threads::<FlatSelect>();
    crosses_threads::<FlatExpr>();
    crosses_threads::<FlatKind>();
    crosses_threads::<FlatArm>();
    crosses_threads::<FlatStmt>();
}

/// Flat sources cross threads, with their variables, processes and arms.
pub(crate) fn sources_cross_threads() {
    crosses_threads::<ArmComment>();
    crosses_threads::<ArmRow>();
    crosses_threads::<FlatVar>();
    crosses_threads::<FlatProcess>();
    crosses_threads::<FlatSource>();
}

/// The reasons for there being none cross threads.
pub(crate) fn faults_cross_threads() {
    crosses_threads::<ElabFault>();
    crosses_threads::<FlatFault>();
}
