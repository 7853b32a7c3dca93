//! Identities of operations, cell by cell: what a table that satisfies one obeys, and which do.
#![tactic(auto)]

mod affine;
mod association;
mod constant;
mod identity;
mod labels;
mod laws;
mod maltsev;
mod near_unanimity;
mod semilattice;

pub use affine::Affine;
pub use constant::Constant;
pub use identity::{CellRule, Identity};
pub use labels::{affine_labels, label_list, label_lists};
pub use laws::identity_laws;
pub use maltsev::Maltsev;
pub use near_unanimity::NearUnanimity;
pub use semilattice::Semilattice;
