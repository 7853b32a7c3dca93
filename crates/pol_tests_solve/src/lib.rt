//! Tests of the solvers of each class: arc consistency, strong consistency, sums and compact
//! representations.
#![tactic(auto)]

#[cfg(test)]
mod affine;
#[cfg(test)]
mod arcs;
#[cfg(test)]
mod fixtures;
#[cfg(test)]
mod maltsev;
#[cfg(test)]
mod strong;
