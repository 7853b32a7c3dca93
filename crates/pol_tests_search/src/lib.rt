//! Tests of the search for tables: finite problems, indicator problems, set functions and class lines.
#![tactic(auto)]

#[cfg(test)]
mod classes;
#[cfg(test)]
mod indicators;
#[cfg(test)]
mod problems;
#[cfg(test)]
mod semilattices;
#[cfg(test)]
mod set_functions;
