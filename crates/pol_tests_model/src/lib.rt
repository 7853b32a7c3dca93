//! Tests of what stands below the search and the solvers: lists, streams, texts, relations, operations and
//! their identities, rows, and certificates.
#![tactic(auto)]

#[cfg(test)]
mod base;
#[cfg(test)]
mod combinations;
#[cfg(test)]
mod equations;
#[cfg(test)]
mod identities;
#[cfg(test)]
mod nogoods;
#[cfg(test)]
mod op_tables;
#[cfg(test)]
mod outside;
#[cfg(test)]
mod relations;
#[cfg(test)]
mod rows;
#[cfg(test)]
mod text;
