//! Tests of files and reports: their texts, read, printed and sent, and generated files.
#![tactic(auto)]

#[cfg(test)]
mod files;
#[cfg(test)]
mod generated;
#[cfg(test)]
mod printing;
#[cfg(test)]
mod reading;
#[cfg(test)]
mod sending;
