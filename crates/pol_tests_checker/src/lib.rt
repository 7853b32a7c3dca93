//! Tests of the verdicts on reports.
#![tactic(auto)]

#[cfg(test)]
mod verdicts;
