//! Tests of what is repaired in the files of a database after a cut, over files in memory: one for each
//! thing that a cut leaves, and files that no cut leaves.
#![tactic(auto)]

#[cfg(test)]
mod cut_tests;
#[cfg(test)]
mod database;
#[cfg(test)]
mod mended;
#[cfg(test)]
mod row_tests;
#[cfg(test)]
mod rows;
#[cfg(test)]
mod strange_tests;
