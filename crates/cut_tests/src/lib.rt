//! Tests of power cuts: whole runs, each cut at each of its writes and in part, and repaired, by repairs that are cut themselves.
//! What stands then is a database before the command that was under way, or after it.
#![tactic(auto)]

#[cfg(test)]
mod catalog_tests;
#[cfg(test)]
mod cutting;
#[cfg(test)]
mod index_tests;
#[cfg(test)]
mod line_tests;
#[cfg(test)]
mod old;
#[cfg(test)]
mod random;
#[cfg(test)]
mod row_tests;
#[cfg(test)]
mod running;
#[cfg(test)]
mod scripts;
#[cfg(test)]
mod stories;
