//! Tests of the parts of a database: catalogs, rows and texts of replies, hash tables and hash trees, and
//! answers that come one by one while all that can change a flash happens between them. A law says how
//! little files in memory ask for.
#![tactic(auto)]

#[cfg(test)]
mod alike;
#[cfg(test)]
mod asked;
#[cfg(test)]
mod between;
#[cfg(test)]
mod built;
#[cfg(test)]
mod candidates;
#[cfg(test)]
mod catalogs;
#[cfg(test)]
mod counting;
#[cfg(test)]
mod gathering;
#[cfg(test)]
mod grown;
#[cfg(test)]
mod joins;
#[cfg(test)]
mod known;
mod plain;
#[cfg(test)]
mod relation;
#[cfg(test)]
mod relations;
#[cfg(test)]
mod replies;
#[cfg(test)]
mod selects;
#[cfg(test)]
mod tables;
#[cfg(test)]
mod trees;
#[cfg(test)]
mod volumes;

pub use plain::plain_files_ask_for_little;
