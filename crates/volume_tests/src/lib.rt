//! Tests of files: whole runs of `Volume` over flashes in memory, and of `PlainFiles`.
#![tactic(auto)]

#[cfg(test)]
mod acts;
#[cfg(test)]
mod calls;
#[cfg(test)]
mod catalog_tests;
#[cfg(test)]
mod cut_tests;
#[cfg(test)]
mod discard_tests;
#[cfg(test)]
mod draft_tests;
#[cfg(test)]
mod fault_tests;
#[cfg(test)]
mod log_tests;
#[cfg(test)]
mod mending;
#[cfg(test)]
mod mounted;
#[cfg(test)]
mod plain_tests;
#[cfg(test)]
mod random;
#[cfg(test)]
mod row_tests;
#[cfg(test)]
mod rows;
#[cfg(test)]
mod runs;
#[cfg(test)]
mod scan_tests;
#[cfg(test)]
mod space_tests;
#[cfg(test)]
mod steps;
#[cfg(test)]
mod walk;
#[cfg(test)]
mod walk_tests;
