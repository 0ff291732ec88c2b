//! Tests of whole sessions, over files in memory and over a flash.
#![tactic(auto)]

#[cfg(test)]
mod arrays;
#[cfg(test)]
mod cases;
#[cfg(test)]
mod file_tests;
#[cfg(test)]
mod filling;
#[cfg(test)]
mod flash_tests;
#[cfg(test)]
mod index_tests;
#[cfg(test)]
mod row_tests;
#[cfg(test)]
mod told;
#[cfg(test)]
mod version_tests;
#[cfg(test)]
mod workload_tests;
#[cfg(test)]
mod written_tests;
