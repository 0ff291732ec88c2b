//! Tests of whole runs, each over an image in memory: what they write, what they leave, and how often
//! they read; over images from strangers, over a flash whose reads answer noise, and with one call of the
//! flash, the script or the sink that fails.
#![tactic(auto)]

#[cfg(test)]
mod cases;
#[cfg(test)]
mod cursor_tests;
#[cfg(test)]
mod failing_flash_tests;
#[cfg(test)]
mod failing_generated_tests;
#[cfg(test)]
mod fault_tests;
#[cfg(test)]
mod faults;
#[cfg(test)]
mod file_tests;
#[cfg(test)]
mod generated_tests;
#[cfg(test)]
mod image;
#[cfg(test)]
mod index_tests;
#[cfg(test)]
mod limit_tests;
#[cfg(test)]
mod line_tests;
#[cfg(test)]
mod look_tests;
#[cfg(test)]
mod noise;
#[cfg(test)]
mod noise_tests;
#[cfg(test)]
mod one_byte;
#[cfg(test)]
mod own_tests;
#[cfg(test)]
mod plan_tests;
#[cfg(test)]
mod query_tests;
#[cfg(test)]
mod read_tests;
#[cfg(test)]
mod row_tests;
#[cfg(test)]
mod rule_tests;
#[cfg(test)]
mod running;
#[cfg(test)]
mod samples;
#[cfg(test)]
mod script_tests;
#[cfg(test)]
mod scripts;
#[cfg(test)]
mod sink_tests;
#[cfg(test)]
mod strangers;
#[cfg(test)]
mod tree_tests;
#[cfg(test)]
mod version_tests;
#[cfg(test)]
mod written_tests;
