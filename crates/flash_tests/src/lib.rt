//! Tests of the devices, in memory and on real files, and of the flash read as units and as files with
//! their logs, on images in memory: what the contracts do not say.
#![tactic(auto)]

#[cfg(test)]
mod cached_tests;
#[cfg(test)]
mod cut_tests;
#[cfg(test)]
mod device_calls;
#[cfg(test)]
mod device_tests;
#[cfg(test)]
mod files;
#[cfg(test)]
mod image;
#[cfg(test)]
mod layout_calls;
#[cfg(test)]
mod layout_tests;
#[cfg(test)]
mod log_tests;
#[cfg(test)]
mod space;
#[cfg(test)]
mod streams;
#[cfg(test)]
mod system_tests;
