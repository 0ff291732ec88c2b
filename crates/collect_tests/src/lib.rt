//! Tests of collections of whole images: which sectors go, and what stands where a collection is cut or the sink fails.
#![tactic(auto)]

#[cfg(test)]
mod collected_tests;
#[cfg(test)]
mod cut_tests;
#[cfg(test)]
mod running;
