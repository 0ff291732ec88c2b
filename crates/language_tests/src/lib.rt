//! Tests of the language: names, tokens, commands, conditions and folds, on worked examples.
#![tactic(auto)]

#[cfg(test)]
mod commands;
#[cfg(test)]
mod conditions;
#[cfg(test)]
mod folds;
#[cfg(test)]
mod names;
#[cfg(test)]
mod tokens;
