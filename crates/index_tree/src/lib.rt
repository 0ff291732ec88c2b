//! The hash tree of a list of keys: what the bytes of its file are, the rules that such a file meets, and
//! places in it. The definitions are in `specs`; the functions here do nothing, and their contracts are laws of theirs.
#![tactic(auto)]

mod laws;

pub use laws::{
    a_path_has_the_slots_of_its_key, a_tree_ends_in_a_mark, a_tree_has_few_buckets,
    rules_are_the_tree,
};
