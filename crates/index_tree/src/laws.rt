//! Laws of hash trees.

#![tactic(auto)]

ghost use Rattle.std.specs.Prelude.{◌≡◌, ◌≤◌, ◌-◌, ℕ, ℤ, List, filter, length, slice_index};
ghost use Rattle.std.specs.List.{range_with_len};
ghost use Rattle.db_model.specs.HashTree.{buckets};
ghost use Rattle.afl_base.specs.Keys.{first_keys, is_key_at, key_in};
ghost use Rattle.index_tree.specs.Pairs.{has_key, slots_of};
ghost use Rattle.index_tree.specs.Rules.{MeetsRules, bucket_count};
ghost use Rattle.index_tree.specs.TreeFile.{bucket_place};
ghost use Rattle.index_tree.specs.Trees.{IsTreeOf, pairs_along};

/// A file meets the five rules for the keys of this many slots exactly where it is the tree of those keys.
/// Each list of keys is that of its own slots.
#[tactic(auto, using(crate::proofs::Numbered::keys_first))]
pub fn rules_are_the_tree()
    ensures tree { (bytes : List ℕ) (key : ℕ → ℤ) (slots : ℕ) → slots ≤ 32768
        → MeetsRules bytes key slots → IsTreeOf bytes (first_keys key slots) }
    ensures rules { (bytes : List ℕ) (key : ℕ → ℤ) (slots : ℕ) → slots ≤ 32768
        → IsTreeOf bytes (first_keys key slots) → MeetsRules bytes key slots }
    ensures keys { (keys : List ℤ) → first_keys (key_in keys) (length keys) ≡ keys }
{}

/// A tree has as many buckets as its keys need, and no other bytes after its numbers: at most 853 buckets
/// for 16,384 keys, and never more than 1,365.
#[tactic(auto, using(crate::proofs::Law::counted, crate::proofs::Law::sized, crate::proofs::Law::half_many, crate::proofs::Law::most_many))]
pub fn a_tree_has_few_buckets()
    ensures buckets { (bytes : List ℕ) (keys : List ℤ) → IsTreeOf bytes keys
        → bucket_count bytes ≡ buckets keys }
    ensures size { (bytes : List ℕ) (keys : List ℤ) → IsTreeOf bytes keys
        → length bytes ≡ bucket_place (buckets keys) }
    ensures half { (bytes : List ℕ) (keys : List ℤ) → IsTreeOf bytes keys → length keys ≤ 16384
        → bucket_count bytes ≤ 853 }
    ensures most { (bytes : List ℕ) (keys : List ℤ) → IsTreeOf bytes keys → bucket_count bytes ≤ 1365 }
{}

/// The pairs of a key along its path are the slots with that key, in order. No path has more than 1,024
/// buckets.
pub fn a_path_has_the_slots_of_its_key()
    ensures { (bytes : List ℕ) (keys : List ℤ) (key : ℤ) (hops : ℕ) → IsTreeOf bytes keys
        → 1024 ≤ hops
        → slots_of (filter (has_key key) (pairs_along bytes key hops)) ≡ filter (is_key_at key keys) (range_with_len 0 (length keys)) }
{}

/// The last byte of a tree is 1, so that it can be committed from a draft.
#[tactic(auto, using(crate::proofs::Law::ends_marked))]
pub fn a_tree_ends_in_a_mark()
    ensures { (bytes : List ℕ) (keys : List ℤ) → IsTreeOf bytes keys
        → slice_index bytes (length bytes - 1) ≡ 1 }
{}
