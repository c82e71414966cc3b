//! What the definitions of this crate mean, in the words of RFC 6962. No function here does
//! anything: each states laws, and its proof is that they hold.
ghost use Rattle.std.specs.Prelude.{◌≡◌, ◌≢◌, ◌⊎◌, ℕ, ◌+◌, ◌-◌, ◌*◌, ◌^◌, ◌<◌, ◌≤◌, ◌↔◌, List, [], ◌∷◌, ◌++◌, length, take};
ghost use Rattle.std.specs.Prelude.{Bool, true, false, drop, Some, IsSome, IsNone, option_map, slice_get, Result, Ok};
ghost use Rattle.std.specs.Int.{bit_at};
ghost use Rattle.sig_base.specs.Sha256.{sha256};
ghost use Rattle.sig_base.specs.declared.merkle_error.MerkleProofError.{MerkleProofError};
ghost use Rattle.sig_merkle.specs.AuditPath.{audit_path};
ghost use Rattle.sig_merkle.specs.Split.{IsSplit};
ghost use Rattle.sig_merkle.specs.Root.{leaf_of, node_of, root};
ghost use Rattle.sig_merkle.specs.Path.{path_root, path_len};
ghost use Rattle.sig_merkle.specs.Walk.{bit_len, inner_len, border_len, node_by_bit, inner_fold, walk_root};
ghost use Rattle.sig_merkle.specs.Inclusion.{IsIncluded, AreIncluded};
ghost use Rattle.sig_merkle.specs.Inclusion.{inclusion_root, inclusion_answer, IsRootAnswer, IsInclusionAnswer};
ghost use Rattle.sig_merkle.specs.Consistency.{roots_of, roots_len};
ghost use Rattle.sig_merkle.specs.GrowthWalk.{shift_of, kept_by_bit, right_fold, seed_len, growth_inner_len};
ghost use Rattle.sig_merkle.specs.GrowthWalk.{walk_roots};
ghost use Rattle.sig_merkle.specs.ConsistencyProof.{subproof, consistency_proof};
ghost use Rattle.sig_merkle.specs.ConsistencyAnswer.{consistency_answer, IsConsistencyAnswer};
ghost use Rattle.sig_merkle.specs.ConsistencyAnswer.{IsConsistent};
ghost use Rattle.sig_merkle.specs.HashedText.{AreHashes, IsBroken};

/// A tree of more than one leaf is cut at one index (RFC 6962 section 2.1).
pub fn splits()
    ensures exists { (n : ℕ) → 1 < n → (k : ℕ) × IsSplit n k }
    ensures unique { (n j k : ℕ) → IsSplit n j → IsSplit n k → j ≡ k }
{}

/// The Merkle tree hash, by the recursion of RFC 6962 section 2.1.
pub fn tree_roots()
    ensures none { root [] ≡ sha256 [] }
    ensures one { (entry : List ℕ) → root (entry ∷ []) ≡ leaf_of entry }
    ensures more { (k : ℕ) (entries : List (List ℕ)) → IsSplit (length entries) k
        → root entries ≡ node_of (root (take k entries)) (root (drop k entries)) }
{}

/// Where a path leads, by the recursion of RFC 6962 section 2.1.1: `hash` is the last of the
/// hashes.
pub fn path_roots()
    ensures one { (leaf : List ℕ) → path_root 0 leaf 1 [] ≡ Some leaf }
    ensures left { (index size k : ℕ) (leaf hash : List ℕ) (rest : List (List ℕ))
        → IsSplit size k → index < k
        → path_root index leaf size (rest ++ hash ∷ [])
        ≡ option_map (λ child. node_of child hash) (path_root index leaf k rest) }
    ensures right { (index size k : ℕ) (leaf hash : List ℕ) (rest : List (List ℕ))
        → IsSplit size k → k ≤ index
        → path_root index leaf size (rest ++ hash ∷ [])
        ≡ option_map (λ child. node_of hash child) (path_root (index - k) leaf (size - k) rest) }
    ensures some { (index size : ℕ) (leaf : List ℕ) (hashes : List (List ℕ))
        → IsSome (path_root index leaf size hashes) ↔ (length hashes ≡ path_len index size) }
    ensures none { (index size : ℕ) (leaf : List ℕ) (hashes : List (List ℕ))
        → IsNone (path_root index leaf size hashes) ↔ (length hashes ≢ path_len index size) }
{}

/// The number of hashes of a path: one for each cut above the leaf, and never more than 64 in a
/// tree whose size is a `u64`. In the tree of seven leaves of section 2.1.3, the paths of d0, d3 and
/// d4 have three hashes and that of d6 has two.
pub fn path_lens()
    ensures one { path_len 0 1 ≡ 0 }
    ensures left { (index size k : ℕ) → IsSplit size k → index < k
        → path_len index size ≡ path_len index k + 1 }
    ensures right { (index size k : ℕ) → IsSplit size k → k ≤ index
        → path_len index size ≡ path_len (index - k) (size - k) + 1 }
    ensures bound { (index size : ℕ) → size ≤ 2 ^ 64 → path_len index size ≤ 64 }
    ensures seven { (path_len 0 7 ≡ 3) × (path_len 3 7 ≡ 3) × (path_len 4 7 ≡ 3) × (path_len 6 7 ≡ 2) }
{}

/// In a tree whose size is a `u64`, a walk over the bits of the index leads where the recursion of RFC 6962 section
/// 2.1.1 does: up along as many inner hashes as the index xor that of the last leaf has bits, the hash at each index on
/// the side that the bit of this index says, and then up along the right border, a hash on the left for each one bit
/// above.
pub fn inclusion_walks()
    ensures root { (index size : ℕ) (leaf : List ℕ) (hashes : List (List ℕ)) → size < 2 ^ 64
        → index < size → length hashes ≡ path_len index size
        → path_root index leaf size hashes ≡ Some (walk_root index leaf size hashes) }
    ensures lens { (index size : ℕ) → size < 2 ^ 64 → index < size
        → inner_len index size + border_len index size ≡ path_len index size }
    ensures sides { (value : List ℕ) (rest : List (List ℕ)) (hash : List ℕ) (index : ℕ)
        → inner_fold value (rest ++ hash ∷ []) index
        ≡ node_by_bit (bit_at index (length rest)) (inner_fold value rest index) hash }
    ensures bits { (n : ℕ) → n < 2 ^ 64 → (n < 2 ^ bit_len n) × (2 ^ bit_len n ≤ 2 * n + 1) }
    ensures all_inner { (index size : ℕ) → index < 2 ^ 64 → inner_len index size ≡ 64
        → border_len index size ≡ 0 }
{}

/// The result of the check of an inclusion proof is the one whose cause holds.
pub fn inclusion_answers()
    ensures root { (index size : ℕ) (leaf : List ℕ) (hashes : List (List ℕ))
        (answer : Result (List ℕ) MerkleProofError)
        → (inclusion_root index leaf size hashes ≡ answer)
        ↔ IsRootAnswer index leaf size hashes answer }
    ensures verdict { (index size : ℕ) (leaf root : List ℕ) (hashes : List (List ℕ))
        (answer : Result (Unit {0}) MerkleProofError)
        → (inclusion_answer index leaf size hashes root ≡ answer)
        ↔ IsInclusionAnswer index leaf size hashes root answer }
{}

/// The audit path of an entry, by the recursion PATH of RFC 6962 section 2.1.1; and it is accepted
/// for each entry of each list, as that entry at its index.
pub fn audit_paths()
    ensures one { (entry : List ℕ) → audit_path 0 (entry ∷ []) ≡ [] }
    ensures left { (index k : ℕ) (entries : List (List ℕ)) → IsSplit (length entries) k → index < k
        → audit_path index entries ≡ audit_path index (take k entries) ++ root (drop k entries) ∷ [] }
    ensures right { (index k : ℕ) (entries : List (List ℕ)) → IsSplit (length entries) k → k ≤ index
        → audit_path index entries ≡ audit_path (index - k) (drop k entries) ++ root (take k entries) ∷ [] }
    ensures accepted { (index : ℕ) (entries : List (List ℕ)) (entry : List ℕ)
        → slice_get entries index ≡ Some entry
        → inclusion_answer index (leaf_of entry) (length entries) (audit_path index entries) (root entries) ≡ Ok tt }
{}

/// The roots that a consistency proof leads to, by the recursion of RFC 6962 section 2.1.2: `hash`
/// is the last of the hashes, and `known` the flag of the standard's SUBPROOF.
pub fn consistency_roots()
    ensures known { (size : ℕ) (old : List ℕ) → roots_of size size true old [] ≡ Some (old, old) }
    ensures repeated { (size : ℕ) (old hash : List ℕ)
        → roots_of size size false old (hash ∷ []) ≡ Some (hash, hash) }
    ensures left { (old_size size k : ℕ) (known : Bool) (old hash : List ℕ) (rest : List (List ℕ))
        → IsSplit size k → old_size ≤ k
        → roots_of old_size size known old (rest ++ hash ∷ [])
        ≡ option_map (λ (roots : List ℕ × List ℕ). (roots.0, node_of roots.1 hash))
        (roots_of old_size k known old rest) }
    ensures right { (old_size size k : ℕ) (known : Bool) (old hash : List ℕ) (rest : List (List ℕ))
        → IsSplit size k → k < old_size → old_size < size
        → roots_of old_size size known old (rest ++ hash ∷ [])
        ≡ option_map (λ (roots : List ℕ × List ℕ). (node_of hash roots.0, node_of hash roots.1))
        (roots_of (old_size - k) (size - k) false old rest) }
    ensures some { (old_size size : ℕ) (known : Bool) (old : List ℕ) (hashes : List (List ℕ))
        → IsSome (roots_of old_size size known old hashes)
        ↔ (length hashes ≡ roots_len old_size size known) }
{}

/// The number of hashes of a consistency proof: one for each cut above the tree that both have, one
/// for that tree unless its root is known, and never more than 65 where the size is a `u64`.
pub fn consistency_lens()
    ensures known { (size : ℕ) → roots_len size size true ≡ 0 }
    ensures repeated { (size : ℕ) → roots_len size size false ≡ 1 }
    ensures left { (old_size size k : ℕ) (known : Bool) → IsSplit size k → old_size ≤ k
        → roots_len old_size size known ≡ roots_len old_size k known + 1 }
    ensures right { (old_size size k : ℕ) (known : Bool) → IsSplit size k → k < old_size
        → old_size < size
        → roots_len old_size size known ≡ roots_len (old_size - k) (size - k) false + 1 }
    ensures bound { (old_size size : ℕ) (known : Bool) → size ≤ 2 ^ 64
        → roots_len old_size size known ≤ 65 }
{}

/// Between trees of 0 < m < n leaves, n a `u64`, a walk over bits leads to both roots, as the recursion of RFC 6962
/// section 2.1.2 does. It starts at the last node that the m leaves fill, as high as m has zeros at its end: its hash
/// is the old root where m is a power of two, and else the first of the proof. From there it is the walk of leaf m - 1
/// in the tree of n leaves; to the old root it takes only the hashes on the left.
pub fn consistency_walks()
    ensures roots { (m n : ℕ) (old : List ℕ) (hashes : List (List ℕ)) → n < 2 ^ 64 → 0 < m → m < n
        → length hashes ≡ roots_len m n true
        → roots_of m n true old hashes ≡ Some (walk_roots m n old hashes) }
    ensures lens { (m n : ℕ) → n < 2 ^ 64 → 0 < m → m < n
        → seed_len m + (growth_inner_len m n + border_len (m - 1) n) ≡ roots_len m n true }
    ensures sides { (value : List ℕ) (rest : List (List ℕ)) (hash : List ℕ) (index : ℕ)
        → right_fold value (rest ++ hash ∷ []) index
        ≡ kept_by_bit (bit_at index (length rest)) (right_fold value rest index) hash }
    ensures shift { (m : ℕ) → 0 < m → m < 2 ^ 64 → (bit_at m (shift_of m) ≡ 1)
        × ((i : ℕ) → i < shift_of m → bit_at m i ≡ 0) }
    ensures inner { (m n : ℕ) → n < 2 ^ 64 → 0 < m → m < n → shift_of m ≤ inner_len (m - 1) n }
{}

/// The result of the check of a consistency proof is the one whose cause holds.
pub fn consistency_answers()
    ensures { (old_size new_size : ℕ) (old new : List ℕ) (hashes : List (List ℕ))
        (answer : Result (Unit {0}) MerkleProofError)
        → (consistency_answer old_size new_size hashes old new ≡ answer)
        ↔ IsConsistencyAnswer old_size new_size hashes old new answer }
{}

/// The consistency proof between the first entries and all, by the recursions PROOF and SUBPROOF of
/// RFC 6962 section 2.1.2; and it is accepted for each two trees, the older one not empty. The empty
/// proof is accepted for equal trees and, from the root of no entries, for every new root.
pub fn consistency_proofs()
    ensures asked { (entries : List (List ℕ)) → consistency_proof (length entries) entries ≡ [] }
    ensures repeated { (entries : List (List ℕ))
        → subproof (length entries) entries false ≡ root entries ∷ [] }
    ensures left { (old_size k : ℕ) (entries : List (List ℕ)) (known : Bool)
        → IsSplit (length entries) k → old_size ≤ k → subproof old_size entries known
        ≡ subproof old_size (take k entries) known ++ root (drop k entries) ∷ [] }
    ensures right { (old_size k : ℕ) (entries : List (List ℕ)) (known : Bool)
        → IsSplit (length entries) k → k < old_size → old_size < length entries
        → subproof old_size entries known
        ≡ subproof (old_size - k) (drop k entries) false ++ root (take k entries) ∷ [] }
    ensures accepted { (old_size : ℕ) (entries : List (List ℕ))
        → 0 < old_size → old_size < length entries
        → consistency_answer old_size (length entries) (consistency_proof old_size entries)
        (root (take old_size entries)) (root entries) ≡ Ok tt }
    ensures same { (size : ℕ) (given : List ℕ) → consistency_answer size size [] given given ≡ Ok tt }
    ensures from_empty { (size : ℕ) (new : List ℕ) → 0 < size
        → consistency_answer 0 size [] (root []) new ≡ Ok tt }
{}

/// What accepted inclusion proofs say, unless two different texts that a tree hashes have one SHA-256: two entries that
/// are accepted at one index of a tree are equal, and an entry that is accepted for the size and root of a list is the
/// list's at the index.
pub fn same_entries()
    ensures twins { (index size : ℕ) (left right : List ℕ) (left_hashes right_hashes : List (List ℕ))
        → AreHashes left_hashes → AreHashes right_hashes
        → AreIncluded index size left left_hashes right right_hashes → (left ≡ right) ⊎ IsBroken }
    ensures listed { (index : ℕ) (entry : List ℕ) (hashes entries : List (List ℕ)) → AreHashes hashes
        → IsIncluded index (leaf_of entry) (length entries) hashes (root entries)
        → (slice_get entries index ≡ Some entry) ⊎ IsBroken }
{}

/// What an accepted consistency proof says about the list whose size and root it is accepted for: the old root is that
/// of the list's first entries, unless two different texts that a tree hashes have one SHA-256. So two such proofs,
/// from two old sizes, are of trees of which one has the other as its first leaves. Of trees of one size, and from the
/// empty tree, a proof has no hash and only roots are compared: two empty trees are consistent under any equal roots.
pub fn older_trees()
    ensures front { (old_size : ℕ) (old : List ℕ) (hashes entries : List (List ℕ)) → AreHashes (old ∷ hashes)
        → IsConsistent old_size (length entries) hashes old (root entries)
        → (old ≡ root (take old_size entries)) ⊎ IsBroken }
    ensures fronts { (older newer : ℕ) (older_root newer_root : List ℕ)
        (older_hashes newer_hashes entries : List (List ℕ)) → older ≤ newer
        → AreHashes (older_root ∷ older_hashes) → AreHashes (newer_root ∷ newer_hashes)
        → IsConsistent older (length entries) older_hashes older_root (root entries)
        → IsConsistent newer (length entries) newer_hashes newer_root (root entries)
        → ((front : List (List ℕ)) × (length front ≡ newer) × (newer_root ≡ root front)
        × (older_root ≡ root (take older front))) ⊎ IsBroken }
    ensures sizes { (old_size new_size : ℕ) (hashes : List (List ℕ)) (old new : List ℕ)
        → IsConsistent old_size new_size hashes old new → old_size ≤ new_size }
    ensures same { (size : ℕ) (hashes : List (List ℕ)) (old new : List ℕ)
        → IsConsistent size size hashes old new ↔ ((hashes ≡ []) × (old ≡ new)) }
    ensures from_empty { (size : ℕ) (hashes : List (List ℕ)) (old new : List ℕ) → 0 < size
        → IsConsistent 0 size hashes old new ↔ ((hashes ≡ []) × (old ≡ root [])) }
{}
