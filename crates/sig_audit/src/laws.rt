//! What chained heads are. No function here does anything: each states laws, and its proof is that they hold.
ghost use Rattle.std.specs.Prelude.{◌≡◌, ◌⊎◌, ℕ, ◌+◌, ◌<◌, ◌≤◌, List, [], ◌∷◌, ◌++◌, length, slice_get, Some};
ghost use Rattle.std.specs.List.{AllByRecursion};
ghost use Rattle.sig_audit.specs.Chained.{HasGrownFrom, AreChained};
ghost use Rattle.sig_audit.specs.Fronts.{IsLast, IsOfFront, IsWithin, EndsInList};
ghost use Rattle.sig_audit.specs.Sized.{AreSizedHeads};
ghost use Rattle.sig_audit.specs.declared.chain.ChainHead.{ChainHead};
ghost use Rattle.sig_merkle.specs.HashedText.{IsBroken};

/// Chained heads: one head is a chain, and a head that grew from the last one makes a longer one; each head grew from
/// the one before it, and none is larger than the last.
pub fn chains()
    ensures one { (head : ChainHead) → AreChained (head ∷ []) }
    ensures push { (heads : List ChainHead) (last head : ChainHead) → AreChained heads → IsLast heads last
        → HasGrownFrom last head → AreChained (heads ++ head ∷ []) }
    ensures each { (heads : List ChainHead) (place : ℕ) (older head : ChainHead) → AreChained heads
        → slice_get heads place ≡ Some older → slice_get heads (place + 1) ≡ Some head → HasGrownFrom older head }
    ensures sizes { (heads : List ChainHead) (last : ChainHead) → AreChained heads → IsLast heads last
        → AllByRecursion (IsWithin last.size) heads }
{}

/// What chained heads say of the list whose size and root the last one has: each has the size and the root of the list's
/// first entries, unless two different texts that a tree hashes have one SHA-256.
pub fn fronts()
    ensures { (heads : List ChainHead) (entries : List (List ℕ)) → AreSizedHeads heads → AreChained heads
        → EndsInList entries heads → AllByRecursion (IsOfFront entries) heads ⊎ IsBroken }
{}
