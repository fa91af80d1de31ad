ghost use Rattle.std.specs.Prelude.{◌≡◌, ◌↔◌, ℕ, Some, None, slice_get};
ghost use Rattle.compat_checks.specs.declared.refusal.Refusal.{Refusal};
ghost use Rattle.compat_checks.specs.Order.{Condition, order, place_of};
ghost use Rattle.compat_checks.specs.First.{Findings, AreOwn, IsFirst, Passes, first_of};

/// A law, with nothing to run: each condition stands in the order, at its place, and at no other.
pub fn conditions_are_ordered()
    ensures stands { (condition : Condition) → slice_get order (place_of condition) ≡ Some condition }
    ensures once { (n : ℕ) (condition : Condition) → slice_get order n ≡ Some condition → place_of condition ≡ n }
    ensures one { (a b : Condition) → place_of a ≡ place_of b → a ≡ b }
{}

/// A law, with nothing to run: the first refusal that the tests find, in their order, is the one whose condition holds and no
/// earlier one's does; there is one alone; and nothing is found exactly where no condition holds.
pub fn first_found_is_first()
    ensures first { (found : Findings) → AreOwn found → (refusal : Refusal) → (first_of found order ≡ Some refusal) ↔ IsFirst found refusal }
    ensures one { (found : Findings) (a b : Refusal) → IsFirst found a → IsFirst found b → a ≡ b }
    ensures none { (found : Findings) → AreOwn found → (first_of found order ≡ None) ↔ Passes found }
{}
