ghost use Rattle.std.specs.Prelude.{◌≡◌, ◌↔◌, ℕ, ◌+◌, ◌*◌, ◌/◌, ◌%◌, ◌^◌, ◌<◌, ◌≤◌, IsTrue};
ghost use Rattle.xact_status.specs.Place.{status_place};
ghost use Rattle.xact_status.specs.Window.{ids_from, is_before, is_within};
ghost use Rattle.xact_status.specs.declared.window.Window.{Window};

/// A law of the places in `pg_xact`: the segments of 262,144 bytes, one after another, hold the status of all ids in
/// order, four in each byte, and no two ids have one place.
pub fn place_law()
    ensures in_order { (xid : ℕ) → (let place = status_place xid in
        4 * (262144 * place.segment + place.byte) + place.shift / 2 ≡ xid) }
    ensures within_segment { (xid : ℕ) → (status_place xid).byte < 262144 }
    ensures within_byte { (xid : ℕ) → (status_place xid).shift < 8 }
    ensures distinct { (a b : ℕ) → status_place a ≡ status_place b → a ≡ b }
{}

/// A law of the order of ids: a normal id precedes exactly the 2^31 ids that follow it around the circle.
pub fn precedes_law()
    ensures normal { (a b : ℕ) → 3 ≤ a → a < 2 ^ 32 → 3 ≤ b → b < 2 ^ 32 →
        (IsTrue (is_before a b) ↔ ((ahead : ℕ) × (1 ≤ ahead) × (ahead ≤ 2 ^ 31)
        × ((a + ahead) % 2 ^ 32 ≡ b))) }
    ensures special { (a b : ℕ) → a < 3 → (IsTrue (is_before a b) ↔ (a < b)) }
{}

/// A law of windows: where the oldest id is at most 2^31 behind the next, the window has exactly the ids from the
/// oldest on, before the next, around the circle.
pub fn window_law()
    ensures { (window : Window) (xid : ℕ) → 3 ≤ window.oldest → window.oldest < 2 ^ 32
        → 3 ≤ window.next → window.next < 2 ^ 32 → 3 ≤ xid → xid < 2 ^ 32
        → ids_from window.oldest window.next ≤ 2 ^ 31
        → (IsTrue (is_within window xid) ↔ (ids_from window.oldest xid < ids_from window.oldest window.next)) }
{}
