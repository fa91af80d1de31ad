ghost use Rattle.std.specs.Prelude.{◌≡◌, ◌↔◌, List, Option, Some, None, ℕ, ◌+◌, ◌-◌, ◌*◌, ◌/◌, ◌%◌, ◌^◌, ◌<◌, ◌≤◌, ◌≢◌, IsTrue};
ghost use Rattle.std.specs.List.{AllByRecursion};
ghost use Rattle.xact_status.specs.Window.{ids_from};
ghost use Rattle.control_file.specs.declared.records.Counters.{Counters};
ghost use Rattle.multixact.specs.Window.{is_kept};
ghost use Rattle.multixact.specs.Place.{offset_place_of, member_place_of};
ghost use Rattle.multixact.specs.Update.{updater_among};
ghost use Rattle.multixact.specs.First.{IsNoUpdate, IsFirstUpdate, IsUntold};
ghost use Rattle.multixact.specs.declared.member.Member.{Member};

/// A law of the places in `pg_multixact/offsets`: the segments of 262,144 bytes, one after another, hold the offsets of
/// all ids in order, four bytes for each, and no two ids have one place.
pub fn offset_place_law()
    ensures in_order { (multi : ℕ) → (let place = offset_place_of multi in
        262144 * place.segment + place.byte ≡ 4 * multi) }
    ensures within_segment { (multi : ℕ) → (offset_place_of multi).byte + 4 ≤ 262144 }
    ensures distinct { (a b : ℕ) → offset_place_of a ≡ offset_place_of b → a ≡ b }
{}

/// A law of the places in `pg_multixact/members`: pages of 8192 bytes, 32 of them in a segment, hold 1636 members each in
/// groups of four, in order; a group's 20 bytes are the four flag bytes and then the four ids; and no two members have
/// one place.
pub fn member_place_law()
    ensures in_order { (member : ℕ) → (let place = member_place_of member in
        1636 * (32 * place.segment + place.flag / 8192) + 4 * (place.flag % 8192 / 20)
        + place.flag % 8192 % 20 ≡ member) }
    ensures flag_in_group { (member : ℕ) → (member_place_of member).flag % 8192 % 20 ≡ member % 4 }
    ensures xid_in_group { (member : ℕ) → (let place = member_place_of member in
        place.xid + member % 4 ≡ place.flag + 4 + 4 * (member % 4)) }
    ensures within_page { (member : ℕ) → (member_place_of member).xid % 8192 + 4 ≤ 8180 }
    ensures within_segment { (member : ℕ) → (member_place_of member).xid + 4 ≤ 262144 }
    ensures distinct { (a b : ℕ) → member_place_of a ≡ member_place_of b → a ≡ b }
{}

/// A law of the window of multixact ids: where the oldest id is less than 2^31 behind the next, the ids that a cluster
/// keeps are those from the oldest on, before the next, around the circle, but for 0.
pub fn window_law()
    ensures { (counters : Counters) (multi : ℕ) → counters.oldest_multi < 2 ^ 32 → counters.next_multi < 2 ^ 32
        → multi < 2 ^ 32 → ids_from counters.oldest_multi counters.next_multi < 2 ^ 31
        → (IsTrue (is_kept counters multi) ↔ ((multi ≢ 0)
        × (ids_from counters.oldest_multi multi < ids_from counters.oldest_multi counters.next_multi))) }
{}

/// A law of the definition `updater_among`: it names the first update where each member up to it is there; it says that
/// there is none where all members are there and none is an update; and it doesn't tell where a member is absent before
/// any update. What stands behind the first update isn't needed.
pub fn updater_law()
    ensures update { (members : List (Option Member)) (xid : ℕ) →
        ((updater_among members ≡ Some (Some xid)) ↔ IsFirstUpdate members xid) }
    ensures no_update { (members : List (Option Member)) →
        ((updater_among members ≡ Some None) ↔ AllByRecursion IsNoUpdate members) }
    ensures untold { (members : List (Option Member)) →
        ((updater_among members ≡ None) ↔ IsUntold members) }
{}
