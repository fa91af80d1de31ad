ghost use Rattle.std.specs.Prelude.{◌≡◌, ◌≢◌, ℕ, Option, Some, None, bit_and};
ghost use Rattle.xact_status.specs.declared.known.Known.{Known};
ghost use Rattle.xact_status.specs.declared.known.Known.TheVariants.{Unknown as Untold};
ghost use Rattle.heap_tuple.specs.declared.header.Header.{Header};
ghost use Rattle.visibility.specs.declared.seen.Seen.TheVariants.{Yes, Unknown};
ghost use Rattle.visibility.specs.Taken.{Taken};
ghost use Rattle.visibility.specs.Visible.{seen_by};

/// A law of what snapshots see: two clusters give the same answer where they know the same of the header's
/// transactions: of its xmin, its xmax, and the updater of the multixact that its xmax may be.
pub fn lookup_law()
    ensures { (fates others : ℕ → Known) (updaters further : ℕ → Option (Option ℕ)) (header : Header) (snapshot : Taken)
        → fates header.xmin ≡ others header.xmin → fates header.xmax ≡ others header.xmax
        → updaters header.xmax ≡ further header.xmax
        → ((xid : ℕ) → updaters header.xmax ≡ Some (Some xid) → fates xid ≡ others xid)
        → seen_by fates updaters header snapshot ≡ seen_by others further header snapshot }
{}

/// A law of what snapshots see: a frozen tuple (both xmin bits, 0x0300) that nobody deleted or locked (the bit 0x0800)
/// is seen by every snapshot, whatever a cluster knows.
pub fn frozen_law()
    ensures { (fates : ℕ → Known) (updaters : ℕ → Option (Option ℕ)) (header : Header) (snapshot : Taken)
        → bit_and header.infomask 0x0100 ≢ 0 → bit_and header.infomask 0x0200 ≢ 0 → bit_and header.infomask 0x0800 ≢ 0
        → seen_by fates updaters header snapshot ≡ Yes }
{}

/// A law of what snapshots see: the answer is `Unknown` only where the cluster doesn't tell one of those: what became
/// of the header's xmin or xmax, the updater of the multixact, or what became of that updater.
pub fn unknown_law()
    ensures { (fates : ℕ → Known) (updaters : ℕ → Option (Option ℕ)) (header : Header) (snapshot : Taken)
        → fates header.xmin ≢ Untold → fates header.xmax ≢ Untold → updaters header.xmax ≢ None
        → ((xid : ℕ) → updaters header.xmax ≡ Some (Some xid) → fates xid ≢ Untold)
        → seen_by fates updaters header snapshot ≢ Unknown }
{}
