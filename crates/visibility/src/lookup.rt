ghost use Rattle.std.specs.Prelude.{◌≡◌, ℕ, Option};
ghost use Rattle.xact_status.specs.declared.known.Known.{Known as Fate};

use xact_status::Known;

/// What a cluster tells of its transactions and multixacts. Each call answers by its number alone.
pub trait Lookup {
    /// What is known of each transaction id.
    ghost fates: { Self → ℕ → Fate };

    /// The updater of each multixact id.
    ghost updaters: { Self → ℕ → Option (Option ℕ) };

    /// What is known of a transaction, as `xact_status::known_of` answers.
    fn known(&self, xid: u32) -> Known
        ensures { result ≡ fates self.now xid };

    /// The updater of a multixact, as `multixact::updater` answers.
    fn updater(&self, multi: u32) -> Option<Option<u32>>
        ensures { result ≡ updaters self.now multi };
}
