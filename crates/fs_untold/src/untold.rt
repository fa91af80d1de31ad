// A file system in memory whose trail is not told. Each call has the clauses of `Fs`, and `passes`: what it answers by its
// number.
ghost use Rattle.std.specs.Prelude.{◌≡◌, ◌≤◌, ◌<◌, ◌+◌, ◌-◌, ◌^◌, true, false, nat_le, Some, length, min, IfOk, OnOk};
ghost use Rattle.std.specs.FinMap as map;
ghost use Rattle.fs_model.specs.declared.node.Node.TheVariants.{Sym};
ghost use Rattle.fs_model.specs.declared.error.FsError.TheVariants.{NotFound};
ghost use Rattle.fs_model.specs.Calls.{Stats, Lists, ReadsAt, ReadsLink, Creates, WritesAt, MakesDir, MakesSymlink, Links, Renames, Unlinks, RemovesDir, SyncsFile, SyncsDir, children};
ghost use Rattle.fs_model.specs.Reading.{stat_of, Reads};
ghost use Rattle.fs_model.specs.Trail.{Steps, HasCause, OthersStay, error_of};
ghost use Rattle.fs_model.specs.WellFormed.{WellFormed};
ghost use Rattle.fs_mem.specs.History.{trail_of, is_firm, depth_of};
ghost use Rattle.fs_untold.specs.Losing.{Passes, losing_counts, one_loss, counted};

use fs_mem::MemFs;
use fs_model::{Fs, FsError, Name, Path, Stat};
use std::alloc::Global;
use std::marker::Model;

/// A file system in memory whose trail is not told. From a call on, each call answers `NotFound`.
#[derive(Drop)]
pub struct Untold {
    inner: MemFs,
    lose: u64,
    calls: u64,
    losses: u64,
}

impl Model for Untold {
    ghost use Rattle.fs_untold.specs.Losing.{Losing};
    ghost use Rattle.fs_untold.specs.Code.{losing_code};

    ghost Value = { Losing };

    ghost coded = { losing_code };

    ghost view = { λ a. record { inner = a.inner; lose = a.lose; calls = a.calls; losses = a.losses } };
}

impl Untold {
    /// The calls from number `lose` on, counted from 0, find nothing. Takes no memory.
    pub fn new(inner: MemFs, lose: u64) -> Untold
        ensures { result ≡ record { inner = inner; lose = lose; calls = 0; losses = 0 } }
    {
        Untold {
            inner,
            lose,
            calls: 0,
            losses: 0,
        }
    }

    // Whether the next call finds nothing.
    fn loses(&self) -> bool
        ensures { result ≡ nat_le self.now.lose self.now.calls }
    {
        self.lose <= self.calls
    }

    // A call that finds nothing.
    fn lost(&mut self) -> FsError
        ensures error { result ≡ NotFound }
        ensures loss { self.new ≡ one_loss self.old }
        ensures rises { self.old.losses ≤ self.new.losses }
    {
        self.calls = self.calls.saturating_add(1);
        self.losses = self.losses.saturating_add(1);
        FsError::NotFound
    }

    // Counts a call of the inner file system.
    fn count<T>(&mut self, answer: &Result<T, FsError>)
        ensures { self.new ≡ record self.old { calls = counted self.old.calls (error_of answer.now) } }
    {
        match answer {
            Err(FsError::OutOfMemory) => {}
            _ => self.calls = self.calls.saturating_add(1),
        }
    }
}

impl Fs for Untold {
    ghost told = { λ _. false };

    ghost trail = { λ u. trail_of u.inner };

    ghost counts = { losing_counts };

    ghost firm = { λ u. is_firm u.inner };

    ghost depth = { λ u. depth_of u.inner };

    fn stat(&mut self, at: &Path) -> Result<Stat, FsError>
        ensures told { false ≡ false }
        ensures firm { is_firm self.new.inner ≡ is_firm self.old.inner }
        ensures depth { depth_of self.new.inner ≡ depth_of self.old.inner }
        ensures passes { Passes self.old (Stats at.now) (error_of result) self.new }
        ensures steps { false ≡ true → Steps (Stats at.now) (error_of result) (trail_of self.old.inner) (trail_of self.new.inner) }
        ensures gives { false ≡ true → IfOk result (λ stat. stat_of (trail_of self.old.inner).present at.now ≡ Some stat) }
        ensures size { IfOk result (λ stat. stat.size ≤ 2 ^ 63 - 1) }
        ensures cause { HasCause (is_firm self.old.inner) (losing_counts self.old) (losing_counts self.new) (error_of result) }
        ensures others { OthersStay (losing_counts self.old) (losing_counts self.new) (error_of result) }
    {
        if self.loses() {
            return Err(self.lost());
        }
        let answer = self.inner.stat(at);
        self.count(&answer);
        answer
    }

    fn list(&mut self, alloc: Global, at: &Path) -> Result<Vec<Name>, FsError>
        ensures told { false ≡ false }
        ensures firm { is_firm self.new.inner ≡ is_firm self.old.inner }
        ensures depth { depth_of self.new.inner ≡ depth_of self.old.inner }
        ensures passes { Passes self.old (Lists at.now) (error_of result) self.new }
        ensures steps { false ≡ true → Steps (Lists at.now) (error_of result) (trail_of self.old.inner) (trail_of self.new.inner) }
        ensures shallow { OnOk result (length at.now < depth_of self.old.inner) }
        ensures gives { false ≡ true → IfOk result (λ names. names.items ≡ children (trail_of self.old.inner).present.names at.now) }
        ensures cause { HasCause (is_firm self.old.inner) (losing_counts self.old) (losing_counts self.new) (error_of result) }
        ensures others { OthersStay (losing_counts self.old) (losing_counts self.new) (error_of result) }
    {
        if self.loses() {
            return Err(self.lost());
        }
        let answer = self.inner.list(alloc, at);
        self.count(&answer);
        answer
    }

    fn read_at(&mut self, at: &Path, from: u64, into: &mut [u8]) -> Result<usize, FsError>
        requires { from + length into.old ≤ 2 ^ 63 - 1 }
        ensures told { false ≡ false }
        ensures firm { is_firm self.new.inner ≡ is_firm self.old.inner }
        ensures depth { depth_of self.new.inner ≡ depth_of self.old.inner }
        ensures passes { Passes self.old (ReadsAt at.now) (error_of result) self.new }
        ensures steps { false ≡ true → Steps (ReadsAt at.now) (error_of result) (trail_of self.old.inner) (trail_of self.new.inner) }
        ensures gives { false ≡ true → IfOk result (λ count. Reads (trail_of self.old.inner).present at.now from count into.new) }
        ensures count { IfOk result (λ count. count ≤ length into.old) }
        ensures cause { HasCause (is_firm self.old.inner) (losing_counts self.old) (losing_counts self.new) (error_of result) }
        ensures others { OthersStay (losing_counts self.old) (losing_counts self.new) (error_of result) }
    {
        if self.loses() {
            return Err(self.lost());
        }
        let answer = self.inner.read_at(at, from, into);
        self.count(&answer);
        answer
    }

    fn read_link(&mut self, alloc: Global, at: &Path) -> Result<Path, FsError>
        ensures told { false ≡ false }
        ensures firm { is_firm self.new.inner ≡ is_firm self.old.inner }
        ensures depth { depth_of self.new.inner ≡ depth_of self.old.inner }
        ensures passes { Passes self.old (ReadsLink at.now) (error_of result) self.new }
        ensures steps { false ≡ true → Steps (ReadsLink at.now) (error_of result) (trail_of self.old.inner) (trail_of self.new.inner) }
        ensures gives { false ≡ true → IfOk result (λ target. map.get (trail_of self.old.inner).present.names at.now ≡ Some (Sym target)) }
        ensures cause { HasCause (is_firm self.old.inner) (losing_counts self.old) (losing_counts self.new) (error_of result) }
        ensures others { OthersStay (losing_counts self.old) (losing_counts self.new) (error_of result) }
    {
        if self.loses() {
            return Err(self.lost());
        }
        let answer = self.inner.read_link(alloc, at);
        self.count(&answer);
        answer
    }

    fn create(&mut self, at: &Path) -> Result<(), FsError>
        ensures told { false ≡ false }
        ensures firm { is_firm self.new.inner ≡ is_firm self.old.inner }
        ensures passes { Passes self.old (Creates at.now) (error_of result) self.new }
        ensures steps { false ≡ true → Steps (Creates at.now) (error_of result) (trail_of self.old.inner) (trail_of self.new.inner) }
        ensures cause { HasCause (is_firm self.old.inner) (losing_counts self.old) (losing_counts self.new) (error_of result) }
        ensures others { OthersStay (losing_counts self.old) (losing_counts self.new) (error_of result) }
    {
        if self.loses() {
            return Err(self.lost());
        }
        let answer = self.inner.create(at);
        self.count(&answer);
        answer
    }

    fn write_at(&mut self, at: &Path, from: u64, bytes: &[u8]) -> Result<(), FsError>
        requires { from + length bytes.now ≤ 2 ^ 63 - 1 }
        ensures told { false ≡ false }
        ensures firm { is_firm self.new.inner ≡ is_firm self.old.inner }
        ensures passes { Passes self.old (WritesAt at.now from bytes.now) (error_of result) self.new }
        ensures steps { false ≡ true → Steps (WritesAt at.now from bytes.now) (error_of result) (trail_of self.old.inner) (trail_of self.new.inner) }
        ensures cause { HasCause (is_firm self.old.inner) (losing_counts self.old) (losing_counts self.new) (error_of result) }
        ensures others { OthersStay (losing_counts self.old) (losing_counts self.new) (error_of result) }
    {
        if self.loses() {
            return Err(self.lost());
        }
        let answer = self.inner.write_at(at, from, bytes);
        self.count(&answer);
        answer
    }

    fn make_dir(&mut self, at: &Path) -> Result<(), FsError>
        ensures told { false ≡ false }
        ensures firm { is_firm self.new.inner ≡ is_firm self.old.inner }
        ensures passes { Passes self.old (MakesDir at.now) (error_of result) self.new }
        ensures steps { false ≡ true → Steps (MakesDir at.now) (error_of result) (trail_of self.old.inner) (trail_of self.new.inner) }
        ensures cause { HasCause (is_firm self.old.inner) (losing_counts self.old) (losing_counts self.new) (error_of result) }
        ensures others { OthersStay (losing_counts self.old) (losing_counts self.new) (error_of result) }
    {
        if self.loses() {
            return Err(self.lost());
        }
        let answer = self.inner.make_dir(at);
        self.count(&answer);
        answer
    }

    fn make_symlink(&mut self, at: &Path, target: &Path) -> Result<(), FsError>
        ensures told { false ≡ false }
        ensures firm { is_firm self.new.inner ≡ is_firm self.old.inner }
        ensures passes { Passes self.old (MakesSymlink at.now target.now) (error_of result) self.new }
        ensures steps { false ≡ true → Steps (MakesSymlink at.now target.now) (error_of result) (trail_of self.old.inner) (trail_of self.new.inner) }
        ensures cause { HasCause (is_firm self.old.inner) (losing_counts self.old) (losing_counts self.new) (error_of result) }
        ensures others { OthersStay (losing_counts self.old) (losing_counts self.new) (error_of result) }
    {
        if self.loses() {
            return Err(self.lost());
        }
        let answer = self.inner.make_symlink(at, target);
        self.count(&answer);
        answer
    }

    fn link(&mut self, from: &Path, to: &Path) -> Result<(), FsError>
        ensures told { false ≡ false }
        ensures firm { is_firm self.new.inner ≡ is_firm self.old.inner }
        ensures passes { Passes self.old (Links from.now to.now) (error_of result) self.new }
        ensures steps { false ≡ true → Steps (Links from.now to.now) (error_of result) (trail_of self.old.inner) (trail_of self.new.inner) }
        ensures cause { HasCause (is_firm self.old.inner) (losing_counts self.old) (losing_counts self.new) (error_of result) }
        ensures others { OthersStay (losing_counts self.old) (losing_counts self.new) (error_of result) }
    {
        if self.loses() {
            return Err(self.lost());
        }
        let answer = self.inner.link(from, to);
        self.count(&answer);
        answer
    }

    fn rename(&mut self, from: &Path, to: &Path) -> Result<(), FsError>
        ensures told { false ≡ false }
        ensures firm { is_firm self.new.inner ≡ is_firm self.old.inner }
        ensures passes { Passes self.old (Renames from.now to.now) (error_of result) self.new }
        ensures steps { false ≡ true → Steps (Renames from.now to.now) (error_of result) (trail_of self.old.inner) (trail_of self.new.inner) }
        ensures cause { HasCause (is_firm self.old.inner) (losing_counts self.old) (losing_counts self.new) (error_of result) }
        ensures others { OthersStay (losing_counts self.old) (losing_counts self.new) (error_of result) }
    {
        if self.loses() {
            return Err(self.lost());
        }
        let answer = self.inner.rename(from, to);
        self.count(&answer);
        answer
    }

    fn unlink(&mut self, at: &Path) -> Result<(), FsError>
        ensures told { false ≡ false }
        ensures firm { is_firm self.new.inner ≡ is_firm self.old.inner }
        ensures passes { Passes self.old (Unlinks at.now) (error_of result) self.new }
        ensures steps { false ≡ true → Steps (Unlinks at.now) (error_of result) (trail_of self.old.inner) (trail_of self.new.inner) }
        ensures cause { HasCause (is_firm self.old.inner) (losing_counts self.old) (losing_counts self.new) (error_of result) }
        ensures others { OthersStay (losing_counts self.old) (losing_counts self.new) (error_of result) }
    {
        if self.loses() {
            return Err(self.lost());
        }
        let answer = self.inner.unlink(at);
        self.count(&answer);
        answer
    }

    fn remove_dir(&mut self, at: &Path) -> Result<(), FsError>
        ensures told { false ≡ false }
        ensures firm { is_firm self.new.inner ≡ is_firm self.old.inner }
        ensures passes { Passes self.old (RemovesDir at.now) (error_of result) self.new }
        ensures steps { false ≡ true → Steps (RemovesDir at.now) (error_of result) (trail_of self.old.inner) (trail_of self.new.inner) }
        ensures cause { HasCause (is_firm self.old.inner) (losing_counts self.old) (losing_counts self.new) (error_of result) }
        ensures others { OthersStay (losing_counts self.old) (losing_counts self.new) (error_of result) }
    {
        if self.loses() {
            return Err(self.lost());
        }
        let answer = self.inner.remove_dir(at);
        self.count(&answer);
        answer
    }

    fn sync_file(&mut self, at: &Path) -> Result<(), FsError>
        ensures told { false ≡ false }
        ensures firm { is_firm self.new.inner ≡ is_firm self.old.inner }
        ensures passes { Passes self.old (SyncsFile at.now) (error_of result) self.new }
        ensures steps { false ≡ true → Steps (SyncsFile at.now) (error_of result) (trail_of self.old.inner) (trail_of self.new.inner) }
        ensures cause { HasCause (is_firm self.old.inner) (losing_counts self.old) (losing_counts self.new) (error_of result) }
        ensures others { OthersStay (losing_counts self.old) (losing_counts self.new) (error_of result) }
    {
        if self.loses() {
            return Err(self.lost());
        }
        let answer = self.inner.sync_file(at);
        self.count(&answer);
        answer
    }

    fn sync_dir(&mut self, at: &Path) -> Result<(), FsError>
        ensures told { false ≡ false }
        ensures firm { is_firm self.new.inner ≡ is_firm self.old.inner }
        ensures passes { Passes self.old (SyncsDir at.now) (error_of result) self.new }
        ensures steps { false ≡ true → Steps (SyncsDir at.now) (error_of result) (trail_of self.old.inner) (trail_of self.new.inner) }
        ensures cause { HasCause (is_firm self.old.inner) (losing_counts self.old) (losing_counts self.new) (error_of result) }
        ensures others { OthersStay (losing_counts self.old) (losing_counts self.new) (error_of result) }
    {
        if self.loses() {
            return Err(self.lost());
        }
        let answer = self.inner.sync_dir(at);
        self.count(&answer);
        answer
    }

    fn moment(&self) -> u64
        ensures calls { result ≡ self.now.calls }
        ensures number { false ≡ true → result ≡ min (length (trail_of self.now.inner).past) (2 ^ 64 - 1) }
        ensures well_formed { false ≡ true → WellFormed (trail_of self.now.inner).present }
    {
        self.calls
    }
}
