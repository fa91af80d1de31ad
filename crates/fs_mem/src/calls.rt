// A file system in memory tells its trail. Each call has the clauses of `Fs`, and `ends`: which answer and which effect it
// has, by its number in the list of those that fail.
ghost use Rattle.std.specs.Prelude.{◌≡◌, ◌≤◌, ◌<◌, ◌+◌, ◌-◌, ◌^◌, true, Some, length, min, IfOk, OnOk};
ghost use Rattle.std.specs.FinMap as map;
ghost use Rattle.fs_model.specs.declared.node.Node.TheVariants.{Sym};
ghost use Rattle.fs_model.specs.Calls.{Stats, Lists, ReadsAt, ReadsLink, Creates, WritesAt, MakesDir, MakesSymlink, Links, Renames, Unlinks, RemovesDir, SyncsFile, SyncsDir, children};
ghost use Rattle.fs_model.specs.Reading.{stat_of, Reads};
ghost use Rattle.fs_model.specs.Trail.{Steps, HasCause, OthersStay, error_of};
ghost use Rattle.fs_model.specs.WellFormed.{WellFormed};
ghost use Rattle.fs_mem.specs.History.{Ends, trail_of, counts_of, is_firm, depth_of};

use crate::MemFs;
use fs_model::{Fs, FsError, Name, Path, Stat};
use fs_state::{changing, reading};
use std::alloc::Global;

impl Fs for MemFs {
    ghost told = { λ _. true };

    ghost trail = { trail_of };

    ghost counts = { counts_of };

    ghost firm = { is_firm };

    ghost depth = { depth_of };

    fn stat(&mut self, at: &Path) -> Result<Stat, FsError>
        ensures told { true ≡ true }
        ensures firm { is_firm self.new ≡ is_firm self.old }
        ensures depth { depth_of self.new ≡ depth_of self.old }
        ensures ends { Ends self.old (Stats at.now) (error_of result) self.new }
        ensures steps { true ≡ true → Steps (Stats at.now) (error_of result) (trail_of self.old) (trail_of self.new) }
        ensures gives { true ≡ true → IfOk result (λ stat. stat_of (trail_of self.old).present at.now ≡ Some stat) }
        ensures size { IfOk result (λ stat. stat.size ≤ 2 ^ 63 - 1) }
        ensures cause { HasCause (is_firm self.old) (counts_of self.old) (counts_of self.new) (error_of result) }
        ensures others { OthersStay (counts_of self.old) (counts_of self.new) (error_of result) }
    {
        let state = self.open()?;
        let stat = reading::stat(self.alloc(), &state, at);
        self.close_reading(state, stat)
    }

    fn list(&mut self, alloc: Global, at: &Path) -> Result<Vec<Name>, FsError>
        ensures told { true ≡ true }
        ensures firm { is_firm self.new ≡ is_firm self.old }
        ensures depth { depth_of self.new ≡ depth_of self.old }
        ensures ends { Ends self.old (Lists at.now) (error_of result) self.new }
        ensures steps { true ≡ true → Steps (Lists at.now) (error_of result) (trail_of self.old) (trail_of self.new) }
        ensures shallow { OnOk result (length at.now < depth_of self.old) }
        ensures gives { true ≡ true → IfOk result (λ names. names.items ≡ children (trail_of self.old).present.names at.now) }
        ensures cause { HasCause (is_firm self.old) (counts_of self.old) (counts_of self.new) (error_of result) }
        ensures others { OthersStay (counts_of self.old) (counts_of self.new) (error_of result) }
    {
        let state = self.open()?;
        let names = reading::list(alloc, &state, at);
        self.close_reading(state, names)
    }

    fn read_at(&mut self, at: &Path, from: u64, into: &mut [u8]) -> Result<usize, FsError>
        requires { from + length into.old ≤ 2 ^ 63 - 1 }
        ensures told { true ≡ true }
        ensures firm { is_firm self.new ≡ is_firm self.old }
        ensures depth { depth_of self.new ≡ depth_of self.old }
        ensures ends { Ends self.old (ReadsAt at.now) (error_of result) self.new }
        ensures steps { true ≡ true → Steps (ReadsAt at.now) (error_of result) (trail_of self.old) (trail_of self.new) }
        ensures gives { true ≡ true → IfOk result (λ count. Reads (trail_of self.old).present at.now from count into.new) }
        ensures count { IfOk result (λ count. count ≤ length into.old) }
        ensures cause { HasCause (is_firm self.old) (counts_of self.old) (counts_of self.new) (error_of result) }
        ensures others { OthersStay (counts_of self.old) (counts_of self.new) (error_of result) }
    {
        let state = self.open()?;
        let count = reading::read_at(self.alloc(), &state, at, from, into);
        self.close_reading(state, count)
    }

    fn read_link(&mut self, alloc: Global, at: &Path) -> Result<Path, FsError>
        ensures told { true ≡ true }
        ensures firm { is_firm self.new ≡ is_firm self.old }
        ensures depth { depth_of self.new ≡ depth_of self.old }
        ensures ends { Ends self.old (ReadsLink at.now) (error_of result) self.new }
        ensures steps { true ≡ true → Steps (ReadsLink at.now) (error_of result) (trail_of self.old) (trail_of self.new) }
        ensures gives { true ≡ true → IfOk result (λ target. map.get (trail_of self.old).present.names at.now ≡ Some (Sym target)) }
        ensures cause { HasCause (is_firm self.old) (counts_of self.old) (counts_of self.new) (error_of result) }
        ensures others { OthersStay (counts_of self.old) (counts_of self.new) (error_of result) }
    {
        let state = self.open()?;
        let target = reading::read_link(alloc, &state, at);
        self.close_reading(state, target)
    }

    fn create(&mut self, at: &Path) -> Result<(), FsError>
        ensures told { true ≡ true }
        ensures firm { is_firm self.new ≡ is_firm self.old }
        ensures ends { Ends self.old (Creates at.now) (error_of result) self.new }
        ensures steps { true ≡ true → Steps (Creates at.now) (error_of result) (trail_of self.old) (trail_of self.new) }
        ensures cause { HasCause (is_firm self.old) (counts_of self.old) (counts_of self.new) (error_of result) }
        ensures others { OthersStay (counts_of self.old) (counts_of self.new) (error_of result) }
    {
        let state = self.open()?;
        let wanted = changing::create(self.alloc(), &state, at);
        self.close(state, wanted)
    }

    fn write_at(&mut self, at: &Path, from: u64, bytes: &[u8]) -> Result<(), FsError>
        requires { from + length bytes.now ≤ 2 ^ 63 - 1 }
        ensures told { true ≡ true }
        ensures firm { is_firm self.new ≡ is_firm self.old }
        ensures ends { Ends self.old (WritesAt at.now from bytes.now) (error_of result) self.new }
        ensures steps { true ≡ true → Steps (WritesAt at.now from bytes.now) (error_of result) (trail_of self.old) (trail_of self.new) }
        ensures cause { HasCause (is_firm self.old) (counts_of self.old) (counts_of self.new) (error_of result) }
        ensures others { OthersStay (counts_of self.old) (counts_of self.new) (error_of result) }
    {
        let state = self.open()?;
        let wanted = changing::write_at(self.alloc(), &state, at, from, bytes);
        self.close_action(state, wanted)
    }

    fn make_dir(&mut self, at: &Path) -> Result<(), FsError>
        ensures told { true ≡ true }
        ensures firm { is_firm self.new ≡ is_firm self.old }
        ensures ends { Ends self.old (MakesDir at.now) (error_of result) self.new }
        ensures steps { true ≡ true → Steps (MakesDir at.now) (error_of result) (trail_of self.old) (trail_of self.new) }
        ensures cause { HasCause (is_firm self.old) (counts_of self.old) (counts_of self.new) (error_of result) }
        ensures others { OthersStay (counts_of self.old) (counts_of self.new) (error_of result) }
    {
        let state = self.open()?;
        let wanted = changing::make_dir(self.alloc(), &state, at);
        self.close(state, wanted)
    }

    fn make_symlink(&mut self, at: &Path, target: &Path) -> Result<(), FsError>
        ensures told { true ≡ true }
        ensures firm { is_firm self.new ≡ is_firm self.old }
        ensures ends { Ends self.old (MakesSymlink at.now target.now) (error_of result) self.new }
        ensures steps { true ≡ true → Steps (MakesSymlink at.now target.now) (error_of result) (trail_of self.old) (trail_of self.new) }
        ensures cause { HasCause (is_firm self.old) (counts_of self.old) (counts_of self.new) (error_of result) }
        ensures others { OthersStay (counts_of self.old) (counts_of self.new) (error_of result) }
    {
        let state = self.open()?;
        let wanted = changing::make_symlink(self.alloc(), &state, at, target);
        self.close(state, wanted)
    }

    fn link(&mut self, from: &Path, to: &Path) -> Result<(), FsError>
        ensures told { true ≡ true }
        ensures firm { is_firm self.new ≡ is_firm self.old }
        ensures ends { Ends self.old (Links from.now to.now) (error_of result) self.new }
        ensures steps { true ≡ true → Steps (Links from.now to.now) (error_of result) (trail_of self.old) (trail_of self.new) }
        ensures cause { HasCause (is_firm self.old) (counts_of self.old) (counts_of self.new) (error_of result) }
        ensures others { OthersStay (counts_of self.old) (counts_of self.new) (error_of result) }
    {
        let state = self.open()?;
        let wanted = changing::link(self.alloc(), &state, from, to);
        self.close(state, wanted)
    }

    fn rename(&mut self, from: &Path, to: &Path) -> Result<(), FsError>
        ensures told { true ≡ true }
        ensures firm { is_firm self.new ≡ is_firm self.old }
        ensures ends { Ends self.old (Renames from.now to.now) (error_of result) self.new }
        ensures steps { true ≡ true → Steps (Renames from.now to.now) (error_of result) (trail_of self.old) (trail_of self.new) }
        ensures cause { HasCause (is_firm self.old) (counts_of self.old) (counts_of self.new) (error_of result) }
        ensures others { OthersStay (counts_of self.old) (counts_of self.new) (error_of result) }
    {
        let state = self.open()?;
        let wanted = changing::rename(self.alloc(), &state, from, to);
        self.close(state, wanted)
    }

    fn unlink(&mut self, at: &Path) -> Result<(), FsError>
        ensures told { true ≡ true }
        ensures firm { is_firm self.new ≡ is_firm self.old }
        ensures ends { Ends self.old (Unlinks at.now) (error_of result) self.new }
        ensures steps { true ≡ true → Steps (Unlinks at.now) (error_of result) (trail_of self.old) (trail_of self.new) }
        ensures cause { HasCause (is_firm self.old) (counts_of self.old) (counts_of self.new) (error_of result) }
        ensures others { OthersStay (counts_of self.old) (counts_of self.new) (error_of result) }
    {
        let state = self.open()?;
        let wanted = changing::unlink(self.alloc(), &state, at);
        self.close(state, wanted)
    }

    fn remove_dir(&mut self, at: &Path) -> Result<(), FsError>
        ensures told { true ≡ true }
        ensures firm { is_firm self.new ≡ is_firm self.old }
        ensures ends { Ends self.old (RemovesDir at.now) (error_of result) self.new }
        ensures steps { true ≡ true → Steps (RemovesDir at.now) (error_of result) (trail_of self.old) (trail_of self.new) }
        ensures cause { HasCause (is_firm self.old) (counts_of self.old) (counts_of self.new) (error_of result) }
        ensures others { OthersStay (counts_of self.old) (counts_of self.new) (error_of result) }
    {
        let state = self.open()?;
        let wanted = changing::remove_dir(self.alloc(), &state, at);
        self.close(state, wanted)
    }

    fn sync_file(&mut self, at: &Path) -> Result<(), FsError>
        ensures told { true ≡ true }
        ensures firm { is_firm self.new ≡ is_firm self.old }
        ensures ends { Ends self.old (SyncsFile at.now) (error_of result) self.new }
        ensures steps { true ≡ true → Steps (SyncsFile at.now) (error_of result) (trail_of self.old) (trail_of self.new) }
        ensures cause { HasCause (is_firm self.old) (counts_of self.old) (counts_of self.new) (error_of result) }
        ensures others { OthersStay (counts_of self.old) (counts_of self.new) (error_of result) }
    {
        let state = self.open()?;
        let wanted = changing::sync_file(self.alloc(), &state, at);
        self.close(state, wanted)
    }

    fn sync_dir(&mut self, at: &Path) -> Result<(), FsError>
        ensures told { true ≡ true }
        ensures firm { is_firm self.new ≡ is_firm self.old }
        ensures ends { Ends self.old (SyncsDir at.now) (error_of result) self.new }
        ensures steps { true ≡ true → Steps (SyncsDir at.now) (error_of result) (trail_of self.old) (trail_of self.new) }
        ensures cause { HasCause (is_firm self.old) (counts_of self.old) (counts_of self.new) (error_of result) }
        ensures others { OthersStay (counts_of self.old) (counts_of self.new) (error_of result) }
    {
        let state = self.open()?;
        let wanted = changing::sync_dir(self.alloc(), &state, at);
        self.close(state, wanted)
    }

    fn moment(&self) -> u64
        ensures calls { result ≡ length self.now.done }
        ensures number { true ≡ true → result ≡ min (length (trail_of self.now).past) (2 ^ 64 - 1) }
        ensures well_formed { true ≡ true → WellFormed (trail_of self.now).present }
    {
        self.count()
    }
}
