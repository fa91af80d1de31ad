// The files that two clusters share.
ghost use Rattle.std.specs.Prelude.{◌≡◌, ◌↔◌, ℕ, true, List, IfOk};
ghost use Rattle.std.specs.FinMap.{contains_key};
ghost use Rattle.fs_model.specs.Trail.{error_of, unless_lack};
ghost use Rattle.fs_model.specs.WellFormed.{WellFormed};
ghost use Rattle.fs_model.specs.Observed.{OnlyReads};
ghost use Rattle.fs_model.specs.Names.{Path};
ghost use Rattle.tree_checks.specs.Looks.{IsNoRefusal};
ghost use Rattle.shared_inodes.specs.Counted.{is_in, AreShared};
ghost use Rattle.shared_inodes.specs.Regions.{AreInTurn};
ghost use Rattle.shared_inodes.specs.SharedInodes.{IsNamedIn, IsSharedInode, IsSharedNumber};

use crate::inodes::inodes_in;
use crate::regions::regions_of;
use crate::walks::look_in;
use fs_maps::InodeMap;
use fs_model::{Fs, FsError, Kind, Path, Stat};
use fs_tools::Look;
use std::alloc::{AllocError, Global};

/// The files that two clusters share.
#[derive(Drop)]
pub struct SharedFiles {
    /// The number of the new cluster's paths whose file has a name in the old cluster too; at most 2^64 - 1.
    pub count: u64,
    /// The least of these paths.
    pub least: Option<Path>,
}

// Whether what stands there is a file of one of these inodes.
fn is_in(inodes: &InodeMap<()>, stat: &Stat) -> bool
    ensures { result ≡ is_in inodes.now stat.now }
{
    stat.kind == Kind::File && inodes.get(stat.identity.inode).is_some()
}

// The names that were seen of files of these inodes: their number, and the first of them.
#[derive(Drop)]
struct Counted {
    inodes: InodeMap<()>,
    found: SharedFiles,
}

impl Look for Counted {
    ghost use Rattle.std.specs.Prelude.{◌≡◌};
    ghost use Rattle.shared_inodes.specs.Counted.{counted};

    ghost takes = { λ before at stat after. (after.inodes ≡ before.inodes) × (after.found ≡ counted before.inodes before.found at stat) };

    fn look(&mut self, at: &Path, stat: &Stat) -> Result<(), AllocError> {
        if is_in(&self.inodes, stat) {
            self.found.count = self.found.count.saturating_add(1);
            if self.found.least.is_none() {
                self.found.least = Some(at.clone()?);
            }
        }
        Ok(())
    }
}

// The names in these directories of files of these inodes.
fn shared_in<F: Fs>(
    alloc: Global,
    fs: &mut F,
    tops: &[Path],
    inodes: InodeMap<()>,
) -> Result<SharedFiles, FsError>
    ensures reads { OnlyReads (record { told = F.told fs.old; firm = F.firm fs.old; depth = F.depth fs.old; trail = F.trail fs.old; counts = F.counts fs.old })
        (record { told = F.told fs.new; firm = F.firm fs.new; depth = F.depth fs.new; trail = F.trail fs.new; counts = F.counts fs.new }) (unless_lack (error_of result)) }
    ensures never_refused { F.told fs.old ≡ true → WellFormed (F.trail fs.old).present → IsNoRefusal result }
    ensures exact { F.told fs.old ≡ true → WellFormed (F.trail fs.old).present → AreInTurn tops.now → (others : List Path)
        → ((inode : ℕ) → (contains_key inodes inode ≡ true) ↔ IsNamedIn (F.trail fs.old).present.names others inode) → IfOk result (AreShared (F.trail fs.old).present.names tops.now others) }
{
    let mut counted = Counted {
        inodes,
        found: SharedFiles {
            count: 0,
            least: None,
        },
    };
    match look_in(alloc, fs, tops, &mut counted) {
        Ok(()) => Ok(counted.found),
        Err(error) => Err(error),
    }
}

/// The files that the cluster at `new` shares with that at `old`. The regions of the old cluster are its root and, for each
/// symbolic link to a location in its `pg_tblspc`, the directory of PostgreSQL 15 there; those of the new one are its root
/// and, for each such link of either cluster, the directory of PostgreSQL 16 there. What doesn't stand has no names.
/// It keeps the numbers of the old cluster's inodes and no path but one. No state is changed.
pub fn shared_files<F: Fs>(
    alloc: Global,
    fs: &mut F,
    old: &Path,
    new: &Path,
) -> Result<SharedFiles, FsError>
    ensures reads { OnlyReads (record { told = F.told fs.old; firm = F.firm fs.old; depth = F.depth fs.old; trail = F.trail fs.old; counts = F.counts fs.old })
        (record { told = F.told fs.new; firm = F.firm fs.new; depth = F.depth fs.new; trail = F.trail fs.new; counts = F.counts fs.new }) (unless_lack (error_of result)) }
    ensures never_refused { F.told fs.old ≡ true → IsNoRefusal result }
    ensures finds { F.told fs.old ≡ true → IfOk result (λ shared. IsSharedInode (F.trail fs.old).present old.now new.now shared.least) }
    ensures counts { F.told fs.old ≡ true → IfOk result (λ shared. IsSharedNumber (F.trail fs.old).present old.now new.now shared.count) }
{
    let _ = fs.moment();
    let regions = regions_of(alloc, fs, old, new)?;
    let inodes = inodes_in(alloc, fs, &regions.old)?;
    shared_in(alloc, fs, &regions.new, inodes)
}

/// The least path of the new cluster of a file that has a name in the old one too, as `shared_files` finds it. No state is
/// changed.
pub fn shared_inode<F: Fs>(
    alloc: Global,
    fs: &mut F,
    old: &Path,
    new: &Path,
) -> Result<Option<Path>, FsError>
    ensures reads { OnlyReads (record { told = F.told fs.old; firm = F.firm fs.old; depth = F.depth fs.old; trail = F.trail fs.old; counts = F.counts fs.old })
        (record { told = F.told fs.new; firm = F.firm fs.new; depth = F.depth fs.new; trail = F.trail fs.new; counts = F.counts fs.new }) (unless_lack (error_of result)) }
    ensures never_refused { F.told fs.old ≡ true → IsNoRefusal result }
    ensures finds { F.told fs.old ≡ true → IfOk result (IsSharedInode (F.trail fs.old).present old.now new.now) }
{
    match shared_files(alloc, fs, old, new) {
        Ok(shared) => Ok(shared.least),
        Err(error) => Err(error),
    }
}
