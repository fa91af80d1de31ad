// The inodes of all files of several directories.
ghost use Rattle.std.specs.Prelude.{◌≡◌, ◌↔◌, ℕ, true, IfOk};
ghost use Rattle.std.specs.FinMap.{contains_key};
ghost use Rattle.fs_model.specs.Trail.{error_of, unless_lack};
ghost use Rattle.fs_model.specs.WellFormed.{WellFormed};
ghost use Rattle.fs_model.specs.Observed.{OnlyReads};
ghost use Rattle.tree_checks.specs.Looks.{IsNoRefusal};
ghost use Rattle.shared_inodes.specs.Regions.{AreInTurn};
ghost use Rattle.shared_inodes.specs.SharedInodes.{IsNamedIn};

use crate::walks::look_in;
use fs_maps::InodeMap;
use fs_model::{Fs, FsError, Kind, Path, Stat};
use fs_tools::Look;
use std::alloc::{AllocError, Global};

// The inodes of the files that were seen: all that is kept of a walk.
#[derive(Drop)]
struct Seen {
    inodes: InodeMap<()>,
}

impl Look for Seen {
    ghost use Rattle.std.specs.Prelude.{◌≡◌};
    ghost use Rattle.shared_inodes.specs.Counted.{with_inode};

    ghost takes = { λ before at stat after. after.inodes ≡ with_inode before.inodes stat };

    fn look(&mut self, _: &Path, stat: &Stat) -> Result<(), AllocError> {
        match stat.kind {
            Kind::File => self.inodes.insert(stat.identity.inode, ()),
            Kind::Dir => Ok(()),
            Kind::Sym => Ok(()),
        }
    }
}

/// The inodes that have a name in these directories.
pub(crate) fn inodes_in<F: Fs>(
    alloc: Global,
    fs: &mut F,
    tops: &[Path],
) -> Result<InodeMap<()>, FsError>
    ensures reads { OnlyReads (record { told = F.told fs.old; firm = F.firm fs.old; depth = F.depth fs.old; trail = F.trail fs.old; counts = F.counts fs.old })
        (record { told = F.told fs.new; firm = F.firm fs.new; depth = F.depth fs.new; trail = F.trail fs.new; counts = F.counts fs.new }) (unless_lack (error_of result)) }
    ensures never_refused { F.told fs.old ≡ true → WellFormed (F.trail fs.old).present → IsNoRefusal result }
    ensures exact { F.told fs.old ≡ true → WellFormed (F.trail fs.old).present → AreInTurn tops.now
        → IfOk result (λ inodes. (inode : ℕ) → (contains_key inodes inode ≡ true) ↔ IsNamedIn (F.trail fs.old).present.names tops.now inode) }
{
    let mut seen = Seen {
        inodes: InodeMap::new(alloc),
    };
    match look_in(alloc, fs, tops, &mut seen) {
        Ok(()) => Ok(seen.inodes),
        Err(error) => Err(error),
    }
}
