// The rename that lasts.
ghost use Rattle.std.specs.Prelude.{◌≡◌, true, None, IfOk, OnOk};
ghost use Rattle.fs_model.specs.Calls.{Renames, refusal};
ghost use Rattle.fs_model.specs.Trail.{Goes, Since, DecidedBy, HasCause, OthersStay, error_of};
ghost use Rattle.crash_safety.specs.Tracked.{Tracked};
ghost use Rattle.crash_safety.specs.Lasting.{Lasts, IsOffDisk};
ghost use Rattle.crash_safety.specs.Lacks.{Lacks};
ghost use Rattle.crash_safety.specs.Upgrade.{Upgrade, IsReady};
ghost use Rattle.disable_old.specs.Renamed.{IsRenamed, Disables};
ghost use Rattle.crash_safety.specs.Sound.{Whole, Moved, Sound, IsSound};

use crate::{ControlPaths, LinkPermit};
use fs_model::{Fs, FsError};

/// Renames the control file, and puts its directory on the disk. After an error the rename is there or not, and on the
/// disk or not. No refusal comes. Takes no memory. (`disable_old_cluster` of `src/bin/pg_upgrade/controldata.c`, which
/// doesn't sync the directory.)
pub fn disable<F: Fs>(fs: &mut F, paths: ControlPaths) -> Result<LinkPermit, FsError>
    requires { F.told fs.old ≡ true → refusal (F.trail fs.old).present (Renames paths.control paths.renamed) ≡ None }
    ensures told { F.told fs.new ≡ F.told fs.old }
    ensures firm { F.firm fs.new ≡ F.firm fs.old }
    ensures permit { IfOk result (λ permit. permit ≡ paths.control) }
    ensures decided { F.told fs.old ≡ true → DecidedBy None result }
    ensures renamed { F.told fs.old ≡ true → OnOk result (IsRenamed (F.trail fs.old).present paths.control paths.renamed paths.dir (F.trail fs.new).present) }
    ensures lacks { F.told fs.old ≡ true → Tracked (F.trail fs.old).present → OnOk result (Lacks paths.control (F.trail fs.new).present) }
    ensures calls { F.told fs.old ≡ true → Goes (Disables paths.control paths.renamed paths.dir) (F.trail fs.old) (F.trail fs.new) }
    ensures sound { F.told fs.old ≡ true → (u : Upgrade) → IsReady u → u.disables ≡ true → u.control ≡ paths.control → u.renamed ≡ paths.renamed → Sound u Whole (F.trail fs.old).present → Since (IsSound u) (F.trail fs.old) (F.trail fs.new) }
    ensures lasts { F.told fs.old ≡ true → (u : Upgrade) → IsReady u → u.disables ≡ true → u.control ≡ paths.control → u.renamed ≡ paths.renamed → Sound u Whole (F.trail fs.old).present → Lasts (IsOffDisk u.control) (F.trail fs.old) (F.trail fs.new) }
    ensures moved { F.told fs.old ≡ true → (u : Upgrade) → IsReady u → u.disables ≡ true → u.control ≡ paths.control → u.renamed ≡ paths.renamed → Sound u Whole (F.trail fs.old).present → OnOk result (Sound u Moved (F.trail fs.new).present) }
    ensures cause { HasCause (F.firm fs.old) (F.counts fs.old) (F.counts fs.new) (error_of result) }
    ensures others { OthersStay (F.counts fs.old) (F.counts fs.new) (error_of result) }
{
    fs.rename(&paths.control, &paths.renamed)?;
    fs.sync_dir(&paths.dir)?;
    Ok(LinkPermit::over(paths))
}
