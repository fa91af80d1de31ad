// Copying each file of a plan.
ghost use Rattle.std.specs.Prelude.{◌≡◌, ◌≢◌, ◌<◌, [], ◌∷◌, true, None, length, OnOk};
ghost use Rattle.fs_model.specs.Names.{Path};
ghost use Rattle.fs_model.specs.Trail.{Goes, Since, DecidedBy, HasCause, OthersStay, error_of};
ghost use Rattle.crash_safety.specs.Frame.{IsInside};
ghost use Rattle.crash_safety.specs.Synced.{IsOneOf};
ghost use Rattle.crash_safety.specs.Upgrade.{Upgrade, IsReady};
ghost use Rattle.crash_safety.specs.Sound.{Stage, Moving, Sound};
ghost use Rattle.transfer_plan.specs.Carriable.{IsCarriable, CanBeCarried, targets};
ghost use Rattle.transfer_plan.specs.Changed.{ChangesOnlyAt};
ghost use Rattle.copy_transfer.specs.CopiedFiles.{CopiesTo, CopiesItem, AreCopied, IsPartlyCopied};

use fs_model::{Fs, FsError};
use fs_tools::copy_file;
use transfer_plan::{Plan, PlanItem, remove_replaced};

// Copies the file of one item to its new name, in place of what stands there.
fn copy_item<F: Fs>(fs: &mut F, item: &PlanItem, buffer: &mut [u8]) -> Result<(), FsError>
    requires { 0 < length buffer.old }
    ensures told { F.told fs.new ≡ F.told fs.old }
    ensures firm { F.firm fs.new ≡ F.firm fs.old }
    ensures calls { F.told fs.old ≡ true → Goes (CopiesTo (item.now.to ∷ []) (F.trail fs.old).present) (F.trail fs.old) (F.trail fs.new) }
    ensures unrefused { F.told fs.old ≡ true → IsCarriable (F.trail fs.old).present.names item.now → item.now.from ≢ item.now.to → DecidedBy None result }
    ensures copied { F.told fs.old ≡ true → OnOk result (CopiesItem (F.trail fs.old).present item.now (F.trail fs.new).present) }
    ensures cause { HasCause (F.firm fs.old) (F.counts fs.old) (F.counts fs.new) (error_of result) }
    ensures others { OthersStay (F.counts fs.old) (F.counts fs.new) (error_of result) }
{
    remove_replaced(fs, item)?;
    copy_file(fs, &item.from, &item.to, buffer)?;
    Ok(())
}

/// Copies each file of the plan to its new name, in turn, in place of what stands there, through the buffer. It takes no
/// memory. After an error a first part of the plan is copied, of the next item what it replaces may be gone and the
/// copy may stand, with any bytes, and the others are as they were. No refusal comes where the plan can be carried
/// out. (`transfer_all_new_tablespaces` of `src/bin/pg_upgrade/relfilenumber.c`, with `copyFile` of `file.c`.)
pub fn copy_all<F: Fs>(fs: &mut F, plan: &Plan, buffer: &mut [u8]) -> Result<(), FsError>
    requires { 0 < length buffer.old }
    ensures told { F.told fs.new ≡ F.told fs.old }
    ensures firm { F.firm fs.new ≡ F.firm fs.old }
    ensures calls { F.told fs.old ≡ true → Goes (CopiesTo (targets plan.now) (F.trail fs.old).present) (F.trail fs.old) (F.trail fs.new) }
    ensures frame { F.told fs.old ≡ true → Since (ChangesOnlyAt (targets plan.now) (F.trail fs.old).present) (F.trail fs.old) (F.trail fs.new) }
    ensures sound { F.told fs.old ≡ true → (u : Upgrade) → IsReady u → (stage : Stage) → (stage ≡ Moving → ⊥) → ((path : Path) → IsOneOf (targets plan.now) path → IsInside u.new_tops path) → Sound u stage (F.trail fs.old).present → Since (Sound u stage) (F.trail fs.old) (F.trail fs.new) }
    ensures unrefused { F.told fs.old ≡ true → CanBeCarried (F.trail fs.old).present.names plan.now → DecidedBy None result }
    ensures carried { F.told fs.old ≡ true → CanBeCarried (F.trail fs.old).present.names plan.now → OnOk result (AreCopied (F.trail fs.old).present (F.trail fs.new).present plan.now) }
    ensures partly { F.told fs.old ≡ true → CanBeCarried (F.trail fs.old).present.names plan.now → IsPartlyCopied (F.trail fs.old).present (F.trail fs.new).present plan.now }
    ensures cause { HasCause (F.firm fs.old) (F.counts fs.old) (F.counts fs.new) (error_of result) }
    ensures others { OthersStay (F.counts fs.old) (F.counts fs.new) (error_of result) }
{
    // It says that the state is well-formed.
    let _ = fs.moment();
    for item in plan.items() {
        copy_item(fs, item, buffer)?;
    }
    Ok(())
}
