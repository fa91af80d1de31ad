// Linking each file of a plan.
ghost use Rattle.std.specs.Prelude.{◌≡◌, ◌≢◌, [], ◌∷◌, true, None, OnOk};
ghost use Rattle.fs_model.specs.Names.{Path, parent};
ghost use Rattle.fs_model.specs.Calls.{device_of};
ghost use Rattle.fs_model.specs.Trail.{Goes, Since, DecidedBy, HasCause, OthersStay, error_of};
ghost use Rattle.crash_safety.specs.Frame.{IsInside};
ghost use Rattle.crash_safety.specs.Synced.{IsOneOf};
ghost use Rattle.crash_safety.specs.Lacks.{Lacks};
ghost use Rattle.crash_safety.specs.Upgrade.{Upgrade, IsReady};
ghost use Rattle.crash_safety.specs.Sound.{Stage, Moved, Sound};
ghost use Rattle.transfer_plan.specs.Carriable.{IsCarriable, CanBeCarried, HaveOneDevice, targets};
ghost use Rattle.link_transfer.specs.LinkedFiles.{LinksItems, LinksItem, AreLinked, IsPartlyLinked, ChangesNamesAt};

use disable_old::LinkPermit;
use fs_model::{Fs, FsError};
use transfer_plan::{Plan, PlanItem, remove_replaced};

// Gives the file of one item its new name, in place of what stands there.
fn link_item<F: Fs>(fs: &mut F, item: &PlanItem) -> Result<(), FsError>
    ensures told { F.told fs.new ≡ F.told fs.old }
    ensures firm { F.firm fs.new ≡ F.firm fs.old }
    ensures calls { F.told fs.old ≡ true → Goes (LinksItems (item.now ∷ [])) (F.trail fs.old) (F.trail fs.new) }
    ensures unrefused { F.told fs.old ≡ true → IsCarriable (F.trail fs.old).present.names item.now → item.now.from ≢ item.now.to → device_of (F.trail fs.old).present (parent item.now.from) ≡ device_of (F.trail fs.old).present (parent item.now.to) → DecidedBy None result }
    ensures linked { F.told fs.old ≡ true → OnOk result (LinksItem (F.trail fs.old).present item.now (F.trail fs.new).present) }
    ensures cause { HasCause (F.firm fs.old) (F.counts fs.old) (F.counts fs.new) (error_of result) }
    ensures others { OthersStay (F.counts fs.old) (F.counts fs.new) (error_of result) }
{
    remove_replaced(fs, item)?;
    fs.link(&item.from, &item.to)
}

/// Gives each file of the plan its new name, in turn, in place of what stands there. It takes no memory. The old cluster
/// has to be disabled, which the permit says. After an error a first part of the plan has its new names, of the next item
/// what it replaces may be gone and the new name may be there, and the others are as they were. No refusal comes where
/// the plan can be carried out and both directories of each item have one device. (`transfer_all_new_tablespaces` of
/// `src/bin/pg_upgrade/relfilenumber.c`, with `linkFile` of `file.c`.)
pub fn link_all<F: Fs>(fs: &mut F, plan: &Plan, permit: &LinkPermit) -> Result<(), FsError>
    requires { F.told fs.old ≡ true → Lacks permit.now (F.trail fs.old).present }
    ensures told { F.told fs.new ≡ F.told fs.old }
    ensures firm { F.firm fs.new ≡ F.firm fs.old }
    ensures calls { F.told fs.old ≡ true → Goes (LinksItems plan.now) (F.trail fs.old) (F.trail fs.new) }
    ensures frame { F.told fs.old ≡ true → Since (ChangesNamesAt (targets plan.now) (F.trail fs.old).present) (F.trail fs.old) (F.trail fs.new) }
    ensures sound { F.told fs.old ≡ true → (u : Upgrade) → IsReady u → u.disables ≡ true → u.control ≡ permit.now → (stage : Stage) → ((path : Path) → IsOneOf (targets plan.now) path → IsInside u.new_tops path) → Sound u stage (F.trail fs.old).present → Since (Sound u Moved) (F.trail fs.old) (F.trail fs.new) }
    ensures lacks { F.told fs.old ≡ true → (IsOneOf (targets plan.now) permit.now → ⊥) → Since (Lacks permit.now) (F.trail fs.old) (F.trail fs.new) }
    ensures unrefused { F.told fs.old ≡ true → CanBeCarried (F.trail fs.old).present.names plan.now → HaveOneDevice (F.trail fs.old).present plan.now → DecidedBy None result }
    ensures carried { F.told fs.old ≡ true → CanBeCarried (F.trail fs.old).present.names plan.now → OnOk result (AreLinked (F.trail fs.old).present (F.trail fs.new).present plan.now) }
    ensures partly { F.told fs.old ≡ true → CanBeCarried (F.trail fs.old).present.names plan.now → IsPartlyLinked (F.trail fs.old).present (F.trail fs.new).present plan.now }
    ensures cause { HasCause (F.firm fs.old) (F.counts fs.old) (F.counts fs.new) (error_of result) }
    ensures others { OthersStay (F.counts fs.old) (F.counts fs.new) (error_of result) }
{
    for item in plan.items() {
        link_item(fs, item)?;
    }
    Ok(())
}
