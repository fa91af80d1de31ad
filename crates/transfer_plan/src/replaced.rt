// Removing what stands at a new name.
ghost use Rattle.std.specs.Prelude.{◌≡◌, ◌≢◌, true, None, OnOk};
ghost use Rattle.fs_model.specs.Trail.{Goes, DecidedBy, HasCause, OthersStay, error_of};
ghost use Rattle.transfer_plan.specs.Carriable.{IsCarriable};
ghost use Rattle.transfer_plan.specs.Changed.{cleared, Removes, IsFree};

use crate::PlanItem;
use fs_model::{Fs, FsError};

/// Unlinks what stands at an item's new name, where the item replaces it. Takes no memory.
/// Refuses as `unlink` does, and then nothing was changed. (`transfer_relfile` of `src/bin/pg_upgrade/relfilenumber.c`
/// begins so.)
pub fn remove_replaced<F: Fs>(fs: &mut F, item: &PlanItem) -> Result<(), FsError>
    ensures told { F.told fs.new ≡ F.told fs.old }
    ensures firm { F.firm fs.new ≡ F.firm fs.old }
    ensures calls { F.told fs.old ≡ true → Goes (Removes item.now.to) (F.trail fs.old) (F.trail fs.new) }
    ensures unrefused { F.told fs.old ≡ true → IsCarriable (F.trail fs.old).present.names item.now → DecidedBy None result }
    ensures removed { F.told fs.old ≡ true → OnOk result ((F.trail fs.new).present ≡ cleared (F.trail fs.old).present item.now) }
    ensures free { F.told fs.old ≡ true → IsCarriable (F.trail fs.old).present.names item.now → item.now.from ≢ item.now.to → OnOk result (IsFree (F.trail fs.new).present item.now) }
    ensures cause { HasCause (F.firm fs.old) (F.counts fs.old) (F.counts fs.new) (error_of result) }
    ensures others { OthersStay (F.counts fs.old) (F.counts fs.new) (error_of result) }
{
    // It says that the state is well-formed.
    let _ = fs.moment();
    if item.replaces {
        fs.unlink(&item.to)
    } else {
        Ok(())
    }
}
