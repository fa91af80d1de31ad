// Telling where an upgrade stands.
ghost use Rattle.std.specs.Prelude.{◌≡◌, true};
ghost use Rattle.fs_model.specs.Trail.{Unchanged, HasCause};
ghost use Rattle.upgrade_run.specs.Causes.{ReportHasCause, failure_in};
ghost use Rattle.upgrade_run.specs.Means.{LeavesAll, HasBegun, ReportMeans};

use crate::answers::report_answer;
use fs_model::{Fs, Path};
use std::alloc::Global;
use upgrade_answers::Answer;
use verdicts::verdict_of;

/// Tells where an upgrade of the old cluster into the new one stands. Nothing is changed.
pub(crate) fn report<F: Fs>(alloc: Global, fs: &mut F, old: Path, new: &Path) -> Answer
    ensures told { F.told fs.new ≡ F.told fs.old }
    ensures firm { F.firm fs.new ≡ F.firm fs.old }
    ensures begun { HasBegun result }
    ensures unchanged { F.told fs.old ≡ true → Unchanged (F.trail fs.old) (F.trail fs.new) }
    ensures leaves { F.told fs.old ≡ true → LeavesAll result }
    ensures means { F.told fs.old ≡ true → ReportMeans (F.trail fs.old).present old new.now result }
    ensures own_cause { ReportHasCause old result (F.counts fs.old) (F.counts fs.new) }
    ensures counts { HasCause (F.firm fs.old) (F.counts fs.old) (F.counts fs.new) (failure_in result) }
{
    let verdict = verdict_of(alloc, fs, &old, new);
    report_answer(old, verdict)
}
