// The refusals by directories, releases and control files among all.
ghost use Rattle.std.specs.Prelude.{◌≡◌, ◌++◌, map, option_map};
ghost use Rattle.fs_model.specs.State.{FsState};
ghost use Rattle.control_file.specs.declared.job.Job.{Job};
ghost use Rattle.control_checks.specs.Findings.{ControlCondition, finding, first_of as control_first, order as control_order};
ghost use Rattle.compat_checks.specs.Order.{order};
ghost use Rattle.compat_checks.specs.First.{Findings, or_first, first_of};
ghost use Rattle.compat_checks.specs.Controls.{lifted, lifted_condition, later_conditions};

use crate::Refusal;
use control_checks::ControlRefusal;

/// The refusal as one of all.
pub fn lifted(refusal: ControlRefusal) -> Refusal
    ensures { result ≡ lifted refusal }
{
    match refusal {
        ControlRefusal::Overlap => Refusal::Overlap,
        ControlRefusal::MissingDir(side) => Refusal::MissingDir(side),
        ControlRefusal::MissingVersion(side) => Refusal::MissingVersion(side),
        ControlRefusal::WrongVersion(side) => Refusal::WrongVersion(side),
        ControlRefusal::Running(side) => Refusal::Running(side),
        ControlRefusal::OldDisabled => Refusal::OldDisabled,
        ControlRefusal::NoControl(side) => Refusal::NoControl(side),
        ControlRefusal::ControlShort(side) => Refusal::ControlShort(side),
        ControlRefusal::ControlCrc(side) => Refusal::ControlCrc(side),
        ControlRefusal::ControlVersion(side, found) => Refusal::ControlVersion(side, found),
        ControlRefusal::CatalogVersion(side, found) => Refusal::CatalogVersion(side, found),
        ControlRefusal::NotShutDown(side, state) => Refusal::NotShutDown(side, state),
        ControlRefusal::BlockSize(side) => Refusal::BlockSize(side),
        ControlRefusal::ControlDiffers(field, in_old, in_new) => {
            Refusal::ControlDiffers(field, in_old, in_new)
        }
    }
}

/// A law, with nothing to run: the conditions on directories, releases and control files come first, in their order, so that
/// a refusal that `check_controls` answers is the first of all.
pub fn controls_come_first()
    ensures order { map lifted_condition control_order ++ later_conditions ≡ order }
    ensures found { (found : Findings) (s : FsState) (job : Job) → ((c : ControlCondition) → found (lifted_condition c) ≡ option_map lifted (finding s job c))
        → first_of found order ≡ or_first (option_map lifted (control_first s job control_order)) (first_of found later_conditions) }
{}
