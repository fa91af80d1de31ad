// Each refusal.
use compat_checks::Refusal;
use control_checks::ControlField;
use control_file::Side;
use fs_model::Path;

/// The refusal at a place of the table, if there is one. None speaks of a path.
pub(crate) fn plain_at(n: u32) -> Option<Refusal> {
    match n {
        0 => Some(Refusal::Overlap),
        1 => Some(Refusal::MissingDir(Side::Old)),
        2 => Some(Refusal::MissingVersion(Side::New)),
        3 => Some(Refusal::WrongVersion(Side::Old)),
        4 => Some(Refusal::Running(Side::New)),
        5 => Some(Refusal::OldDisabled),
        6 => Some(Refusal::NoControl(Side::Old)),
        7 => Some(Refusal::ControlShort(Side::New)),
        8 => Some(Refusal::ControlCrc(Side::Old)),
        9 => Some(Refusal::ControlVersion(Side::New, 1201)),
        10 => Some(Refusal::CatalogVersion(Side::Old, 202_107_181)),
        11 => Some(Refusal::NotShutDown(Side::Old, 6)),
        12 => Some(Refusal::BlockSize(Side::New)),
        13 => Some(Refusal::ControlDiffers(ControlField::RelSegSize, 2, 131_072)),
        14 => Some(Refusal::Prepared(Side::Old)),
        15 => Some(Refusal::CatalogText(Side::New, 7, 3)),
        16 => Some(Refusal::TooMany),
        17 => Some(Refusal::InstallUser),
        18 => Some(Refusal::NewRoles),
        19 => Some(Refusal::ConnectFlag(4)),
        20 => Some(Refusal::RegColumn(16384, 16385, 2)),
        21 => Some(Refusal::AclColumn(16384, 16385, 1)),
        22 => Some(Refusal::NewNotEmpty),
        23 => Some(Refusal::ControlOldExists),
        _ => None,
    }
}

/// The refusal at a place of the table, if there is one, that speaks of this path.
pub(crate) fn placed_at(n: u32, path: Path) -> Option<Refusal> {
    match n {
        0 => Some(Refusal::NewUsed(path)),
        1 => Some(Refusal::TablespaceDir(path)),
        2 => Some(Refusal::MissingFile(path)),
        3 => Some(Refusal::SharedInode(path)),
        4 => Some(Refusal::DeviceDiffers(path)),
        _ => None,
    }
}
