// Refusals in words.
use compat_checks::Refusal;
use std::alloc::{AllocError, Global};

/// The name of a refusal.
pub(crate) fn name(refusal: &Refusal) -> &'static str {
    match refusal {
        Refusal::Overlap => "Overlap",
        Refusal::MissingDir(_) => "MissingDir",
        Refusal::MissingVersion(_) => "MissingVersion",
        Refusal::WrongVersion(_) => "WrongVersion",
        Refusal::Running(_) => "Running",
        Refusal::OldDisabled => "OldDisabled",
        Refusal::NoControl(_) => "NoControl",
        Refusal::ControlShort(_) => "ControlShort",
        Refusal::ControlCrc(_) => "ControlCrc",
        Refusal::ControlVersion(_, _) => "ControlVersion",
        Refusal::CatalogVersion(_, _) => "CatalogVersion",
        Refusal::NotShutDown(_, _) => "NotShutDown",
        Refusal::BlockSize(_) => "BlockSize",
        Refusal::ControlDiffers(_, _, _) => "ControlDiffers",
        Refusal::Prepared(_) => "Prepared",
        Refusal::CatalogText(_, _, _) => "CatalogText",
        Refusal::TooMany => "TooMany",
        Refusal::InstallUser => "InstallUser",
        Refusal::NewRoles => "NewRoles",
        Refusal::ConnectFlag(_) => "ConnectFlag",
        Refusal::RegColumn(_, _, _) => "RegColumn",
        Refusal::AclColumn(_, _, _) => "AclColumn",
        Refusal::NewNotEmpty => "NewNotEmpty",
        Refusal::NewUsed(_) => "NewUsed",
        Refusal::TablespaceDir(_) => "TablespaceDir",
        Refusal::MissingFile(_) => "MissingFile",
        Refusal::SharedInode(_) => "SharedInode",
        Refusal::DeviceDiffers(_) => "DeviceDiffers",
        Refusal::ControlOldExists => "ControlOldExists",
    }
}

/// What a refusal tells besides its name.
pub(crate) fn details(alloc: Global, refusal: &Refusal) -> Result<String, AllocError> {
    match refusal {
        Refusal::MissingDir(side)
        | Refusal::MissingVersion(side)
        | Refusal::WrongVersion(side)
        | Refusal::Running(side)
        | Refusal::NoControl(side)
        | Refusal::ControlShort(side)
        | Refusal::ControlCrc(side)
        | Refusal::BlockSize(side)
        | Refusal::Prepared(side) => format!(in alloc; " {side:?}"),
        Refusal::ControlVersion(side, number)
        | Refusal::CatalogVersion(side, number)
        | Refusal::NotShutDown(side, number) => format!(in alloc; " {side:?} {number}"),
        Refusal::ControlDiffers(field, old, new) => format!(in alloc; " {field:?} {old} {new}"),
        Refusal::CatalogText(side, line, cause) => format!(in alloc; " {side:?} {line} {cause}"),
        Refusal::ConnectFlag(database) => format!(in alloc; " {database}"),
        Refusal::RegColumn(database, table, column) | Refusal::AclColumn(database, table, column) =>
            { format!(in alloc; " {database} {table} {column}") }
        Refusal::NewUsed(path)
        | Refusal::TablespaceDir(path)
        | Refusal::MissingFile(path)
        | Refusal::SharedInode(path)
        | Refusal::DeviceDiffers(path) => format!(in alloc; " {}", path.text()?),
        Refusal::Overlap
        | Refusal::OldDisabled
        | Refusal::TooMany
        | Refusal::InstallUser
        | Refusal::NewRoles
        | Refusal::NewNotEmpty
        | Refusal::ControlOldExists => Ok(String::new(alloc)),
    }
}
