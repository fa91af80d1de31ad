// The texts of what an answer names.
ghost use Rattle.std.specs.Prelude.{◌≡◌};
ghost use Rattle.upgrade_answers.specs.Lines.{side_text, phase_text, field_text, error_text};

use control_checks::ControlField;
use control_file::Side;
use fs_model::FsError;
use phase_names::PhaseName;

pub(crate) fn side_text(side: Side) -> &'static [u8]
    ensures { result.now ≡ side_text side }
{
    match side {
        Side::Old => b"old",
        Side::New => b"new",
    }
}

pub(crate) fn phase_text(phase: PhaseName) -> &'static [u8]
    ensures { result.now ≡ phase_text phase }
{
    match phase {
        PhaseName::Words => b"words",
        PhaseName::Check => b"check",
        PhaseName::Restore => b"restore",
        PhaseName::Status => b"status",
        PhaseName::Disable => b"disable",
        PhaseName::Transfer => b"transfer",
        PhaseName::Finish => b"finish",
        PhaseName::Report => b"report",
        PhaseName::Make => b"make",
        PhaseName::Count => b"count",
    }
}

// The field's name in PostgreSQL's `ControlFileData`.
pub(crate) fn field_text(field: ControlField) -> &'static [u8]
    ensures { result.now ≡ field_text field }
{
    match field {
        ControlField::MaxAlign => b"maxAlign",
        ControlField::BlckSz => b"blcksz",
        ControlField::RelSegSize => b"relseg_size",
        ControlField::XlogBlckSz => b"xlog_blcksz",
        ControlField::XlogSegSize => b"xlog_seg_size",
        ControlField::NameDataLen => b"nameDataLen",
        ControlField::IndexMaxKeys => b"indexMaxKeys",
        ControlField::ToastChunk => b"toast_max_chunk_size",
        ControlField::LoblkSize => b"loblksize",
        ControlField::Checksums => b"data_checksum_version",
    }
}

pub(crate) fn error_text(error: FsError) -> &'static [u8]
    ensures { result.now ≡ error_text error }
{
    match error {
        FsError::NotFound => b"not found",
        FsError::Exists => b"exists",
        FsError::NotDir => b"not a directory",
        FsError::WrongKind => b"wrong kind",
        FsError::NotEmpty => b"not empty",
        FsError::CrossDevice => b"cross device",
        FsError::CrossDir => b"cross directory",
        FsError::Failed => b"failed",
        FsError::OutOfMemory => b"out of memory",
    }
}
