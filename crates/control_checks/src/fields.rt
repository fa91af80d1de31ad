// The conditions on what control records say.
ghost use Rattle.std.specs.Prelude.{◌≡◌};
ghost use Rattle.std.specs.Option.{option_copied};
ghost use Rattle.std.specs.List.{find};
ghost use Rattle.control_checks.specs.Answers.{refused};
ghost use Rattle.control_checks.specs.Findings.{field_pairs, differs, told_pair, control_differs, not_shut_down, block_size};
ghost use Rattle.control_checks.specs.Causes.{number_of, refusal_by, earlier, first_by_fields};

use crate::refusal::{ControlField, ControlRefusal};
use control_file::{Control, ControlError, Side};

/// What both control files have in a field.
#[derive(Clone, Copy, Debug, PartialEq, Eq)]
pub(crate) struct FieldPair {
    pub field: ControlField,
    pub in_old: u32,
    pub in_new: u32,
}

// The place of a cause in the order in which a record is tested.
fn number_of(cause: ControlError) -> u8
    ensures { result ≡ number_of cause }
{
    match cause {
        ControlError::Short => 0,
        ControlError::Crc => 1,
        ControlError::ControlVersion(_) => 2,
        ControlError::CatalogVersion(_) => 3,
    }
}

/// The refusal of a side whose record isn't read.
pub(crate) fn refusal_by(side: Side, cause: ControlError) -> ControlRefusal
    ensures { result ≡ refusal_by side cause }
{
    match cause {
        ControlError::Short => ControlRefusal::ControlShort(side),
        ControlError::Crc => ControlRefusal::ControlCrc(side),
        ControlError::ControlVersion(found) => ControlRefusal::ControlVersion(side, found),
        ControlError::CatalogVersion(found) => ControlRefusal::CatalogVersion(side, found),
    }
}

/// The first refusal where neither record is read: a condition of both comes before the next one of either.
pub(crate) fn earlier(old: ControlError, new: ControlError) -> ControlRefusal
    ensures { result ≡ earlier old new }
{
    if number_of(old) <= number_of(new) {
        refusal_by(Side::Old, old)
    } else {
        refusal_by(Side::New, new)
    }
}

fn not_shut_down(side: Side, control: &Control) -> Result<(), ControlRefusal>
    ensures { refused result ≡ not_shut_down side control.now }
{
    if control.state == 1 {
        Ok(())
    } else {
        Err(ControlRefusal::NotShutDown(side, control.state))
    }
}

fn block_size(side: Side, control: &Control) -> Result<(), ControlRefusal>
    ensures { refused result ≡ block_size side control.now }
{
    if control.blcksz == 8192 && control.relseg_size != 0 {
        Ok(())
    } else {
        Err(ControlRefusal::BlockSize(side))
    }
}

fn pair(field: ControlField, in_old: u32, in_new: u32) -> FieldPair
    ensures { result ≡ record { field = field; in_old = in_old; in_new = in_new } }
{
    FieldPair {
        field,
        in_old,
        in_new,
    }
}

fn field_pairs(old: &Control, new: &Control) -> [FieldPair; 10]
    ensures { result ≡ field_pairs old.now new.now }
{
    [
        pair(ControlField::MaxAlign, old.max_align, new.max_align),
        pair(ControlField::BlckSz, old.blcksz, new.blcksz),
        pair(ControlField::RelSegSize, old.relseg_size, new.relseg_size),
        pair(ControlField::XlogBlckSz, old.xlog_blcksz, new.xlog_blcksz),
        pair(
            ControlField::XlogSegSize,
            old.xlog_seg_size,
            new.xlog_seg_size,
        ),
        pair(
            ControlField::NameDataLen,
            old.name_data_len,
            new.name_data_len,
        ),
        pair(
            ControlField::IndexMaxKeys,
            old.index_max_keys,
            new.index_max_keys,
        ),
        pair(ControlField::ToastChunk, old.toast_chunk, new.toast_chunk),
        pair(ControlField::LoblkSize, old.loblksize, new.loblksize),
        pair(
            ControlField::Checksums,
            old.checksum_version,
            new.checksum_version,
        ),
    ]
}

// The first pair whose numbers differ.
fn first_pair(pairs: &[FieldPair]) -> Option<&FieldPair>
    ensures { option_copied result ≡ find differs pairs.now }
{
    pairs.iter().find(|pair| pair.in_old != pair.in_new)
}

fn told_pair(pair: &FieldPair) -> ControlRefusal
    ensures { result ≡ told_pair pair.now }
{
    ControlRefusal::ControlDiffers(pair.field, pair.in_old, pair.in_new)
}

fn control_differs(old: &Control, new: &Control) -> Result<(), ControlRefusal>
    ensures { refused result ≡ control_differs old.now new.now }
{
    let pairs = field_pairs(old, new);
    match first_pair(&pairs) {
        None => Ok(()),
        Some(pair) => Err(told_pair(pair)),
    }
}

/// Whether both clusters were shut down, have blocks and segments of a supported size, and agree in each field.
pub(crate) fn test_fields(old: &Control, new: &Control) -> Result<(), ControlRefusal>
    ensures { refused result ≡ first_by_fields old.now new.now }
{
    not_shut_down(Side::Old, old)?;
    not_shut_down(Side::New, new)?;
    block_size(Side::Old, old)?;
    block_size(Side::New, new)?;
    control_differs(old, new)
}
