// What the tests look at. A path where nothing stands, or something else, is a finding here and no error.
ghost use Rattle.std.specs.Prelude.{◌≡◌, true, Option, IfOk, IfErr, option_map};
ghost use Rattle.fs_model.specs.Reading.{file_bytes};
ghost use Rattle.fs_model.specs.WellFormed.{WellFormed};
ghost use Rattle.fs_model.specs.Observed.{OnlyReads};
ghost use Rattle.control_checks.specs.Answers.{seen_as, stop_of, Stops};
ghost use Rattle.control_checks.specs.declared.refusal.ControlRefusal.{ControlRefusal};
ghost use Rattle.control_checks.specs.Findings.{kind_at};

use crate::stop::CheckStop;
use control_file::Side;
use fs_model::{Bytes, Fs, FsError, Kind, Path, Stat};
use std::alloc::Global;

// What a call showed: nothing where it was refused.
fn seen_as<T>(side: Side, answer: Result<T, FsError>) -> Result<Option<T>, CheckStop>
    ensures { result ≡ seen_as side answer }
{
    match answer {
        Ok(value) => Ok(Some(value)),
        Err(FsError::Failed) => Err(CheckStop::Failed(side)),
        Err(FsError::OutOfMemory) => Err(CheckStop::OutOfMemory),
        Err(FsError::NotFound) => Ok(None),
        Err(FsError::Exists) => Ok(None),
        Err(FsError::NotDir) => Ok(None),
        Err(FsError::WrongKind) => Ok(None),
        Err(FsError::NotEmpty) => Ok(None),
        Err(FsError::CrossDevice) => Ok(None),
        Err(FsError::CrossDir) => Ok(None),
    }
}

fn kind_in(stat: Option<Stat>) -> Option<Kind>
    ensures { result ≡ option_map (λ stat. stat.kind) stat }
{
    stat.map(|stat| stat.kind)
}

fn bytes_in(bytes: Option<Vec<u8>>) -> Option<Bytes>
    ensures { result ≡ option_map (λ bytes. bytes.items) bytes }
{
    bytes.map(Bytes::new)
}

/// The kind of what stands at a path, if anything does. No condition is refused here.
pub(crate) fn kind_at<F: Fs>(fs: &mut F, side: Side, at: &Path) -> Result<Option<Kind>, CheckStop>
    ensures reads { OnlyReads (record { told = F.told fs.old; firm = F.firm fs.old; depth = F.depth fs.old; trail = F.trail fs.old; counts = F.counts fs.old })
        (record { told = F.told fs.new; firm = F.firm fs.new; depth = F.depth fs.new; trail = F.trail fs.new; counts = F.counts fs.new }) (stop_of result) }
    ensures plain { (found : Option ControlRefusal) → IfErr result (λ stop. Stops found stop) }
    ensures kind { F.told fs.old ≡ true → WellFormed (F.trail fs.old).present → IfOk result (λ kind. kind ≡ kind_at (F.trail fs.old).present at.now) }
{
    let answer = fs.stat(at);
    let stat = seen_as(side, answer)?;
    Ok(kind_in(stat))
}

/// The bytes of the file at a path, if a file stands there. No condition is refused here.
pub(crate) fn file_at<F: Fs>(
    alloc: Global,
    fs: &mut F,
    side: Side,
    at: &Path,
) -> Result<Option<Bytes>, CheckStop>
    ensures reads { OnlyReads (record { told = F.told fs.old; firm = F.firm fs.old; depth = F.depth fs.old; trail = F.trail fs.old; counts = F.counts fs.old })
        (record { told = F.told fs.new; firm = F.firm fs.new; depth = F.depth fs.new; trail = F.trail fs.new; counts = F.counts fs.new }) (stop_of result) }
    ensures plain { (found : Option ControlRefusal) → IfErr result (λ stop. Stops found stop) }
    ensures file { F.told fs.old ≡ true → WellFormed (F.trail fs.old).present → IfOk result (λ file. file ≡ file_bytes (F.trail fs.old).present at.now) }
{
    let answer = fs_tools::read_all(alloc, fs, at);
    let bytes = seen_as(side, answer)?;
    Ok(bytes_in(bytes))
}
