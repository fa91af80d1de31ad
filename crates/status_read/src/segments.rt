// The segments in a directory of status files.
ghost use Rattle.std.specs.Prelude.{◌≡◌, ◌++◌, ◌∷◌, [], ℕ, List, Some, true, IfOk, OnOk, string_bytes};
ghost use Rattle.std.specs.FinMap as map;
ghost use Rattle.fs_model.specs.Calls.{ReadsAt, refusal};
ghost use Rattle.fs_model.specs.Reading.{file_bytes};
ghost use Rattle.fs_model.specs.Trail.{DecidedBy, error_of, unless_lack};
ghost use Rattle.fs_model.specs.Observed.{Observed, OnlyReads};
ghost use Rattle.xact_status.specs.Files.{SegmentFiles};
ghost use Rattle.cluster_meaning.specs.Status.{segment_name, status_files};
ghost use Rattle.status_read.specs.Segments.{segment_number, segment_refusal, first_refusal, segments_refusal, AddsNumbered, Gathers};

use fs_model::{Bytes, Fs, FsError, Name, Path};
use fs_tools::read_all;
use std::alloc::{AllocError, Global};
use xact_status::Segments;

// The name of a segment (`SlruFileName` of `src/backend/access/transam/slru.c`).
#[tactic(auto, unfolding(cluster_meaning::specs::Status::segment_name))]
fn segment_name(alloc: Global, number: u32) -> Result<String, AllocError>
    ensures { IfOk result (λ name. string_bytes name ≡ segment_name number) }
{
    format!(in alloc; "{number:04X}")
}

/// The number of the segment that a file in a directory of status files has, where its name is that of a segment: four
/// upper hexadecimal digits, or more of them without a zero at the front. Other files are none of the log.
pub fn segment_number(alloc: Global, name: &str) -> Result<Option<u32>, AllocError>
    ensures { IfOk result (λ number. number ≡ segment_number name.now) }
{
    let Ok(number) = u32::from_str_radix(name, 16) else {
        return Ok(None);
    };
    let canonical = segment_name(alloc, number)?;
    if canonical.as_str() == name {
        Ok(Some(number))
    } else {
        Ok(None)
    }
}

// Reads the file of a segment, and adds it with its number.
fn add_numbered<F: Fs>(
    alloc: Global,
    fs: &mut F,
    path: &Path,
    number: u32,
    parts: &mut Vec<(u32, Bytes)>,
) -> Result<(), FsError>
    ensures reads { OnlyReads (record { told = F.told fs.old; firm = F.firm fs.old; depth = F.depth fs.old; trail = F.trail fs.old; counts = F.counts fs.old })
        (record { told = F.told fs.new; firm = F.firm fs.new; depth = F.depth fs.new; trail = F.trail fs.new; counts = F.counts fs.new }) (unless_lack (error_of result)) }
    ensures decided { F.told fs.old ≡ true → DecidedBy (refusal (F.trail fs.old).present (ReadsAt path.now)) result }
    ensures added { F.told fs.old ≡ true → OnOk result ((bytes : List ℕ) × (file_bytes (F.trail fs.old).present path.now ≡ Some bytes) × (parts.new.items ≡ parts.old.items ++ (number, bytes) ∷ [])) }
{
    let bytes = match read_all(alloc, fs, path) {
        Ok(bytes) => bytes,
        Err(error) => return Err(error),
    };
    match parts.push((number, Bytes::new(bytes))) {
        Ok(()) => Ok(()),
        Err(_) => Err(FsError::OutOfMemory),
    }
}

// Reads the segment that a file has, where its name is that of one, and adds it.
fn add_segment<F: Fs>(
    alloc: Global,
    fs: &mut F,
    dir: &Path,
    name: &Name,
    parts: &mut Vec<(u32, Bytes)>,
) -> Result<(), FsError>
    ensures reads { OnlyReads (record { told = F.told fs.old; firm = F.firm fs.old; depth = F.depth fs.old; trail = F.trail fs.old; counts = F.counts fs.old })
        (record { told = F.told fs.new; firm = F.firm fs.new; depth = F.depth fs.new; trail = F.trail fs.new; counts = F.counts fs.new }) (unless_lack (error_of result)) }
    ensures decided { F.told fs.old ≡ true → DecidedBy (segment_refusal (F.trail fs.old).present dir.now name.now) result }
    ensures added { F.told fs.old ≡ true → OnOk result (AddsNumbered (F.trail fs.old).present dir.now name.now (segment_number name.now) parts.old.items parts.new.items) }
{
    let number = match segment_number(alloc, name.text()) {
        Ok(Some(number)) => number,
        Ok(None) => return Ok(()),
        Err(_) => return Err(FsError::OutOfMemory),
    };
    let Ok(path) = dir.child(name) else {
        return Err(FsError::OutOfMemory);
    };
    add_numbered(alloc, fs, &path, number, parts)
}

// Reads the segments that files of these names have, and adds them.
fn add_segments<F: Fs>(
    alloc: Global,
    fs: &mut F,
    dir: &Path,
    names: &[Name],
    parts: &mut Vec<(u32, Bytes)>,
) -> Result<(), FsError>
    requires { parts.old.items ≡ [] }
    ensures reads { OnlyReads (record { told = F.told fs.old; firm = F.firm fs.old; depth = F.depth fs.old; trail = F.trail fs.old; counts = F.counts fs.old })
        (record { told = F.told fs.new; firm = F.firm fs.new; depth = F.depth fs.new; trail = F.trail fs.new; counts = F.counts fs.new }) (unless_lack (error_of result)) }
    ensures decided { F.told fs.old ≡ true → DecidedBy (first_refusal (F.trail fs.old).present dir.now names.now) result }
    ensures gathers { F.told fs.old ≡ true → OnOk result (Gathers (F.trail fs.old).present dir.now names.now parts.new.items) }
{
    for name in names {
        match add_segment(alloc, fs, dir, name, parts) {
            Ok(()) => {}
            Err(error) => return Err(error),
        }
    }
    Ok(())
}

/// The segments in a directory of status files, by the names of its files. A told file system gives each name once; where
/// another gives one twice, there are no segments and the answer is want of memory.
/// Refuses: where the directory is none, as `list` does; else where the name of a segment is that of no file, as `read_at`.
pub fn segments_in<F: Fs>(alloc: Global, fs: &mut F, dir: &Path) -> Result<Segments, FsError>
    ensures reads { OnlyReads (record { told = F.told fs.old; firm = F.firm fs.old; depth = F.depth fs.old; trail = F.trail fs.old; counts = F.counts fs.old })
        (record { told = F.told fs.new; firm = F.firm fs.new; depth = F.depth fs.new; trail = F.trail fs.new; counts = F.counts fs.new }) (unless_lack (error_of result)) }
    ensures decided { F.told fs.old ≡ true → DecidedBy (segments_refusal (F.trail fs.old).present dir.now) result }
    ensures segments { F.told fs.old ≡ true → IfOk result (λ segments. ◌≡◌ {A = SegmentFiles} (map.get segments) (status_files (F.trail fs.old).present dir.now)) }
{
    let names = match fs.list(alloc, dir) {
        Ok(names) => names,
        Err(error) => return Err(error),
    };
    let mut parts = Vec::new(alloc);
    match add_segments(alloc, fs, dir, &names, &mut parts) {
        Ok(()) => {}
        Err(error) => return Err(error),
    }
    match Segments::new(alloc, parts) {
        Ok(segments) => Ok(segments),
        Err(_) => Err(FsError::OutOfMemory),
    }
}
