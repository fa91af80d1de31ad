// The segments of a fork: where they stand, and which of them belong to it.
ghost use Rattle.std.specs.Prelude.{◌≡◌, ℕ, List, Option, true, length, None, IfOk, IfErr};
ghost use Rattle.std.specs.Option.{option_map};
ghost use Rattle.fs_model.specs.declared.error.FsError.TheVariants.{OutOfMemory};
ghost use Rattle.fs_model.specs.WellFormed.{WellFormed};
ghost use Rattle.fs_model.specs.Trail.{DecidedBy, error_of, unless_lack};
ghost use Rattle.fs_model.specs.Observed.{OnlyReads};
ghost use Rattle.relation_files.specs.Carried.{belongs};
ghost use Rattle.plan_build.specs.Planned.{file_at, files_in, size_of};

use fs_model::{Fs, FsError, Kind, Path, Stat};
use relation_files::{Fork, Relation, file_name};
use relation_map::MapEntry;
use std::alloc::Global;
use tree_checks::stat_at;

/// The path of a segment of a fork in a directory.
#[tactic(auto, unfolding(crate::specs::Planned::file_at))]
pub(crate) fn file_at(
    alloc: Global,
    dir: &Path,
    file: u32,
    fork: Fork,
    segment: u32,
) -> Result<Path, FsError>
    ensures path { IfOk result (λ path. path ≡ file_at dir.now file fork segment) }
    ensures lack { IfErr result (λ error. error ≡ OutOfMemory) }
{
    let relation = Relation {
        database: 0,
        tablespace: 0,
        file,
    };
    let Ok(name) = file_name(alloc, relation, fork, segment) else {
        return Err(FsError::OutOfMemory);
    };
    match dir.join(&[&name]) {
        Ok(path) => Ok(path),
        Err(_) => Err(FsError::OutOfMemory),
    }
}

// The size of a file. What is no file has none.
fn size_of(stat: Option<Stat>) -> Option<u64>
    ensures { result ≡ size_of stat }
{
    match stat {
        Some(stat) if stat.kind == Kind::File => Some(stat.size),
        _ => None,
    }
}

// Whether a segment of this size belongs to its fork.
fn belongs(fork: Fork, segment: u32, size: Option<u64>) -> bool
    ensures { (file : Option (List ℕ)) → size ≡ option_map length file → result ≡ belongs fork segment file }
{
    match (fork, size) {
        (_, None) => false,
        (Fork::Main, Some(size)) => segment == 0 || size > 0,
        (_, Some(size)) => size > 0,
    }
}

/// Whether a segment of a fork is carried, where those before it are. What is no file counts as missing.
pub(crate) fn is_carried<F: Fs>(
    alloc: Global,
    fs: &mut F,
    entry: &MapEntry,
    fork: Fork,
    segment: u32,
) -> Result<bool, FsError>
    ensures reads { OnlyReads (record { told = F.told fs.old; firm = F.firm fs.old; depth = F.depth fs.old; trail = F.trail fs.old; counts = F.counts fs.old })
        (record { told = F.told fs.new; firm = F.firm fs.new; depth = F.depth fs.new; trail = F.trail fs.new; counts = F.counts fs.new }) (unless_lack (error_of result)) }
    ensures carried { F.told fs.old ≡ true → WellFormed (F.trail fs.old).present → IfOk result (λ carried. carried ≡ belongs fork segment (files_in (F.trail fs.old).present entry.now.from_dir entry.now.file fork segment)) }
    ensures unrefused { DecidedBy None result }
{
    let path = match file_at(alloc, &entry.from_dir, entry.file, fork, segment) {
        Ok(path) => path,
        Err(_) => return Err(FsError::OutOfMemory),
    };
    match stat_at(fs, &path) {
        Ok(stat) => Ok(belongs(fork, segment, size_of(stat))),
        Err(error) => Err(error),
    }
}
