// Looking at a path. Where nothing stands there, or something else, the look shows nothing.
ghost use Rattle.std.specs.Prelude.{◌≡◌, true, IfOk};
ghost use Rattle.std.specs.Option.{option_map};
ghost use Rattle.std.specs.FinMap.{get};
ghost use Rattle.crash_safety.specs.Places.{target_of};
ghost use Rattle.fs_model.specs.Reading.{stat_of};
ghost use Rattle.fs_model.specs.Trail.{error_of, unless_lack};
ghost use Rattle.fs_model.specs.WellFormed.{WellFormed};
ghost use Rattle.fs_model.specs.Observed.{OnlyReads};
ghost use Rattle.tree_checks.specs.Looks.{seen_as, kind_in, kind_at, names_at, is_dir, is_file, IsNoRefusal};

use fs_model::{Fs, FsError, Kind, Name, Path, Stat};
use std::alloc::Global;

// What a call showed: nothing where it was refused.
fn seen<T>(answer: Result<T, FsError>) -> Result<Option<T>, FsError>
    ensures { result ≡ seen_as answer }
{
    match answer {
        Ok(value) => Ok(Some(value)),
        Err(FsError::OutOfMemory) => Err(FsError::OutOfMemory),
        Err(FsError::Failed) => Err(FsError::Failed),
        Err(_) => Ok(None),
    }
}

fn kind_in(stat: Option<Stat>) -> Option<Kind>
    ensures { result ≡ kind_in stat }
{
    stat.map(|stat| stat.kind)
}

pub fn is_dir(kind: Option<Kind>) -> bool
    ensures { result ≡ is_dir kind }
{
    match kind {
        Some(Kind::Dir) => true,
        Some(Kind::File) => false,
        Some(Kind::Sym) => false,
        None => false,
    }
}

pub fn is_file(kind: Option<Kind>) -> bool
    ensures { result ≡ is_file kind }
{
    match kind {
        Some(Kind::File) => true,
        Some(Kind::Dir) => false,
        Some(Kind::Sym) => false,
        None => false,
    }
}

/// What `stat` says of a path, if anything stands there.
pub fn stat_at<F: Fs>(fs: &mut F, at: &Path) -> Result<Option<Stat>, FsError>
    ensures reads { OnlyReads (record { told = F.told fs.old; firm = F.firm fs.old; depth = F.depth fs.old; trail = F.trail fs.old; counts = F.counts fs.old })
        (record { told = F.told fs.new; firm = F.firm fs.new; depth = F.depth fs.new; trail = F.trail fs.new; counts = F.counts fs.new }) (unless_lack (error_of result)) }
    ensures never_refused { IsNoRefusal result }
    ensures shows { F.told fs.old ≡ true → WellFormed (F.trail fs.old).present → IfOk result (λ stat. stat ≡ stat_of (F.trail fs.old).present at.now) }
{
    let answer = fs.stat(at);
    seen(answer)
}

/// The kind of what stands at a path, if anything does.
pub fn kind_at<F: Fs>(fs: &mut F, at: &Path) -> Result<Option<Kind>, FsError>
    ensures reads { OnlyReads (record { told = F.told fs.old; firm = F.firm fs.old; depth = F.depth fs.old; trail = F.trail fs.old; counts = F.counts fs.old })
        (record { told = F.told fs.new; firm = F.firm fs.new; depth = F.depth fs.new; trail = F.trail fs.new; counts = F.counts fs.new }) (unless_lack (error_of result)) }
    ensures never_refused { IsNoRefusal result }
    ensures shows { F.told fs.old ≡ true → WellFormed (F.trail fs.old).present → IfOk result (λ kind. kind ≡ kind_at (F.trail fs.old).present.names at.now) }
{
    match stat_at(fs, at) {
        Ok(stat) => Ok(kind_in(stat)),
        Err(error) => Err(error),
    }
}

/// The names in a directory, in ascending order, if a directory stands there.
pub fn names_at<F: Fs>(alloc: Global, fs: &mut F, at: &Path) -> Result<Option<Vec<Name>>, FsError>
    ensures reads { OnlyReads (record { told = F.told fs.old; firm = F.firm fs.old; depth = F.depth fs.old; trail = F.trail fs.old; counts = F.counts fs.old })
        (record { told = F.told fs.new; firm = F.firm fs.new; depth = F.depth fs.new; trail = F.trail fs.new; counts = F.counts fs.new }) (unless_lack (error_of result)) }
    ensures never_refused { IsNoRefusal result }
    ensures shows { F.told fs.old ≡ true → WellFormed (F.trail fs.old).present → IfOk result (λ names. option_map (λ names. names.items) names ≡ names_at (F.trail fs.old).present.names at.now) }
{
    let answer = fs.list(alloc, at);
    seen(answer)
}

/// The target of a symbolic link, if one stands there.
pub fn target_at<F: Fs>(alloc: Global, fs: &mut F, at: &Path) -> Result<Option<Path>, FsError>
    ensures reads { OnlyReads (record { told = F.told fs.old; firm = F.firm fs.old; depth = F.depth fs.old; trail = F.trail fs.old; counts = F.counts fs.old })
        (record { told = F.told fs.new; firm = F.firm fs.new; depth = F.depth fs.new; trail = F.trail fs.new; counts = F.counts fs.new }) (unless_lack (error_of result)) }
    ensures never_refused { IsNoRefusal result }
    ensures shows { F.told fs.old ≡ true → WellFormed (F.trail fs.old).present → IfOk result (λ target. target ≡ target_of (get (F.trail fs.old).present.names at.now)) }
{
    let answer = fs.read_link(alloc, at);
    seen(answer)
}
