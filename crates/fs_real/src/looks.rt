// The calls that change nothing on the disk.
ghost use Rattle.std.specs.Prelude.{◌≡◌, ◌↔◌, ◌≤◌, ◌<◌, ◌-◌, ◌^◌, ℕ, List, Contains, length, IfOk, OnOk, OnErr};
ghost use Rattle.std.specs.Fs.{metadata_len};
ghost use Rattle.std.specs.List.Sorted.{IsStrictlySortedBy};
ghost use Rattle.std.specs.Ordering.{nat_cmp};
ghost use Rattle.std.specs.Cmp.Lexicographic.{slice_cmp};
ghost use Rattle.fs_real.specs.Kinds.{size_as};

use crate::disk::{Disk, kind_of};
use crate::error::{named, path_named};
use crate::kept::{Kept, take_at};
use crate::numbers::{Numbers, identity};
use crate::place::Place;
use fs_model::{FsError, Identity, Kind, Name, Path, Stat};
use std::alloc::Global;
use std::fs;
use std::fs::Metadata;
use std::os::unix::fs::MetadataExt;
use std::rt::Files;

// Paths with fewer names can be listed.
const DEPTH: usize = 4096;

fn size_of(file: &Metadata) -> Result<u64, FsError>
    ensures size { IfOk result (λ size. size ≡ metadata_len file.now) }
    ensures bound { IfOk result (λ size. size ≤ 2 ^ 63 - 1) }
    ensures large { OnErr result (2 ^ 63 - 1 < metadata_len file.now) }
{
    let size = file.len();
    if size > i64::MAX as u64 {
        return Err(FsError::Failed);
    }
    Ok(size)
}

// Puts names in ascending order, each once.
fn sort(names: &mut Vec<Name>)
    ensures ascending { IsStrictlySortedBy (slice_cmp nat_cmp) names.new.items }
    ensures same { (name : List ℕ) → Contains names.new.items name ↔ Contains names.old.items name }
{
    names.sort_unstable();
    names.dedup();
}

fn name_of(alloc: Global, text: &str) -> Result<Name, FsError> {
    Name::new(alloc, text).map_err(path_named)
}

impl<'a, R: Files> Disk<'a, R> {
    // The number of the inode and the size of a file; nothing of what is none.
    fn measure(numbers: &mut Numbers, found: &Metadata, kind: Kind) -> Result<(u64, u64), FsError>
        ensures size { IfOk result (λ pair. pair.1 ≡ size_as kind found.now) }
        ensures bound { IfOk result (λ pair. pair.1 ≤ 2 ^ 63 - 1) }
    {
        match kind {
            Kind::File => Ok((numbers.number(identity(found))?, size_of(found)?)),
            _ => Ok((0, 0)),
        }
    }

    // The device that stands in the identity of what was found: a directory's own, else that of the directory it is in.
    fn device_of(&mut self, place: &Place, found: &Metadata, kind: Kind) -> Result<u64, FsError> {
        match kind {
            Kind::Dir => {
                self.passed.keep(place.text(), found.dev())?;
                Ok(found.dev())
            }
            _ => self.device(place),
        }
    }

    pub(crate) fn stat(&mut self, numbers: &mut Numbers, at: &Path) -> Result<Stat, FsError>
        ensures { IfOk result (λ stat. stat.size ≤ 2 ^ 63 - 1) }
    {
        let place = self.place(at)?;
        let found = self.look(&place)?;
        let kind = kind_of(&found)?;
        let (inode, size) = Self::measure(numbers, &found, kind)?;
        let device = self.device_of(&place, &found, kind)?;
        Ok(Stat {
            kind,
            size,
            identity: Identity { device, inode },
        })
    }

    fn names_in(&self, alloc: Global, dir: &str) -> Result<Vec<Name>, FsError> {
        let mut names = Vec::new(alloc);
        for entry in fs::read_dir(&(self.rt, alloc), dir).map_err(named)? {
            let entry = entry.map_err(named)?;
            names.push(name_of(alloc, entry.file_name())?)?;
        }
        Ok(names)
    }

    pub(crate) fn list(&mut self, alloc: Global, at: &Path) -> Result<Vec<Name>, FsError>
        ensures shallow { OnOk result (length at.now < 4096) }
        ensures ascending { IfOk result (λ names. IsStrictlySortedBy (slice_cmp nat_cmp) names.items) }
    {
        if at.names().len() >= DEPTH {
            return Err(FsError::Failed);
        }
        let place = self.place(at)?;
        self.expect_kind(&place, Kind::Dir, FsError::NotDir)?;
        let mut names = self.names_in(alloc, place.text())?;
        sort(&mut names);
        Ok(names)
    }

    // The file to read: the one that is kept, or else it is opened.
    fn reader(&mut self, place: Place) -> Result<Kept<R::File>, FsError> {
        if let Some(kept) = take_at(&mut self.reading, place.text()) {
            return Ok(kept);
        }
        self.expect_kind(&place, Kind::File, FsError::WrongKind)?;
        let file = fs::open(self.rt, place.text()).map_err(named)?;
        Ok(Kept::new(place, file))
    }

    // A file whose reading failed is not kept.
    pub(crate) fn read_at(
        &mut self,
        at: &Path,
        from: u64,
        into: &mut [u8],
    ) -> Result<usize, FsError>
        ensures { IfOk result (λ count. count ≤ length into.old) }
    {
        let place = self.place(at)?;
        let mut kept = self.reader(place)?;
        let count = kept.read(from, into)?;
        self.reading = Some(kept);
        Ok(count)
    }

    pub(crate) fn read_link(&mut self, alloc: Global, at: &Path) -> Result<Path, FsError> {
        let place = self.place(at)?;
        self.expect_kind(&place, Kind::Sym, FsError::WrongKind)?;
        let target = fs::read_link(&(self.rt, alloc), place.text()).map_err(named)?;
        Path::parse(alloc, target.as_path().as_str()).map_err(path_named)
    }
}
