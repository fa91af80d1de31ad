// What stands where on the disk, as the runtime has it.
ghost use Rattle.std.specs.Prelude.{◌≡◌, IfOk, IfErr, string_bytes};
ghost use Rattle.std.specs.Fs.{file_type};
ghost use Rattle.fs_model.specs.PathText.{joined};
ghost use Rattle.fs_real.specs.Kinds.{IsOfKind, IsUnknown};

use crate::error::named;
use crate::kept::Kept;
use crate::passed::Passed;
use crate::place::Place;
use fs_model::{FsError, Kind, Path};
use std::alloc::Global;
use std::fs;
use std::fs::Metadata;
use std::os::unix::fs::MetadataExt;
use std::rt::Files;

/// The disk, as the runtime has it. Its calls count nothing. It remembers the directories that it passed, and keeps
/// the file of the last reading and the file of the last writing open.
#[derive(Drop)]
pub struct Disk<'a, R: Files> {
    pub(crate) rt: &'a R,
    pub(crate) alloc: Global,
    pub(crate) passed: Passed,
    pub(crate) reading: Option<Kept<R::File>>,
    pub(crate) writing: Option<Kept<R::File>>,
}

// `Failed` for what the product doesn't know: sockets, devices and the like. None of them is ever opened.
pub(crate) fn kind_of(found: &Metadata) -> Result<Kind, FsError>
    ensures kind { IfOk result (λ kind. IsOfKind kind (file_type found.now)) }
    ensures unknown { IfErr result (λ error. (error ≡ FsError.Failed) × IsUnknown (file_type found.now)) }
{
    if found.is_dir() {
        Ok(Kind::Dir)
    } else if found.is_file() {
        Ok(Kind::File)
    } else if found.is_symlink() {
        Ok(Kind::Sym)
    } else {
        Err(FsError::Failed)
    }
}

impl<'a, R: Files> Disk<'a, R> {
    // Takes no memory and makes no call.
    pub(crate) fn new(rt: &'a R, alloc: Global) -> Disk<'a, R> {
        Disk {
            rt,
            alloc,
            passed: Passed::new(alloc),
            reading: None,
            writing: None,
        }
    }

    // The device of a directory on the way.
    fn pass(&mut self, text: &str) -> Result<u64, FsError> {
        if let Some(device) = self.passed.device(text) {
            return Ok(device);
        }
        let found = fs::symlink_metadata(self.rt, text).map_err(named)?;
        if !found.is_dir() {
            return Err(FsError::NotDir);
        }
        self.passed.keep(text, found.dev())?;
        Ok(found.dev())
    }

    // Tests the way of a path from the root down.
    pub(crate) fn place(&mut self, at: &Path) -> Result<Place, FsError>
        ensures { IfOk result (λ place. string_bytes place.text ≡ joined at.now) }
    {
        let mut place = Place::root(self.alloc, at)?;
        for (above, name) in at.names().iter().enumerate() {
            if above > 0 {
                place.device = Some(self.pass(place.text())?);
            }
            place.enter(name)?;
        }
        Ok(place)
    }

    // What stands at a place. A symbolic link is not followed.
    pub(crate) fn look(&self, place: &Place) -> Result<Metadata, FsError> {
        fs::symlink_metadata(self.rt, place.text()).map_err(named)
    }

    pub(crate) fn kind_at(&self, place: &Place) -> Result<Kind, FsError> {
        kind_of(&self.look(place)?)
    }

    // Nothing where a place has this kind, or else the error.
    pub(crate) fn expect_kind(
        &self,
        place: &Place,
        kind: Kind,
        otherwise: FsError,
    ) -> Result<(), FsError> {
        if self.kind_at(place)? != kind {
            return Err(otherwise);
        }
        Ok(())
    }

    // The device of the directory that a place is in.
    pub(crate) fn device(&mut self, place: &Place) -> Result<u64, FsError> {
        match place.device {
            Some(device) => Ok(device),
            None => self.pass("/"),
        }
    }
}
