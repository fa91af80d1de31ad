// The calls that change the disk. What memory they want they take before they change anything.
use crate::disk::Disk;
use crate::error::named;
use crate::kept::{Kept, let_go, take_at};
use crate::numbers::{Numbers, identity};
use crate::place::{Place, crosses};
use fs_model::{FsError, Kind, Path};
use std::fs;
use std::fs::{DirBuilder, OpenFile, OpenOptions};
use std::os::unix::fs::{DirBuilderExt, OpenOptionsExt, symlink};
use std::rt::Files;

// Rights of what is made: the owner's alone, as PostgreSQL makes its own files (`src/include/common/file_perm.h`).
const FILE_MODE: u32 = 0o600;

const DIR_MODE: u32 = 0o700;

impl<'a, R: Files> Disk<'a, R> {
    pub(crate) fn create(&mut self, numbers: &mut Numbers, at: &Path) -> Result<(), FsError> {
        let place = self.place(at)?.not_root()?;
        let file = OpenOptions::new()
            .write(true)
            .create_new(true)
            .mode(FILE_MODE)
            .open(self.rt, place.text())
            .map_err(named)?;
        let_go(&mut self.reading, place.text());
        let made = file.metadata().map_err(|_| FsError::Failed)?;
        numbers.forget(identity(&made));
        self.writing = Some(Kept::new(place, file));
        Ok(())
    }

    // The file to write to: the one that is kept, or else it is opened.
    fn writer(&mut self, place: Place) -> Result<Kept<R::File>, FsError> {
        if let Some(kept) = take_at(&mut self.writing, place.text()) {
            return Ok(kept);
        }
        self.expect_kind(&place, Kind::File, FsError::WrongKind)?;
        let file = OpenOptions::new()
            .write(true)
            .open(self.rt, place.text())
            .map_err(named)?;
        Ok(Kept::new(place, file))
    }

    // A file whose writing failed is not kept.
    pub(crate) fn write_at(&mut self, at: &Path, from: u64, bytes: &[u8]) -> Result<(), FsError> {
        let place = self.place(at)?;
        let mut kept = self.writer(place)?;
        kept.write(from, bytes)?;
        self.writing = Some(kept);
        Ok(())
    }

    pub(crate) fn make_dir(&mut self, at: &Path) -> Result<(), FsError> {
        let place = self.place(at)?.not_root()?;
        DirBuilder::new()
            .mode(DIR_MODE)
            .create(self.rt, place.text())
            .map_err(named)
    }

    pub(crate) fn make_symlink(&mut self, at: &Path, target: &Path) -> Result<(), FsError> {
        let place = self.place(at)?.not_root()?;
        let target = target.text()?;
        symlink(self.rt, target.as_str(), place.text()).map_err(named)
    }

    fn places(&mut self, from: &Path, to: &Path) -> Result<(Place, Place), FsError> {
        let source = self.place(from)?;
        let target = self.place(to)?;
        Ok((source, target))
    }

    // `Exists` where something stands.
    fn expect_nothing(&self, place: &Place) -> Result<(), FsError> {
        match self.look(place) {
            Ok(_) => Err(FsError::Exists),
            Err(FsError::NotFound) => Ok(()),
            Err(error) => Err(error),
        }
    }

    // The system itself says that something stands at the new name, and says so before it says that a link would cross
    // devices.
    pub(crate) fn link(&mut self, from: &Path, to: &Path) -> Result<(), FsError> {
        let (source, target) = self.places(from, to)?;
        self.expect_kind(&source, Kind::File, FsError::WrongKind)?;
        fs::hard_link(self.rt, source.text(), target.text()).map_err(named)
    }

    // Lets go of a name that may lead elsewhere soon. Ways stay: what goes is no directory.
    fn let_go(&mut self, place: &Place) {
        let_go(&mut self.reading, place.text());
        let_go(&mut self.writing, place.text());
    }

    pub(crate) fn rename(&mut self, from: &Path, to: &Path) -> Result<(), FsError> {
        let (source, target) = self.places(from, to)?;
        if crosses(from, to) {
            return Err(FsError::CrossDir);
        }
        self.expect_kind(&source, Kind::File, FsError::WrongKind)?;
        self.expect_nothing(&target)?;
        self.let_go(&source);
        fs::rename(self.rt, source.text(), target.text()).map_err(named)
    }

    pub(crate) fn unlink(&mut self, at: &Path) -> Result<(), FsError> {
        let place = self.place(at)?;
        if self.kind_at(&place)? == Kind::Dir {
            return Err(FsError::WrongKind);
        }
        self.let_go(&place);
        fs::remove_file(self.rt, place.text()).map_err(named)
    }

    pub(crate) fn remove_dir(&mut self, at: &Path) -> Result<(), FsError> {
        let place = self.place(at)?;
        if place.is_root() {
            return Err(FsError::NotEmpty);
        }
        self.passed.forget();
        fs::remove_dir(self.rt, place.text()).map_err(named)
    }

    // Puts on the disk what stands at a place.
    fn sync(&self, place: &Place) -> Result<(), FsError> {
        let open = fs::open(self.rt, place.text()).map_err(named)?;
        open.sync_all().map_err(|_| FsError::Failed)
    }

    // By the open file that wrote it, where that is kept still. After a failure it isn't kept.
    pub(crate) fn sync_file(&mut self, at: &Path) -> Result<(), FsError> {
        let place = self.place(at)?;
        if let Some(kept) = take_at(&mut self.writing, place.text()) {
            kept.sync()?;
            self.writing = Some(kept);
            return Ok(());
        }
        self.expect_kind(&place, Kind::File, FsError::WrongKind)?;
        self.sync(&place)
    }

    pub(crate) fn sync_dir(&mut self, at: &Path) -> Result<(), FsError> {
        let place = self.place(at)?;
        self.expect_kind(&place, Kind::Dir, FsError::NotDir)?;
        self.sync(&place)
    }
}
