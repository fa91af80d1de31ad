// A file that is kept open from one call to the next.
ghost use Rattle.std.specs.Prelude.{◌≡◌, ◌↔◌, ◌≤◌, ◌<◌, IsTrue, IfOk, OnOk, length, take, string_bytes};
ghost use Rattle.std.specs.Io.KnownBytes.{IsAtEnd};
ghost use Rattle.fs_real.specs.OpenFiles.{ReadsFrom, WritesFrom};

use crate::error::named;
use crate::place::Place;
use crate::streams::{go_to, read_up_to};
use fs_model::FsError;
use std::fs::OpenFile;
use std::io::{Read, Seek, Write};

/// An open file, and the text of the path that it was opened at.
#[derive(Drop)]
pub struct Kept<F> {
    text: String,
    file: F,
}

impl<F: OpenFile + Read + Seek + Write> Kept<F> {
    // Takes no memory.
    pub(crate) fn new(place: Place, file: F) -> Kept<F>
        ensures text { string_bytes result.text ≡ string_bytes place.text }
        ensures file { result.file ≡ file }
    {
        Kept {
            text: place.into_text(),
            file,
        }
    }

    pub(crate) fn is_at(&self, text: &str) -> bool
        ensures { IsTrue result ↔ (string_bytes self.now.text ≡ text.now) }
    {
        self.text.as_str() == text
    }

    // Reads from a place on until the slice is full or the file ends, and says how many bytes it read.
    pub(crate) fn read(&mut self, from: u64, into: &mut [u8]) -> Result<usize, FsError>
        ensures count { IfOk result (λ count. count ≤ length into.old) }
        ensures bytes { IfOk result (λ count. ReadsFrom F.stream_position F.remaining self.old.file self.new.file from (take count into.new)) }
        ensures end { IfOk result (λ count. count < length into.old → IsAtEnd (F.remaining self.new.file)) }
    {
        go_to(&mut self.file, from)?;
        read_up_to(&mut self.file, into)
    }

    // Writes at a place. A gap before the bytes becomes zeros, even if there are none. A write that fails is `Failed`
    // whatever the operating system says, since some of the bytes may stand by then.
    pub(crate) fn write(&mut self, from: u64, bytes: &[u8]) -> Result<(), FsError>
        ensures { OnOk result (0 < length bytes.now → WritesFrom F.stream_position F.contents self.old.file self.new.file from bytes.now) }
    {
        if bytes.is_empty() {
            return self.reach(from);
        }
        go_to(&mut self.file, from)?;
        self.file.write_all(bytes).map_err(|_| FsError::Failed)
    }

    // Adds zeros up to this size, if it is smaller.
    fn reach(&self, size: u64) -> Result<(), FsError> {
        if size == 0 {
            return Ok(());
        }
        let found = self.file.metadata().map_err(named)?;
        if found.len() >= size {
            return Ok(());
        }
        self.file.set_len(size).map_err(|_| FsError::Failed)
    }

    // Puts it on the disk. `Failed` whatever the operating system says, since some may be on the disk.
    pub(crate) fn sync(&self) -> Result<(), FsError> {
        self.file.sync_all().map_err(|_| FsError::Failed)
    }
}

// Whether the file that is kept, if any, is the one of this path.
fn keeps_at<F: OpenFile + Read + Seek + Write>(kept: &Option<Kept<F>>, text: &str) -> bool {
    match kept {
        Some(open) => open.is_at(text),
        None => false,
    }
}

// Lets go of the file that is kept, where its name goes.
pub(crate) fn let_go<F: OpenFile + Read + Seek + Write + Drop>(
    kept: &mut Option<Kept<F>>,
    text: &str,
) {
    if keeps_at(kept, text) {
        *kept = None;
    }
}

// The file that is kept, where it is the one of this path. Any other is let go.
pub(crate) fn take_at<F: OpenFile + Read + Seek + Write + Drop>(
    kept: &mut Option<Kept<F>>,
    text: &str,
) -> Option<Kept<F>> {
    if !keeps_at(kept, text) {
        *kept = None;
    }
    kept.take()
}
