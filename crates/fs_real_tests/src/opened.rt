// An open file of a disk that answers by a script.
ghost use Rattle.std.specs.Prelude.{◌≤◌, length};

use crate::script::{Reply, Script};
use std::fs::{Metadata, OpenFile};
use std::io;
use std::io::{ErrorKind, Read, Seek, SeekFrom, Write};

/// An open file, or a directory that is read as its names. That it is closed is a step of the script.
pub struct Opened<'s> {
    pub script: &'s Script,
    pub path: &'static str,
}

impl Drop for Opened<'_> {
    fn drop(self) {
        let Opened { script, path } = self;
        let _ = script.told("close", path);
    }
}

/// What is looked at.
pub fn found(reply: Reply) -> io::Result<Metadata> {
    match reply {
        Reply::Dir => Ok(Metadata::of_dir()),
        Reply::File(size) => Ok(Metadata::of_file(size)),
        Reply::Link => Ok(Metadata::of_symlink(1)),
        _ => Err(io::Error::from(ErrorKind::Unsupported)),
    }
}

// Copies as many bytes as there are and fit.
fn fill(buf: &mut [u8], bytes: &[u8]) -> usize
    ensures { result ≤ length buf.old }
{
    let count = bytes.len().min(buf.len());
    buf[..count].copy_from_slice(&bytes[..count]);
    count
}

impl Read for Opened<'_> {
    fn read(&mut self, buf: &mut [u8]) -> io::Result<usize> {
        let len = buf.len();
        let asks = format!(in self.script.alloc; "read {len} from {}", self.path)?;
        match self.script.answer(asks.as_str())? {
            Reply::Gives(text) => Ok(fill(buf, text.as_bytes())),
            _ => Err(io::Error::from(ErrorKind::Unsupported)),
        }
    }
}

impl Write for Opened<'_> {
    fn write(&mut self, buf: &[u8]) -> io::Result<usize> {
        let Ok(text) = std::str::from_utf8(buf) else {
            return Err(io::Error::from(ErrorKind::InvalidData));
        };
        let asks = format!(in self.script.alloc; "write {text} to {}", self.path)?;
        match self.script.answer(asks.as_str())? {
            Reply::Takes(count) => Ok(count.min(buf.len())),
            _ => Err(io::Error::from(ErrorKind::Unsupported)),
        }
    }

    fn flush(&mut self) -> io::Result<()> {
        self.script.done("flush", self.path)
    }
}

impl Seek for Opened<'_> {
    fn seek(&mut self, to: SeekFrom) -> io::Result<u64> {
        let SeekFrom::Start(place) = to else {
            return Err(io::Error::from(ErrorKind::Unsupported));
        };
        let asks = format!(in self.script.alloc; "go to {place} in {}", self.path)?;
        self.script.answer(asks.as_str())?;
        Ok(place)
    }
}

impl OpenFile for Opened<'_> {
    fn metadata(&self) -> io::Result<Metadata> {
        found(self.script.told("measure", self.path)?)
    }

    fn set_len(&self, size: u64) -> io::Result<()> {
        let asks = format!(in self.script.alloc; "make {size} long {}", self.path)?;
        self.script.answer(asks.as_str())?;
        Ok(())
    }

    fn sync_all(&self) -> io::Result<()> {
        self.script.done("sync", self.path)
    }

    fn sync_data(&self) -> io::Result<()> {
        self.script.done("sync data of", self.path)
    }
}

/// The names of a directory, each ended by a zero byte.
#[derive(Drop)]
pub struct Names<'s> {
    pub script: &'s Script,
    pub path: &'static str,
}

impl Read for Names<'_> {
    fn read(&mut self, buf: &mut [u8]) -> io::Result<usize> {
        match self.script.told("names of", self.path)? {
            Reply::Gives(text) => Ok(fill(buf, text.as_bytes())),
            _ => Err(io::Error::from(ErrorKind::Unsupported)),
        }
    }
}
