// A disk that answers by a script, as a runtime.
use crate::opened::{Names, Opened, found};
use crate::script::{Reply, Script};
use std::alloc::Allocator;
use std::fs::{Metadata, OpenOptions};
use std::io;
use std::io::ErrorKind;
use std::path::PathBuf;
use std::rt::Files;

/// Each call of it is a step of the script.
#[derive(Drop)]
pub struct ScriptedDisk<'s> {
    pub script: &'s Script,
}

// How a file is opened, in words.
fn words(how: &OpenOptions) -> &'static str {
    if how.asks_truncate() || how.asks_append() || how.asks_create() {
        "open otherwise"
    } else if how.asks_create_new() {
        "make"
    } else if how.asks_write() {
        "open to write"
    } else {
        "open to read"
    }
}

impl<'s> Files for ScriptedDisk<'s> {
    type File = Opened<'s>;

    type Dir = Names<'s>;

    fn open_file(&self, how: &OpenOptions, path: &str) -> io::Result<Opened<'s>> {
        self.script.told(words(how), path)?;
        Ok(Opened {
            script: self.script,
            path: self.script.path(),
        })
    }

    fn open_dir(&self, path: &str) -> io::Result<Names<'s>> {
        self.script.told("open the directory", path)?;
        Ok(Names {
            script: self.script,
            path: self.script.path(),
        })
    }

    fn metadata(&self, path: &str) -> io::Result<Metadata> {
        found(self.script.told("look through", path)?)
    }

    fn symlink_metadata(&self, path: &str) -> io::Result<Metadata> {
        found(self.script.told("look at", path)?)
    }

    fn copy(&self, from: &str, to: &str) -> io::Result<u64> {
        self.script.done(from, to)?;
        Err(io::Error::from(ErrorKind::Unsupported))
    }

    fn rename(&self, from: &str, to: &str) -> io::Result<()> {
        let asks = format!(in self.script.alloc; "rename {from} to {to}")?;
        self.script.answer(asks.as_str())?;
        Ok(())
    }

    fn remove_file(&self, path: &str) -> io::Result<()> {
        self.script.done("remove", path)
    }

    fn create_dir(&self, path: &str) -> io::Result<()> {
        self.script.done("make for all the directory", path)
    }

    fn create_dir_with_mode(&self, path: &str, mode: u32) -> io::Result<()> {
        let asks = format!(in self.script.alloc; "make with mode {mode:o} the directory {path}")?;
        self.script.answer(asks.as_str())?;
        Ok(())
    }

    fn remove_dir(&self, path: &str) -> io::Result<()> {
        self.script.done("remove the directory", path)
    }

    fn remove_dir_all<B: Allocator>(&self, _alloc: B, path: &str) -> io::Result<()> {
        self.script.done("remove all of", path)
    }

    fn read_link<B: Allocator>(&self, alloc: B, path: &str) -> io::Result<PathBuf<B>> {
        match self.script.told("read the link", path)? {
            Reply::Gives(text) => Ok(PathBuf::from_str(alloc, text)?),
            _ => Err(io::Error::from(ErrorKind::Unsupported)),
        }
    }

    fn hard_link(&self, original: &str, link: &str) -> io::Result<()> {
        let asks = format!(in self.script.alloc; "link {original} to {link}")?;
        self.script.answer(asks.as_str())?;
        Ok(())
    }

    fn symlink(&self, original: &str, link: &str) -> io::Result<()> {
        let asks = format!(in self.script.alloc; "point to {original} from {link}")?;
        self.script.answer(asks.as_str())?;
        Ok(())
    }
}
