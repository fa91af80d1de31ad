// What the operating system is asked, and what it answers.
use std::alloc::Global;
use std::cell::Cell;
use std::io;
use std::io::ErrorKind;

/// What the operating system answers.
#[derive(Clone, Copy)]
pub enum Reply {
    Done,
    /// What was looked at is a directory.
    Dir,
    /// It is a file of so many bytes.
    File(u64),
    /// It is a symbolic link.
    Link,
    /// These bytes were read.
    Gives(&'static str),
    /// So many bytes were written.
    Takes(usize),
    Fails(ErrorKind),
}

/// What is asked, in words with the path last, and what is answered.
pub type Step = (&'static str, Reply);

/// The steps in order. From the first call on that isn't the next step, each call fails, and the end isn't reached.
#[derive(Drop)]
pub struct Script {
    pub alloc: Global,
    steps: &'static [Step],
    next: Cell<usize>,
}

impl Script {
    pub fn new(alloc: Global, steps: &'static [Step]) -> Script {
        Script {
            alloc,
            steps,
            next: Cell::new(0),
        }
    }

    /// How many steps were made, if no other call was.
    pub fn made(&self) -> usize {
        self.next.get()
    }

    // The next step, if it asks for this. A step that isn't there is never reached again.
    fn step(&self, asks: &str) -> Option<&'static Step> {
        let next = self.next.replace(usize::MAX);
        let step = self.steps.get(next)?;
        if step.0 != asks {
            return None;
        }
        self.next.set(next.saturating_add(1));
        Some(step)
    }

    /// The answer to a question.
    pub fn answer(&self, asks: &str) -> io::Result<Reply> {
        match self.step(asks) {
            Some((_, Reply::Fails(kind))) => Err(io::Error::from(*kind)),
            Some((_, reply)) => Ok(*reply),
            None => Err(io::Error::from(ErrorKind::Unsupported)),
        }
    }

    /// The answer to a question about a path.
    pub fn told(&self, call: &str, path: &str) -> io::Result<Reply> {
        self.answer(format!(in self.alloc; "{call} {path}")?.as_str())
    }

    /// A call of a path that answers nothing.
    pub fn done(&self, call: &str, path: &str) -> io::Result<()> {
        self.told(call, path)?;
        Ok(())
    }

    /// The path that was asked for last, as it stands in the script.
    pub fn path(&self) -> &'static str {
        let last = self.next.get().saturating_sub(1);
        match self.steps.get(last) {
            Some(step) => step.0.rsplit_once(' ').map_or("", |parts| parts.1),
            None => "",
        }
    }
}
