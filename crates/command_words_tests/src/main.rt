//! Answers each line of its input, the words of a command line with `|` between them, by the command that they are read as:
//! a table of cases, whose answers stand in `stdout`.
#![tactic(auto)]

use command_words::{Command, WordsError, read_words};
use control_file::{Job, Mode};
use fs_model::Path;
use std::alloc::{AllocError, Global};
use std::io;

// The words of a line; an empty line has none.
fn words_of(alloc: Global, line: &str) -> Result<Vec<String>, AllocError> {
    let mut words = Vec::new(alloc);
    if line.is_empty() {
        return Ok(words);
    }
    for word in line.split('|') {
        words.push(String::from_str(alloc, word)?)?;
    }
    Ok(words)
}

fn add(said: &mut String, word: &str, path: &Path) -> Result<(), AllocError> {
    said.push_str(word)?;
    let text = path.text()?;
    said.push_str(text.as_str())
}

fn add_mode(said: &mut String, mode: Mode) -> Result<(), AllocError> {
    match mode {
        Mode::Copy => said.push_str(" copied"),
        Mode::Link => said.push_str(" linked"),
    }
}

fn add_job(said: &mut String, job: &Job, check: bool) -> Result<(), AllocError> {
    add(said, "upgrade ", &job.old)?;
    add(said, " to ", &job.new)?;
    add_mode(said, job.mode)?;
    if check {
        said.push_str(", checked only")?;
    }
    Ok(())
}

fn add_command(said: &mut String, command: &Command) -> Result<(), AllocError> {
    match command {
        Command::Upgrade(job, check) => add_job(said, job, *check),
        Command::Report(old, new) => {
            add(said, "report ", old)?;
            add(said, " to ", new)
        }
        Command::Selftest(tables, mode) => {
            said.push_str("selftest of ")?;
            let number = tables.to_string(*said.allocator())?;
            said.push_str(number.as_str())?;
            add_mode(said, *mode)
        }
    }
}

// What the words are read as, as text.
fn answer(alloc: Global, words: &[String]) -> Result<String, AllocError> {
    let mut said = String::new(alloc);
    match read_words(alloc, words) {
        Ok(command) => add_command(&mut said, &command)?,
        Err(WordsError::Usage(position)) => said = format!(in alloc; "usage {position}")?,
        Err(WordsError::OutOfMemory) => said.push_str("out of memory")?,
    }
    Ok(said)
}

fn main(rt: HostRuntime) -> io::Result<()> {
    for line in rt.lines(rt.alloc()) {
        let line = line?;
        let words = words_of(rt.alloc(), line.as_str())?;
        let said = answer(rt.alloc(), &words)?;
        println!(rt; "{line} -> {said}")?;
    }
    Ok(())
}
