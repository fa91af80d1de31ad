//! Loads a catalog text from standard input and prints its canonical text; with the word `--quiet` it prints nothing. Where
//! the text is refused it prints the line and the cause, and ends with status 1.
#![tactic(auto)]

use catalog::Catalog;
use dump_text::{TextError, load, print};
use std::alloc::Global;
use std::env;
use std::io::{self, Write};
use std::process::ExitCode;

// The text goes as soon as its catalog stands.
fn catalog(alloc: Global, text: String) -> Result<Catalog, TextError> {
    load(alloc, text.as_bytes())
}

fn canonical(alloc: Global, text: String) -> Result<Vec<u8>, TextError> {
    print(alloc, &catalog(alloc, text)?)
}

fn is_quiet(rt: &HostRuntime) -> io::Result<bool> {
    Ok(env::args(rt)?.nth(1).is_some())
}

fn main(rt: HostRuntime) -> io::Result<ExitCode> {
    let text = io::read_to_string(rt.alloc(), rt.reader())?;
    let quiet = is_quiet(&rt)?;
    match canonical(rt.alloc(), text) {
        Ok(_) if quiet => Ok(ExitCode::SUCCESS),
        Ok(canonical) => {
            io::writer(&rt).write_all(&canonical)?;
            Ok(ExitCode::SUCCESS)
        }
        Err(error) => {
            println!(rt; "{error}")?;
            Ok(ExitCode::FAILURE)
        }
    }
}
