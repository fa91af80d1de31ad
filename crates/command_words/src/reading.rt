ghost use Rattle.std.specs.Prelude.{◌≡◌, ◌≢◌, ℕ, Err, IfOk, bytes_eq, codes, slice_get, Some};
ghost use Rattle.command_words.specs.Words.{Accepts, AsksForDirectory, IsFaultAt, texts};

use crate::choosing::take_word;
use crate::chosen::Reader;
use crate::command::{Command, WordsError};
use crate::selftest::{is_selftest, read_selftest};
use std::alloc::Global;

// Reads the words of an upgrade or a report.
fn read_choices(alloc: Global, words: &[String]) -> Result<Command, WordsError>
    requires { (word : _) → slice_get (texts words.now) 0 ≡ Some word → word ≢ codes "--selftest" }
    ensures accepted { IfOk result (λ command. Accepts (texts words.now) command) }
    ensures usage { (position : ℕ) → result ≡ Err (WordsError.Usage position) → IsFaultAt (texts words.now) position }
    ensures lacking { result ≡ Err WordsError.OutOfMemory → AsksForDirectory (texts words.now) }
{
    let mut reader = Reader::start();
    for (position, word) in words.iter().enumerate() {
        match take_word(alloc, reader, word)? {
            Some(next) => reader = next,
            None => return Err(WordsError::Usage(position as u64)),
        }
    }
    if reader.awaits.is_some() {
        return Err(WordsError::Usage(words.len() as u64));
    }
    match reader.chosen.command() {
        Some(command) => Ok(command),
        None => Err(WordsError::Usage(words.len() as u64)),
    }
}

/// Reads the words of a command line, without the program's name: `-d OLD` and `-D NEW`, also as `--old-datadir=OLD` and
/// `--new-datadir=NEW`, with `--check` or `-c`, and one of `--copy`, `--link` and `-k`, or with `--report` alone, in any order
/// and each at most once; or `--selftest N`, with `--link` behind it or not. OLD and NEW have at most 1,024 bytes and are
/// absolute; N is at most 200. Memory is taken for such a directory alone. (The manual's reference page on `pg_upgrade`; the report and the self-test are this tool's own.)
pub fn read_words(alloc: Global, words: &[String]) -> Result<Command, WordsError>
    ensures accepted { IfOk result (λ command. Accepts (texts words.now) command) }
    ensures usage { (position : ℕ) → result ≡ Err (WordsError.Usage position) → IsFaultAt (texts words.now) position }
    ensures lacking { result ≡ Err WordsError.OutOfMemory → AsksForDirectory (texts words.now) }
{
    if is_selftest(words) {
        return read_selftest(words);
    }
    read_choices(alloc, words)
}
