// Single words.
ghost use Rattle.std.specs.Prelude.{◌≡◌, IfOk, IfErr, OnErr, bytes_eq};
ghost use Rattle.std.specs.Option.{option_copied};
ghost use Rattle.command_words.specs.Words.{MayName};
ghost use Rattle.command_words.specs.Reading.{after, dir_named, flag};

use crate::chosen::Flag;
use crate::command::WordsError;
use control_file::Mode;
use fs_model::{Path, PathError};
use std::alloc::Global;

pub(crate) fn same_word(word: &str, other: &str) -> bool
    ensures { result ≡ bytes_eq word.now other.now }
{
    word == other
}

// What stands in a word behind its beginning.
pub(crate) fn rest_after<'a>(word: &'a str, start: &str) -> Option<&'a str>
    ensures { option_copied result ≡ after start.now word.now }
{
    word.strip_prefix(start)
}

// The choice that a word makes of itself.
pub(crate) fn flag_of(word: &str) -> Option<Flag>
    ensures { result ≡ flag word.now }
{
    if same_word(word, "--check") || same_word(word, "-c") {
        return Some(Flag::ChecksOnly);
    }
    if same_word(word, "--copy") {
        return Some(Flag::Carries(Mode::Copy));
    }
    if same_word(word, "--link") || same_word(word, "-k") {
        return Some(Flag::Carries(Mode::Link));
    }
    if same_word(word, "--report") {
        return Some(Flag::Reports);
    }
    None
}

// The directory that a word names. Takes memory only for a word of at most 1,024 bytes.
pub(crate) fn directory(alloc: Global, word: &str) -> Result<Option<Path>, WordsError>
    ensures named { IfOk result (λ dir. dir ≡ dir_named word.now) }
    ensures usage { IfErr result (λ e. e ≡ WordsError.OutOfMemory) }
    ensures lacking { OnErr result (MayName word.now) }
{
    if word.len() > 1024 {
        return Ok(None);
    }
    match Path::parse(alloc, word) {
        Ok(path) => Ok(Some(path)),
        Err(PathError::Bad) => Ok(None),
        Err(PathError::OutOfMemory) => Err(WordsError::OutOfMemory),
    }
}
