// The words of a self-test.
ghost use Rattle.std.specs.Prelude.{◌≡◌, ◌≢◌, ◌≤◌, ℕ, true, false, Err, Some, IfOk, MatchOption, codes, slice_get};
ghost use Rattle.std.specs.Option.{option_copied};
ghost use Rattle.std.specs.Fmt.{decimal};
ghost use Rattle.command_words.specs.Words.{Accepts, IsFaultAt, texts, most_tables};

use crate::command::{Command, WordsError};
use crate::words::same_word;
use control_file::Mode;
use itoa::Buffer;

// The most tables that a self-test may have.
const MOST_TABLES: u64 = 200;

// The word at a position.
fn word_at(words: &[String], position: usize) -> Option<&str>
    ensures { option_copied result ≡ slice_get (texts words.now) position }
{
    match words.get(position) {
        Some(word) => Some(word.as_str()),
        None => None,
    }
}

// Whether the first word is `--selftest`.
pub(crate) fn is_selftest(words: &[String]) -> bool
    ensures yes { result ≡ true → slice_get (texts words.now) 0 ≡ Some (codes "--selftest") }
    ensures others { result ≡ false → (word : _) → slice_get (texts words.now) 0 ≡ Some word → word ≢ codes "--selftest" }
{
    match word_at(words, 0) {
        Some(word) => same_word(word, "--selftest"),
        None => false,
    }
}

// The number of tables that a word names: decimal digits without a zero in front, at most 200.
fn tables_in(word: &str) -> Option<u64>
    ensures { MatchOption result ((n : ℕ) → n ≤ most_tables → word.now ≢ decimal n) (λ n. (n ≤ most_tables) × (word.now ≡ decimal n)) }
{
    let mut buffer = Buffer::new();
    for n in 0..MOST_TABLES + 1 {
        if same_word(word, buffer.format(n)) {
            return Some(n);
        }
    }
    None
}

// Reads the words of a self-test.
pub(crate) fn read_selftest(words: &[String]) -> Result<Command, WordsError>
    requires { slice_get (texts words.now) 0 ≡ Some (codes "--selftest") }
    ensures accepted { IfOk result (λ command. Accepts (texts words.now) command) }
    ensures usage { (position : ℕ) → result ≡ Err (WordsError.Usage position) → IsFaultAt (texts words.now) position }
    ensures no_memory { result ≢ Err WordsError.OutOfMemory }
{
    let Some(word) = word_at(words, 1) else {
        return Err(WordsError::Usage(1));
    };
    let Some(tables) = tables_in(word) else {
        return Err(WordsError::Usage(1));
    };
    let Some(last) = word_at(words, 2) else {
        return Ok(Command::Selftest(tables, Mode::Copy));
    };
    if !same_word(last, "--link") {
        return Err(WordsError::Usage(2));
    }
    if words.len() > 3 {
        return Err(WordsError::Usage(3));
    }
    Ok(Command::Selftest(tables, Mode::Link))
}
