// What the words of an upgrade or of a report choose.
ghost use Rattle.std.specs.Prelude.{◌≡◌, is_some, IfOk, IfErr, OnErr, codes};
ghost use Rattle.command_words.specs.Words.{Directory, Says, no_choice, choose, command_of, MayName};
ghost use Rattle.command_words.specs.Reading.{dir_of, ready, after, take_dir, await_dir, take_long, take_option, take_word, HasLong, TakesMemory};

use crate::chosen::{Chosen, Flag, Reader};
use crate::command::{Command, WordsError};
use crate::words::{directory, flag_of, rest_after, same_word};
use control_file::{Job, Mode, Side};
use fs_model::Path;
use std::alloc::Global;

impl Chosen {
    fn has_dir(&self, side: Side) -> bool
        ensures { result ≡ is_some (dir_of self.now side) }
    {
        match side {
            Side::Old => self.old.is_some(),
            Side::New => self.new.is_some(),
        }
    }

    // With a directory more, where none was chosen for its side.
    fn with_dir(self, side: Side, dir: Path) -> Option<Chosen>
        ensures { result ≡ choose self (Directory side dir) }
    {
        if self.has_dir(side) {
            return None;
        }
        let mut next = self;
        match side {
            Side::Old => next.old = Some(dir),
            Side::New => next.new = Some(dir),
        }
        Some(next)
    }

    // With one flag more, where none like it was chosen and it goes with those that were.
    fn with_flag(self, flag: Flag) -> Option<Chosen>
        ensures { result ≡ choose self (Says flag) }
    {
        let refused = match flag {
            Flag::ChecksOnly => self.check || self.report,
            Flag::Carries(_) => self.mode.is_some() || self.report,
            Flag::Reports => self.report || self.check || self.mode.is_some(),
        };
        if refused {
            return None;
        }
        let mut next = self;
        match flag {
            Flag::ChecksOnly => next.check = true,
            Flag::Carries(mode) => next.mode = Some(mode),
            Flag::Reports => next.report = true,
        }
        Some(next)
    }

    // The command, where both directories are chosen.
    pub(crate) fn command(self) -> Option<Command>
        ensures { result ≡ command_of self }
    {
        let (Some(old), Some(new)) = (self.old, self.new) else {
            return None;
        };
        if self.report {
            return Some(Command::Report(old, new));
        }
        let mode = self.mode.unwrap_or(Mode::Copy);
        Some(Command::Upgrade(Job { old, new, mode }, self.check))
    }
}

impl Reader {
    pub(crate) fn start() -> Reader
        ensures { result ≡ ready no_choice }
    {
        let chosen = Chosen {
            old: None,
            new: None,
            check: false,
            mode: None,
            report: false,
        };
        Reader {
            chosen,
            awaits: None,
        }
    }

    fn ready(chosen: Chosen) -> Reader
        ensures { result ≡ ready chosen }
    {
        Reader {
            chosen,
            awaits: None,
        }
    }
}

// Takes a word that has to name a directory.
fn take_dir(
    alloc: Global,
    chosen: Chosen,
    side: Side,
    word: &str,
) -> Result<Option<Reader>, WordsError>
    ensures taken { IfOk result (λ next. next ≡ take_dir chosen side word.now) }
    ensures lacks { IfErr result (λ e. e ≡ WordsError.OutOfMemory) }
    ensures lacking { OnErr result (MayName word.now) }
{
    match directory(alloc, word)? {
        Some(dir) => Ok(chosen.with_dir(side, dir).map(|next| Reader::ready(next))),
        None => Ok(None),
    }
}

// Takes the option whose directory is the next word.
fn await_dir(chosen: Chosen, side: Side) -> Option<Reader>
    ensures { result ≡ await_dir chosen side }
{
    if chosen.has_dir(side) {
        return None;
    }
    Some(Reader {
        chosen,
        awaits: Some(side),
    })
}

// Takes an option that is one word.
fn take_long(alloc: Global, chosen: Chosen, word: &str) -> Result<Option<Reader>, WordsError>
    ensures taken { IfOk result (λ next. next ≡ take_long chosen word.now (after (codes "--old-datadir=") word.now) (after (codes "--new-datadir=") word.now)) }
    ensures lacks { IfErr result (λ e. e ≡ WordsError.OutOfMemory) }
    ensures lacking { OnErr result (HasLong word.now) }
{
    if let Some(rest) = rest_after(word, "--old-datadir=") {
        return take_dir(alloc, chosen, Side::Old, rest);
    }
    if let Some(rest) = rest_after(word, "--new-datadir=") {
        return take_dir(alloc, chosen, Side::New, rest);
    }
    match flag_of(word) {
        Some(flag) => Ok(chosen.with_flag(flag).map(|next| Reader::ready(next))),
        None => Ok(None),
    }
}

// Takes an option.
fn take_option(alloc: Global, chosen: Chosen, word: &str) -> Result<Option<Reader>, WordsError>
    ensures taken { IfOk result (λ next. next ≡ take_option chosen word.now) }
    ensures lacks { IfErr result (λ e. e ≡ WordsError.OutOfMemory) }
    ensures lacking { OnErr result (HasLong word.now) }
{
    if same_word(word, "-d") {
        return Ok(await_dir(chosen, Side::Old));
    }
    if same_word(word, "-D") {
        return Ok(await_dir(chosen, Side::New));
    }
    take_long(alloc, chosen, word)
}

// The reader after one word more; nothing, where no accepted line goes on so.
pub(crate) fn take_word(
    alloc: Global,
    reader: Reader,
    word: &str,
) -> Result<Option<Reader>, WordsError>
    ensures taken { IfOk result (λ next. next ≡ take_word reader word.now) }
    ensures lacks { IfErr result (λ e. e ≡ WordsError.OutOfMemory) }
    ensures lacking { OnErr result (TakesMemory reader.awaits word.now) }
{
    match reader.awaits {
        Some(side) => take_dir(alloc, reader.chosen, side, word),
        None => take_option(alloc, reader.chosen, word),
    }
}
