// Which statement some tokens are.

ghost use Rattle.std.specs.Prelude.{◌≡◌, IfErr};
ghost use Rattle.dump_read.specs.Answer.{Answers};
ghost use Rattle.dump_read.specs.Form.{bootstrap_at, next_at, altered_at, connect_at, label_at, behind_verb, words_at, at_end, form};

use crate::created::create;
use crate::error::ReadError;
use crate::heads::Verb;
use crate::words::Words;
use dump_grammar::Statement;
use std::alloc::Global;

#[tactic(auto, unfolding(crate::specs::Form::bootstrap_at))]
fn bootstrap(alloc: Global, words: &mut Words<'_>) -> Result<Statement, ReadError>
    ensures { Answers (λ s. (s, words.new)) result (bootstrap_at words.old) }
{
    Ok(Statement::Bootstrap(words.name(alloc)?))
}

#[tactic(auto, unfolding(crate::specs::Form::next_at))]
fn set_next(words: &mut Words<'_>) -> Result<Statement, ReadError>
    ensures { Answers (λ s. (s, words.new)) result (next_at words.old) }
{
    words.key(b"NEXT")?;
    let kind = words.kind()?;
    let number = words.number()?;
    Ok(Statement::SetNext(kind, number))
}

#[tactic(auto, unfolding(crate::specs::Form::altered_at))]
fn alter(alloc: Global, words: &mut Words<'_>) -> Result<Statement, ReadError>
    ensures { Answers (λ s. (s, words.new)) result (altered_at words.old) }
{
    let name = words.keyed_name(alloc, b"DATABASE")?;
    words.key(b"CONNECTIONS")?;
    let connections = words.flag()?;
    Ok(Statement::AlterDatabase { name, connections })
}

#[tactic(auto, unfolding(crate::specs::Form::connect_at))]
fn connect(alloc: Global, words: &mut Words<'_>) -> Result<Statement, ReadError>
    ensures { Answers (λ s. (s, words.new)) result (connect_at words.old) }
{
    Ok(Statement::Connect(words.name(alloc)?))
}

#[tactic(auto, unfolding(crate::specs::Form::label_at))]
fn add_label(alloc: Global, words: &mut Words<'_>) -> Result<Statement, ReadError>
    ensures { Answers (λ s. (s, words.new)) result (label_at words.old) }
{
    words.key(b"LABEL")?;
    let place = words.qualified(alloc)?;
    let text = words.string(alloc)?;
    Ok(Statement::AddLabel {
        schema: place.schema,
        name: place.name,
        text,
    })
}

fn behind_verb(alloc: Global, verb: Verb, words: &mut Words<'_>) -> Result<Statement, ReadError>
    ensures { Answers (λ s. (s, words.new)) result (behind_verb verb words.old) }
{
    match verb {
        Verb::Bootstrap => bootstrap(alloc, words),
        Verb::Set => set_next(words),
        Verb::Create => create(alloc, words),
        Verb::Alter => alter(alloc, words),
        Verb::Connect => connect(alloc, words),
        Verb::Add => add_label(alloc, words),
    }
}

#[tactic(auto, unfolding(crate::specs::Form::words_at))]
fn statement(alloc: Global, words: &mut Words<'_>) -> Result<Statement, ReadError>
    ensures { Answers (λ s. (s, words.new)) result (words_at words.old) }
{
    let verb = words.verb()?;
    behind_verb(alloc, verb, words)
}

fn at_end(statement: Statement, words: &Words<'_>) -> Result<Statement, ReadError>
    ensures answer { Answers (λ s. s) result (at_end statement words.now) }
    ensures unknown { IfErr result (λ e. e ≡ ReadError.Unknown) }
{
    if words.is_empty() {
        Ok(statement)
    } else {
        Err(ReadError::Unknown)
    }
}

// The statement that words are, the `;` with them.
#[tactic(auto, unfolding(crate::specs::Form::form))]
pub fn form(alloc: Global, mut words: Words<'_>) -> Result<Statement, ReadError>
    ensures { Answers (λ s. s) result (form words.entry) }
{
    let statement = statement(alloc, &mut words)?;
    words.mark(b';')?;
    at_end(statement, &words)
}
