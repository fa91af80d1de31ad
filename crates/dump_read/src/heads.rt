// The words that statements begin with.

ghost use Rattle.std.specs.Prelude.{◌≡◌};
ghost use Rattle.dump_grammar.specs.Spelling.{word_of};
ghost use Rattle.dump_read.specs.Answer.{Answers};
ghost use Rattle.dump_read.specs.Takes.{one};
ghost use Rattle.dump_read.specs.Form.{verb_word, object_word, verb_in, object_in};

use crate::error::ReadError;
use crate::words::{Words, is_key};
use dump_lex::Token;

// The first word.
#[derive(Clone, Copy)]
pub enum Verb {
    Bootstrap,
    Set,
    Create,
    Alter,
    Connect,
    Add,
}

// The word behind CREATE.
#[derive(Clone, Copy)]
pub enum Object {
    Role,
    Tablespace,
    Database,
    Schema,
    EnumType,
    Table,
    Index,
    Sequence,
}

fn verb_word(verb: Verb) -> &'static [u8]
    ensures { result.now ≡ verb_word verb }
{
    match verb {
        Verb::Bootstrap => b"BOOTSTRAP",
        Verb::Set => b"SET",
        Verb::Create => b"CREATE",
        Verb::Alter => b"ALTER",
        Verb::Connect => b"CONNECT",
        Verb::Add => b"ADD",
    }
}

fn object_word(object: Object) -> &'static [u8]
    ensures { result.now ≡ object_word object }
{
    match object {
        Object::Role => b"ROLE",
        Object::Tablespace => b"TABLESPACE",
        Object::Database => b"DATABASE",
        Object::Schema => b"SCHEMA",
        Object::EnumType => b"ENUM",
        Object::Table => b"TABLE",
        Object::Index => b"INDEX",
        Object::Sequence => b"SEQUENCE",
    }
}

#[tactic(auto, unfolding(crate::specs::Form::verb_in))]
fn verb_in(token: &Token<'_>) -> Option<Verb>
    ensures { result ≡ verb_in (word_of token.now) }
{
    [
        Verb::Bootstrap,
        Verb::Set,
        Verb::Create,
        Verb::Alter,
        Verb::Connect,
        Verb::Add,
    ]
    .iter()
    .copied()
    .find(|verb| is_key(token, verb_word(*verb)))
}

#[tactic(auto, unfolding(crate::specs::Form::object_in))]
fn object_in(token: &Token<'_>) -> Option<Object>
    ensures { result ≡ object_in (word_of token.now) }
{
    [
        Object::Role,
        Object::Tablespace,
        Object::Database,
        Object::Schema,
        Object::EnumType,
        Object::Table,
        Object::Index,
        Object::Sequence,
    ]
    .iter()
    .copied()
    .find(|object| is_key(token, object_word(*object)))
}

impl<'a> Words<'a> {
    #[tactic(auto, unfolding(crate::specs::Takes::one))]
    pub fn verb(&mut self) -> Result<Verb, ReadError>
        ensures { Answers (λ x. (x, self.new)) result (one verb_in self.old) }
    {
        let token = self.next()?;
        verb_in(&token).ok_or(ReadError::Unknown)
    }

    #[tactic(auto, unfolding(crate::specs::Takes::one))]
    pub fn object(&mut self) -> Result<Object, ReadError>
        ensures { Answers (λ x. (x, self.new)) result (one object_in self.old) }
    {
        let token = self.next()?;
        object_in(&token).ok_or(ReadError::Unknown)
    }
}
