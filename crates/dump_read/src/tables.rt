// The words that name a value, as the table of the grammar has them.

ghost use Rattle.std.specs.Prelude.{◌≡◌};
ghost use Rattle.dump_grammar.specs.Spelling.{word_of};
ghost use Rattle.dump_read.specs.Answer.{Answers};
ghost use Rattle.dump_read.specs.Takes.{kind_in, type_in, align_in, flag_in, one};

use crate::error::ReadError;
use crate::words::{Words, is_key, is_plain};
use catalog::BaseType;
use dump_grammar::{NextKind, align_word, flag_word, kind_word, type_word};
use dump_lex::Token;
use heap_tuple::Align;

#[tactic(auto, unfolding(crate::specs::Takes::kind_in))]
fn kind_in(token: &Token<'_>) -> Option<NextKind>
    ensures { result ≡ kind_in (word_of token.now) }
{
    [
        NextKind::Role,
        NextKind::Tablespace,
        NextKind::Database,
        NextKind::TypeOid,
        NextKind::Label,
        NextKind::Table,
        NextKind::TableFile,
        NextKind::Toast,
        NextKind::ToastFile,
        NextKind::ToastIndex,
        NextKind::ToastIndexFile,
        NextKind::Index,
        NextKind::IndexFile,
        NextKind::Sequence,
        NextKind::SequenceFile,
    ]
    .iter()
    .copied()
    .find(|kind| is_plain(token, kind_word(*kind)))
}

#[tactic(auto, unfolding(crate::specs::Takes::type_in))]
fn type_in(token: &Token<'_>) -> Option<BaseType>
    ensures { result ≡ type_in (word_of token.now) }
{
    [
        BaseType::Bool,
        BaseType::Int2,
        BaseType::Int4,
        BaseType::Oid,
        BaseType::Float4,
        BaseType::Date,
        BaseType::RegCollation,
        BaseType::RegConfig,
        BaseType::RegDictionary,
        BaseType::RegNamespace,
        BaseType::RegOper,
        BaseType::RegOperator,
        BaseType::RegProc,
        BaseType::RegProcedure,
        BaseType::Int8,
        BaseType::Float8,
        BaseType::Timestamp,
        BaseType::TimestampTz,
        BaseType::Uuid,
        BaseType::Name,
        BaseType::AclItem,
        BaseType::Text,
        BaseType::VarChar,
        BaseType::Bytea,
        BaseType::Numeric,
        BaseType::Jsonb,
    ]
    .iter()
    .copied()
    .find(|base| is_plain(token, type_word(*base)))
}

#[tactic(auto, unfolding(crate::specs::Takes::align_in))]
fn align_in(token: &Token<'_>) -> Option<Align>
    ensures { result ≡ align_in (word_of token.now) }
{
    [Align::C, Align::S, Align::I, Align::D]
        .iter()
        .copied()
        .find(|align| is_plain(token, align_word(*align)))
}

#[tactic(auto, unfolding(crate::specs::Takes::flag_in))]
fn flag_in(token: &Token<'_>) -> Option<bool>
    ensures { result ≡ flag_in (word_of token.now) }
{
    [true, false]
        .iter()
        .copied()
        .find(|on| is_key(token, flag_word(*on)))
}

impl<'a> Words<'a> {
    #[tactic(auto, unfolding(crate::specs::Takes::one))]
    pub fn kind(&mut self) -> Result<NextKind, ReadError>
        ensures { Answers (λ x. (x, self.new)) result (one kind_in self.old) }
    {
        let token = self.next()?;
        kind_in(&token).ok_or(ReadError::Unknown)
    }

    #[tactic(auto, unfolding(crate::specs::Takes::one))]
    pub fn base_type(&mut self) -> Result<BaseType, ReadError>
        ensures { Answers (λ x. (x, self.new)) result (one type_in self.old) }
    {
        let token = self.next()?;
        type_in(&token).ok_or(ReadError::Unknown)
    }

    #[tactic(auto, unfolding(crate::specs::Takes::one))]
    pub fn align(&mut self) -> Result<Align, ReadError>
        ensures { Answers (λ x. (x, self.new)) result (one align_in self.old) }
    {
        let token = self.next()?;
        align_in(&token).ok_or(ReadError::Unknown)
    }

    #[tactic(auto, unfolding(crate::specs::Takes::one))]
    pub fn flag(&mut self) -> Result<bool, ReadError>
        ensures { Answers (λ x. (x, self.new)) result (one flag_in self.old) }
    {
        let token = self.next()?;
        flag_in(&token).ok_or(ReadError::Unknown)
    }
}
