ghost use Rattle.std.specs.Prelude.{◌≡◌};
ghost use Rattle.dump_grammar.specs.declared.error.TextCause.TheVariants.{OutOfMemory};

use catalog::CatalogError;
use dump_lex::LexKind;
use std::alloc::{AllocError, AllocFailed};
use thiserror::Error;

/// Why a catalog text is refused. Of one statement the causes are tested in the order of the first four.
#[derive(Clone, Copy, Debug, PartialEq, Eq, Error)]
pub enum TextCause {
    /// No token stands where one should.
    #[error("{0}")]
    Lex(LexKind),
    /// The tokens are no statement.
    #[error("no statement")]
    UnknownStatement,
    /// A number that the statement takes wasn't set.
    #[error("a number isn't set")]
    MissingOid,
    /// The catalog refuses what the statement makes. `OutOfMemory` never stands here.
    #[error("{0}")]
    Catalog(CatalogError),
    /// There is no catalog text. Only a catalog server answers it, at line 0.
    #[error("no catalog text")]
    NoCatalog,
    /// Memory lacked.
    #[error("out of memory")]
    OutOfMemory,
}

/// Why a catalog text is refused, and where.
#[derive(Clone, Copy, Debug, PartialEq, Eq, Error)]
#[error("line {line}: {cause}")]
pub struct TextError {
    /// From 1: the line of the first token of the statement, or with `Lex` that of the byte at which no token begins.
    /// 0 where the cause isn't one of the text.
    pub line: u64,
    pub cause: TextCause,
}

impl TextError {
    /// Memory lacked, which is of no line.
    pub fn out_of_memory() -> TextError
        ensures { result ≡ record { line = 0; cause = OutOfMemory } }
    {
        TextError {
            line: 0,
            cause: TextCause::OutOfMemory,
        }
    }
}

impl From<AllocError> for TextError {
    ghost from_gives = { λ _ e. e ≡ record { line = 0; cause = OutOfMemory } };

    fn from(_: AllocError) -> TextError {
        TextError::out_of_memory()
    }
}

impl<T: Drop> From<AllocFailed<T>> for TextError {
    ghost from_gives = { λ _ e. e ≡ record { line = 0; cause = OutOfMemory } };

    fn from(_: AllocFailed<T>) -> TextError {
        TextError::out_of_memory()
    }
}
