// Reading a statement from a text.

ghost use Rattle.std.specs.Prelude.{◌≡◌, ◌≢◌, ◌<◌, ℕ, suc, length, option_map, IfOk, IfErr, IfSome, Ok, Err, Some};
ghost use Rattle.dump_lex.specs.Place.{Place, rest_of};
ghost use Rattle.dump_grammar.specs.declared.error.TextCause.TheVariants.{OutOfMemory};
ghost use Rattle.dump_grammar.specs.Spelling.{IsStatement, word_of};
ghost use Rattle.dump_read.specs.Ahead.{IsExtent, StandsNext};
ghost use Rattle.dump_read.specs.Form.{is_end, form};
ghost use Rattle.dump_read.specs.Reading.{lex_error, gather, placed_as, statement_at};
ghost use Rattle.dump_read.specs.Placed.{placed};

use crate::error::ReadError;
use crate::form::form;
use crate::words::{Words, is_mark};
use dump_grammar::{Statement, TextCause, TextError};
use dump_lex::{LexError, Lexer, Token};
use std::alloc::Global;

/// A statement, and the line where it begins.
#[derive(Drop)]
pub struct Located {
    /// From 1.
    pub line: u64,
    pub statement: Statement,
}

fn is_end(token: &Token<'_>) -> bool
    ensures { result ≡ is_end (word_of token.now) }
{
    is_mark(token, b';')
}

fn lex_error(e: LexError) -> TextError
    ensures { result ≡ lex_error e }
{
    TextError {
        line: e.line,
        cause: TextCause::Lex(e.kind),
    }
}

// Where a statement stands: the line of its first token, and how many tokens it has, the `;` with them.
#[derive(Clone, Copy)]
struct Extent {
    line: u64,
    count: usize,
}

// Goes behind the next statement. At the end of the text it has no token. Takes no memory.
fn skip(lexer: &mut Lexer<'_>) -> Result<Extent, TextError>
    ensures found { IfOk result (λ x. IsExtent (gather (suc (length (rest_of lexer.old))) lexer.old) x.count x.line lexer.new) }
    ensures refused { IfErr result (λ e. gather (suc (length (rest_of lexer.old))) lexer.old ≡ Err e) }
    ensures lexical { IfErr result (λ e. e.cause ≢ OutOfMemory) }
    ensures onward { IfOk result (λ x. 0 < x.count → length (rest_of lexer.new) < length (rest_of lexer.old)) }
{
    let mut line = 0;
    let mut count = 0;
    'tokens: loop {
        match lexer.next() {
            Err(e) => return Err(lex_error(e)),
            Ok(None) => return Ok(Extent { line, count }),
            Ok(Some(token)) => {
                if count == 0 {
                    line = token.line;
                }
                count += 1;
                if is_end(&token) {
                    return Ok(Extent { line, count });
                }
            }
        }
    }
}

// The statement of words that begin on a line.
fn statement_in(alloc: Global, line: u64, words: Words<'_>) -> Result<Located, TextError>
    ensures read { IfOk result (λ x. (p : Place) → placed_as line p (form words.entry) ≡ Ok (Some (placed x p))) }
    ensures of_grammar { IfOk result (λ x. IsStatement x.statement) }
    ensures refused { IfErr result (λ e. e.cause ≢ OutOfMemory → (p : Place) → placed_as line p (form words.entry) ≡ Err e) }
    ensures lacking { IfErr result (λ e. e.cause ≡ OutOfMemory → e.line ≡ 0) }
{
    match form(alloc, words) {
        Ok(statement) => Ok(Located { line, statement }),
        Err(ReadError::Unknown) => Err(TextError {
            line,
            cause: TextCause::UnknownStatement,
        }),
        Err(ReadError::OutOfMemory) => Err(TextError::out_of_memory()),
    }
}

/// Reads the next statement with the line where it begins, or None at the end of the text.
///
/// Its tokens are read twice, to its `;` and then as a statement, and none is kept. Of one statement a lexical error
/// comes first, then `UnknownStatement` at the line of its first token. It comes too where the text ends before the `;`.
/// Where memory lacks, the line is 0; none is taken before all of the statement's tokens were read. Where the lexer stands
/// after an error is left open.
pub fn read_located(alloc: Global, lexer: &mut Lexer<'_>) -> Result<Option<Located>, TextError>
    // The statement that stands next, and the lexer is behind it.
    ensures read { IfOk result (λ o. statement_at lexer.old ≡ Ok (option_map (λ x. placed x lexer.new) o)) }
    // Tokens that can't be read, or that are no statement.
    ensures refused { IfErr result (λ e. e.cause ≢ OutOfMemory → statement_at lexer.old ≡ Err e) }
    // Memory is taken only for tokens that stand there, all of them.
    ensures lacking { IfErr result (λ e. e.cause ≡ OutOfMemory → (e.line ≡ 0) × StandsNext lexer.old) }
    ensures onward { IfOk result (λ o. IfSome o (λ _. length (rest_of lexer.new) < length (rest_of lexer.old))) }
    // Its names are names, and its numbers have their range.
    ensures of_grammar { IfOk result (λ o. IfSome o (λ x. IsStatement x.statement)) }
{
    let start = lexer.fork();
    let extent = skip(lexer)?;
    if extent.count == 0 {
        return Ok(None);
    }
    let words = Words::ahead(start, extent.count);
    Ok(Some(statement_in(alloc, extent.line, words)?))
}

/// Reads the next statement, or None at the end of the text. It is `read_located` without the line.
pub fn read_statement(alloc: Global, lexer: &mut Lexer<'_>) -> Result<Option<Statement>, TextError>
    ensures read { IfOk result (λ o. (line : ℕ) × (statement_at lexer.old ≡ Ok (option_map (λ s. record { line = line; statement = s; after = lexer.new }) o))) }
    ensures refused { IfErr result (λ e. e.cause ≢ OutOfMemory → statement_at lexer.old ≡ Err e) }
    ensures lacking { IfErr result (λ e. e.cause ≡ OutOfMemory → (e.line ≡ 0) × StandsNext lexer.old) }
    ensures onward { IfOk result (λ o. IfSome o (λ _. length (rest_of lexer.new) < length (rest_of lexer.old))) }
    ensures of_grammar { IfOk result (λ o. IfSome o IsStatement) }
{
    match read_located(alloc, lexer)? {
        None => Ok(None),
        Some(found) => Ok(Some(found.statement)),
    }
}
