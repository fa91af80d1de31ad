// Replaying a text over a catalog, and loading a catalog from a text.
ghost use Rattle.std.specs.Prelude.{◌≡◌, ◌≢◌, true, Ok, Err, Some, None, OnOk, IfOk, IfErr};
ghost use Rattle.catalog.specs.declared.error.CatalogError.{CatalogError};
ghost use Rattle.catalog.specs.Cluster.{started};
ghost use Rattle.catalog.specs.Forms.{is_name};
ghost use Rattle.dump_grammar.specs.declared.error.TextCause.TheVariants as causes;
ghost use Rattle.dump_rules.specs.Rules.{opened};
ghost use Rattle.dump_replay.specs.Replay.{start_of, outcome_at, outcome_of, Ends, settled_outcome, load_of};
ghost use Rattle.dump_replay.specs.Law.{AfterSome};

use catalog::Catalog;
use dump_grammar::{Statement, TextCause, TextError};
use dump_lex::Lexer;
use dump_read::read_located;
use dump_rules::{Session, apply};
use fs_model::Text;
use std::alloc::Global;

// Why the statement of a line isn't applied. Want of memory is of no line.
fn error_at(line: u64, cause: TextCause) -> TextError
    ensures exact { result.cause ≢ causes.OutOfMemory → result ≡ record { line = line; cause = cause } }
    ensures cause { result.cause ≡ cause }
    ensures lacking { result.cause ≡ causes.OutOfMemory → result.line ≡ 0 }
{
    match cause {
        TextCause::OutOfMemory => TextError::out_of_memory(),
        _ => TextError { line, cause },
    }
}

// Applies the statements behind the lexer's place, in a new session.
fn replay_on(alloc: Global, catalog: &mut Catalog, lexer: &mut Lexer<'_>) -> Result<(), TextError>
    ensures exact { Ends (outcome_at (opened catalog.old) lexer.old) catalog.new result }
    ensures partly { AfterSome (opened catalog.old) lexer.old catalog.new }
    ensures memory { IfErr result (λ e. e.cause ≢ causes.Catalog CatalogError.OutOfMemory) }
    ensures lacking { IfErr result (λ e. e.cause ≡ causes.OutOfMemory → e.line ≡ 0) }
{
    let mut session = Session::new();
    'statements: loop {
        match read_located(alloc, lexer) {
            Err(error) => return Err(error),
            Ok(None) => return Ok(()),
            Ok(Some(located)) => {
                let line = located.line;
                match apply(alloc, catalog, &mut session, located.statement) {
                    Err(cause) => return Err(error_at(line, cause)),
                    Ok(()) => {}
                }
            }
        }
    }
}

/// Applies the statements of a text to a catalog in turn, up to the first that can't be read or is refused.
///
/// After an error, unless it is `OutOfMemory`, the catalog holds what the statements before the error's line made. After
/// `OutOfMemory`, which is of no line, it holds what some of the first statements made.
pub fn replay(alloc: Global, catalog: &mut Catalog, text: &[u8]) -> Result<(), TextError>
    // Ok exactly where each statement is read and allowed.
    ensures ok { OnOk result ((outcome_of catalog.old text.now).fault ≡ None) }
    ensures refused { IfErr result (λ e. e.cause ≢ causes.OutOfMemory → (outcome_of catalog.old text.now).fault ≡ Some e) }
    // The statements before the error are made, and all of them where there is none.
    ensures made { OnOk result (catalog.new ≡ (outcome_of catalog.old text.now).state.catalog) }
    ensures made_before { IfErr result (λ e. e.cause ≢ causes.OutOfMemory → catalog.new ≡ (outcome_of catalog.old text.now).state.catalog) }
    // However it ends, some of the first statements are made, each whole.
    ensures partly { AfterSome (opened catalog.old) (start_of text.now) catalog.new }
    ensures memory { IfErr result (λ e. e.cause ≢ causes.Catalog CatalogError.OutOfMemory) }
    ensures lacking { IfErr result (λ e. e.cause ≡ causes.OutOfMemory → e.line ≡ 0) }
{
    let mut lexer = Lexer::over(text);
    replay_on(alloc, catalog, &mut lexer)
}

fn started(alloc: Global, name: Text) -> Result<Catalog, TextError>
    requires { is_name name ≡ true }
    ensures made { IfOk result (λ c. c ≡ started name) }
    ensures error { IfErr result (λ e. e ≡ record { line = 0; cause = causes.OutOfMemory }) }
{
    match Catalog::start(alloc, name) {
        Ok(catalog) => Ok(catalog),
        Err(_) => Err(TextError::out_of_memory()),
    }
}

// The catalog that the statements behind the lexer's place make of a new cluster.
fn load_on(alloc: Global, name: Text, lexer: &mut Lexer<'_>) -> Result<Catalog, TextError>
    requires { is_name name ≡ true }
    ensures ok { IfOk result (λ c. settled_outcome (outcome_at (opened (started name)) lexer.old) ≡ Ok c) }
    ensures refused { IfErr result (λ e. e.cause ≢ causes.OutOfMemory → settled_outcome (outcome_at (opened (started name)) lexer.old) ≡ Err e) }
    ensures memory { IfErr result (λ e. e.cause ≢ causes.Catalog CatalogError.OutOfMemory) }
    ensures lacking { IfErr result (λ e. e.cause ≡ causes.OutOfMemory → e.line ≡ 0) }
{
    let mut catalog = started(alloc, name)?;
    replay_on(alloc, &mut catalog, lexer)?;
    Ok(catalog)
}

fn unknown_at(line: u64) -> TextError
    ensures { result ≡ record { line = line; cause = causes.UnknownStatement } }
{
    TextError {
        line,
        cause: TextCause::UnknownStatement,
    }
}

/// The catalog of a text, whose first statement names the role that made the cluster.
///
/// Another first statement is `UnknownStatement` at its line, and a text without a statement is so at line 1.
pub fn load(alloc: Global, text: &[u8]) -> Result<Catalog, TextError>
    ensures ok { IfOk result (λ c. load_of text.now ≡ Ok c) }
    ensures refused { IfErr result (λ e. e.cause ≢ causes.OutOfMemory → load_of text.now ≡ Err e) }
    ensures memory { IfErr result (λ e. e.cause ≢ causes.Catalog CatalogError.OutOfMemory) }
    ensures lacking { IfErr result (λ e. e.cause ≡ causes.OutOfMemory → e.line ≡ 0) }
{
    let mut lexer = Lexer::over(text);
    match read_located(alloc, &mut lexer) {
        Err(error) => Err(error),
        Ok(None) => Err(unknown_at(1)),
        Ok(Some(located)) => match located.statement {
            Statement::Bootstrap(name) => load_on(alloc, name, &mut lexer),
            _ => Err(unknown_at(located.line)),
        },
    }
}
