// What CREATE makes.

ghost use Rattle.dump_read.specs.Answer.{Answers};
ghost use Rattle.dump_read.specs.Form.{role_at, tablespace_made_at, database_at, schema_at, enum_made_at, table_at, index_at, sequence_at, created_at, create_at};

use crate::error::ReadError;
use crate::heads::Object;
use crate::words::Words;
use dump_grammar::Statement;
use std::alloc::Global;

#[tactic(auto, unfolding(crate::specs::Form::role_at))]
fn role(alloc: Global, words: &mut Words<'_>) -> Result<Statement, ReadError>
    ensures { Answers (λ s. (s, words.new)) result (role_at words.old) }
{
    Ok(Statement::CreateRole(words.name(alloc)?))
}

#[tactic(auto, unfolding(crate::specs::Form::tablespace_made_at))]
fn tablespace(alloc: Global, words: &mut Words<'_>) -> Result<Statement, ReadError>
    ensures { Answers (λ s. (s, words.new)) result (tablespace_made_at words.old) }
{
    let name = words.name(alloc)?;
    let owner = words.owner(alloc)?;
    words.key(b"LOCATION")?;
    let location = words.location(alloc)?;
    Ok(Statement::CreateTablespace {
        name,
        owner,
        location,
    })
}

#[tactic(auto, unfolding(crate::specs::Form::database_at))]
fn database(alloc: Global, words: &mut Words<'_>) -> Result<Statement, ReadError>
    ensures { Answers (λ s. (s, words.new)) result (database_at words.old) }
{
    let name = words.name(alloc)?;
    let owner = words.owner(alloc)?;
    Ok(Statement::CreateDatabase { name, owner })
}

#[tactic(auto, unfolding(crate::specs::Form::schema_at))]
fn schema(alloc: Global, words: &mut Words<'_>) -> Result<Statement, ReadError>
    ensures { Answers (λ s. (s, words.new)) result (schema_at words.old) }
{
    let name = words.name(alloc)?;
    let owner = words.owner(alloc)?;
    Ok(Statement::CreateSchema { name, owner })
}

#[tactic(auto, unfolding(crate::specs::Form::enum_made_at))]
fn enum_type(alloc: Global, words: &mut Words<'_>) -> Result<Statement, ReadError>
    ensures { Answers (λ s. (s, words.new)) result (enum_made_at words.old) }
{
    let place = words.qualified(alloc)?;
    let owner = words.owner(alloc)?;
    Ok(Statement::CreateEnum {
        schema: place.schema,
        name: place.name,
        owner,
    })
}

#[tactic(auto, unfolding(crate::specs::Form::table_at))]
fn table(alloc: Global, words: &mut Words<'_>) -> Result<Statement, ReadError>
    ensures { Answers (λ s. (s, words.new)) result (table_at words.old) }
{
    let place = words.qualified(alloc)?;
    let owner = words.owner(alloc)?;
    let tablespace = words.tablespace(alloc)?;
    let columns = words.columns(alloc)?;
    Ok(Statement::CreateTable {
        schema: place.schema,
        name: place.name,
        owner,
        tablespace,
        columns,
    })
}

#[tactic(auto, unfolding(crate::specs::Form::index_at))]
fn index(alloc: Global, words: &mut Words<'_>) -> Result<Statement, ReadError>
    ensures { Answers (λ s. (s, words.new)) result (index_at words.old) }
{
    let name = words.name(alloc)?;
    words.key(b"ON")?;
    let place = words.qualified(alloc)?;
    let tablespace = words.tablespace(alloc)?;
    let keys = words.keys(alloc)?;
    Ok(Statement::CreateIndex {
        name,
        schema: place.schema,
        table: place.name,
        tablespace,
        keys,
    })
}

#[tactic(auto, unfolding(crate::specs::Form::sequence_at))]
fn sequence(alloc: Global, words: &mut Words<'_>) -> Result<Statement, ReadError>
    ensures { Answers (λ s. (s, words.new)) result (sequence_at words.old) }
{
    let place = words.qualified(alloc)?;
    let owner = words.owner(alloc)?;
    Ok(Statement::CreateSequence {
        schema: place.schema,
        name: place.name,
        owner,
    })
}

fn created(alloc: Global, object: Object, words: &mut Words<'_>) -> Result<Statement, ReadError>
    ensures { Answers (λ s. (s, words.new)) result (created_at object words.old) }
{
    match object {
        Object::Role => role(alloc, words),
        Object::Tablespace => tablespace(alloc, words),
        Object::Database => database(alloc, words),
        Object::Schema => schema(alloc, words),
        Object::EnumType => enum_type(alloc, words),
        Object::Table => table(alloc, words),
        Object::Index => index(alloc, words),
        Object::Sequence => sequence(alloc, words),
    }
}

#[tactic(auto, unfolding(crate::specs::Form::create_at))]
pub fn create(alloc: Global, words: &mut Words<'_>) -> Result<Statement, ReadError>
    ensures { Answers (λ s. (s, words.new)) result (create_at words.old) }
{
    let object = words.object()?;
    created(alloc, object, words)
}
