// The numbers that are set, as statements set and take them.
ghost use Rattle.std.specs.Prelude.{◌≡◌, ◌≢◌, Some, None};
ghost use Rattle.catalog.specs.declared.error.CatalogError.TheVariants.{OutOfMemory};
ghost use Rattle.dump_grammar.specs.declared.error.TextCause.TheVariants as causes;
ghost use Rattle.dump_rules.specs.Rules.{new_session, with_number, with_numbers, without};
ghost use Rattle.dump_rules.specs.Causes.{cause_of};

use crate::numbers::{Numbers, Session};
use catalog::CatalogError;
use dump_grammar::{NextKind, TextCause};

// What an error of the catalog is to a text.
pub(crate) fn cause_of(error: CatalogError) -> TextCause
    ensures value { result ≡ cause_of error }
    ensures memory { result ≢ causes.Catalog OutOfMemory }
    ensures told { result ≢ causes.OutOfMemory → (error ≢ OutOfMemory) × (result ≡ causes.Catalog error) }
{
    match error {
        CatalogError::OidTaken => TextCause::Catalog(CatalogError::OidTaken),
        CatalogError::NameTaken => TextCause::Catalog(CatalogError::NameTaken),
        CatalogError::FileTaken => TextCause::Catalog(CatalogError::FileTaken),
        CatalogError::NoSuch => TextCause::Catalog(CatalogError::NoSuch),
        CatalogError::TooMany => TextCause::Catalog(CatalogError::TooMany),
        CatalogError::OutOfMemory => TextCause::OutOfMemory,
    }
}

impl Numbers {
    fn put(&mut self, kind: NextKind, n: Option<u32>)
        ensures { self.new ≡ with_number kind n self.old }
    {
        match kind {
            NextKind::Role => self.role = n,
            NextKind::Tablespace => self.tablespace = n,
            NextKind::Database => self.database = n,
            NextKind::TypeOid => self.type_oid = n,
            NextKind::Label => self.label = n,
            NextKind::Table => self.table = n,
            NextKind::TableFile => self.table_file = n,
            NextKind::Toast => self.toast = n,
            NextKind::ToastFile => self.toast_file = n,
            NextKind::ToastIndex => self.toast_index = n,
            NextKind::ToastIndexFile => self.toast_index_file = n,
            NextKind::Index => self.index = n,
            NextKind::IndexFile => self.index_file = n,
            NextKind::Sequence => self.sequence = n,
            NextKind::SequenceFile => self.sequence_file = n,
        }
    }
}

impl Session {
    /// The session at the start of a text: no number is set, and no database is connected.
    pub fn new() -> Session
        ensures { result ≡ new_session }
    {
        let numbers = Numbers {
            role: None,
            tablespace: None,
            database: None,
            type_oid: None,
            label: None,
            table: None,
            table_file: None,
            toast: None,
            toast_file: None,
            toast_index: None,
            toast_index_file: None,
            index: None,
            index_file: None,
            sequence: None,
            sequence_file: None,
        };
        Session {
            numbers,
            connected: None,
        }
    }

    // Forgets the number of a kind.
    pub(crate) fn take(&mut self, kind: NextKind)
        ensures { self.new ≡ without kind self.old }
    {
        self.numbers.put(kind, None);
    }

    // Sets the number of a kind.
    pub(crate) fn set(&mut self, kind: NextKind, number: u32)
        ensures { self.new ≡ with_numbers self.old (with_number kind (Some number) self.old.numbers) }
    {
        self.numbers.put(kind, Some(number));
    }
}
