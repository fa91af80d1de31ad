ghost use Rattle.std.specs.Prelude.{◌≡◌, ◌++◌, ◌∷◌, [], OnOk, OnErr, IfErr};

use crate::error::CatalogError;
use fs_model::Text;
use std::marker::Model;

/// A label of an enum, of `pg_enum`.
#[derive(Drop)]
pub struct Label {
    pub oid: u32,
    /// At most 63 bytes.
    pub text: Text,
}

/// The labels of an enum, in order. A contract sees them as a list.
#[derive(Drop)]
pub struct Labels {
    items: Vec<Label>,
}

impl Model for Labels {
    ghost use Rattle.std.specs.Prelude.{List};
    ghost use Rattle.catalog.specs.declared.enums.Label.{Label};

    ghost Value = { List Label };

    ghost view = { λ a. a.items.items };
}

impl Labels {
    /// Takes no memory.
    pub fn new(items: Vec<Label>) -> Labels
        ensures { result ≡ items.items }
    {
        Labels { items }
    }

    /// Lends the labels.
    pub fn items(&self) -> &[Label]
        ensures { result.now ≡ self.now }
    {
        &self.items
    }

    // Adds a label at the end.
    pub(crate) fn push(&mut self, label: Label) -> Result<(), CatalogError>
        ensures ok { OnOk result (self.new ≡ self.old ++ label ∷ []) }
        ensures error { IfErr result (λ e. e ≡ CatalogError.OutOfMemory) }
        ensures unchanged { OnErr result (self.new ≡ self.old) }
    {
        self.items.push(label)?;
        Ok(())
    }

    /// Gives the vector back.
    pub fn into_vec(self) -> Vec<Label>
        ensures { result.items ≡ self }
    {
        self.items
    }
}

/// An enum type, of `pg_type` and `pg_enum`.
#[derive(Drop)]
pub struct EnumType {
    pub oid: u32,
    /// The name of a schema of the database.
    pub schema: Text,
    pub name: Text,
    /// The OID of a role.
    pub owner: u32,
    pub labels: Labels,
}
