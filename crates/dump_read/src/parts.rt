// Parts that several statements have.

ghost use Rattle.std.specs.Prelude.{◌≡◌};
ghost use Rattle.dump_read.specs.Answer.{Answers};
ghost use Rattle.dump_read.specs.Form.{keyed_name_at, owner_at, tablespace_at, qualified_at};

use crate::error::ReadError;
use crate::words::Words;
use fs_model::Text;
use std::alloc::Global;

// A name in a schema.
#[derive(Drop)]
pub struct Qualified {
    pub schema: Text,
    pub name: Text,
}

impl<'a> Words<'a> {
    #[tactic(auto, unfolding(crate::specs::Form::qualified_at))]
    pub fn qualified(&mut self, alloc: Global) -> Result<Qualified, ReadError>
        ensures { Answers (λ q. (q, self.new)) result (qualified_at self.old) }
    {
        let schema = self.name(alloc)?;
        self.mark(b'.')?;
        let name = self.name(alloc)?;
        Ok(Qualified { schema, name })
    }

    // The name behind a keyword.
    #[tactic(auto, unfolding(crate::specs::Form::keyed_name_at))]
    pub fn keyed_name(&mut self, alloc: Global, text: &[u8]) -> Result<Text, ReadError>
        ensures { Answers (λ n. (n, self.new)) result (keyed_name_at text.now self.old) }
    {
        self.key(text)?;
        self.name(alloc)
    }

    pub fn owner(&mut self, alloc: Global) -> Result<Text, ReadError>
        ensures { Answers (λ n. (n, self.new)) result (owner_at self.old) }
    {
        self.keyed_name(alloc, b"OWNER")
    }

    pub fn tablespace(&mut self, alloc: Global) -> Result<Text, ReadError>
        ensures { Answers (λ n. (n, self.new)) result (tablespace_at self.old) }
    {
        self.keyed_name(alloc, b"TABLESPACE")
    }
}
