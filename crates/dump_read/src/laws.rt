//! Laws of reading: what is read is what the table of the grammar spells.

ghost use Rattle.dump_read.specs.Laws.{SpelledIsRead, ReadIsSpelled, SpelledTextStands};

/// Words that spell a statement are read as it.
pub fn spelled_is_read()
    ensures { SpelledIsRead }
{}

/// What is read is a statement of the grammar, and the words spell it.
pub fn read_is_spelled()
    ensures { ReadIsSpelled }
{}

/// A text whose tokens spell statements one after another is read as these statements, and then it ends.
pub fn spelled_text_stands()
    ensures { SpelledTextStands }
{}
