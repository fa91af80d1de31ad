ghost use Rattle.dump_spelling.specs.Spelled.{LinesAreSpelled};

/// The canonical lines of statements are, in the grammar of tokens, words that spell these statements and nothing else.
pub fn lines_are_spelled()
    ensures { LinesAreSpelled }
{}
