// Laws of the definitions.
ghost use Rattle.dump_replay.specs.Law.{AllowedIsReplayed, LoadedIsSequence, ReplayIsSequence, SequenceIsLoaded};

/// A replay ends after the statements that the rules allow, at the first that they don't or that can't be read, or at the
/// end of the text.
pub fn replay_is_sequence()
    ensures { ReplayIsSequence }
{}

/// A text whose statements the rules allow is replayed to where they lead.
pub fn allowed_is_replayed()
    ensures { AllowedIsReplayed }
{}

/// A text that is loaded begins with `BOOTSTRAP`, and the rules allow each statement behind it.
pub fn loaded_is_sequence()
    ensures { LoadedIsSequence }
{}

/// A text that begins with `BOOTSTRAP`, and whose further statements the rules allow, is loaded as the catalog that they
/// lead to.
pub fn sequence_is_loaded()
    ensures { SequenceIsLoaded }
{}
