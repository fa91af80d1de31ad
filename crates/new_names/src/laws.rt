// The laws of making listed names. Nothing is computed: each contract is a fact about definitions.
ghost use Rattle.std.specs.Prelude.{List, Option};
ghost use Rattle.fs_model.specs.declared.effect.Effect.{Effect};
ghost use Rattle.fs_model.specs.declared.error.FsError.{FsError};
ghost use Rattle.fs_model.specs.State.{FsState};
ghost use Rattle.fs_model.specs.Effects.{apply};
ghost use Rattle.fs_model.specs.Calls.{Call, MayDo};
ghost use Rattle.fs_model.specs.Names.{Path};
ghost use Rattle.fs_model.specs.Trail.{Trail, Goes, Since, Unchanged};
ghost use Rattle.crash_safety.specs.Frame.{IsInside};
ghost use Rattle.crash_safety.specs.Calling.{MakesWithin};
ghost use Rattle.new_names.specs.declared.names.NewNode.{NewNode};
ghost use Rattle.new_names.specs.declared.names.NewName.{NewName};
ghost use Rattle.new_names.specs.Frame.{IsListed, MakesOnly, MakesListed};

/// A call that makes a listed name keeps to the listed names, whatever it answers: refused, failed with its effect or
/// without, and a write that was torn.
pub fn calls_make_only()
    ensures { (listed : List NewName) (start s : FsState) (call : Call) (answer : Option FsError) (effect : Effect) → MakesOnly listed start s → MakesListed listed start s call → MayDo s call answer effect → MakesOnly listed start (apply s effect) }
{}

/// So every state of a run of such calls has made the listed names alone.
pub fn runs_make_only()
    ensures { (listed : List NewName) (a b : Trail) → Goes (MakesListed listed a.present) a b → Since (MakesOnly listed a.present) a b }
{}

/// Where each listed name is at or below some directories, such a call keeps within these, and gives no file a further
/// name. So what is said of runs within directories is said of it.
pub fn calls_stay_within()
    ensures { (listed : List NewName) (tops : List Path) → ((path : Path) (what : NewNode) → IsListed listed path what → IsInside tops path) → (start s : FsState) (call : Call) → MakesListed listed start s call → MakesWithin tops start s call }
{}

/// Two such runs after each other are one.
pub fn runs_join()
    ensures { (listed : List NewName) (a b c : Trail) → Goes (MakesListed listed a.present) a b → Goes (MakesListed listed b.present) b c → Goes (MakesListed listed a.present) a c }
{}

/// A run that changes nothing is such a run, of calls that read.
pub fn reading_makes_nothing()
    ensures { (listed : List NewName) (a b : Trail) → Unchanged a b → Goes (MakesListed listed a.present) a b }
{}
