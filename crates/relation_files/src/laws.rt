ghost use Rattle.std.specs.Prelude.{◌≡◌, ℕ};
ghost use Rattle.xact_status.specs.Files.{SegmentFiles};
ghost use Rattle.relation_files.specs.declared.relation.Fork.{Fork};
ghost use Rattle.relation_files.specs.Carried.{carried};

/// A law of the definition `carried`: what was carried is carried whole, so that a second upgrade takes all of it.
pub fn carried_again_law()
    ensures { (fork : Fork) (files : SegmentFiles) (segment : ℕ)
        → carried fork (carried fork files) segment ≡ carried fork files segment }
{}
