// The laws of plans. Nothing is computed: each contract is a fact about definitions.
ghost use Rattle.std.specs.Prelude.{◌≡◌, ◌≢◌, true, List, Contains, Some, is_some};
ghost use Rattle.std.specs.List.{AllByRecursion};
ghost use Rattle.std.specs.FinMap.{get};
ghost use Rattle.fs_model.specs.declared.node.Node.TheVariants.{Dir};
ghost use Rattle.fs_model.specs.State.{FsState};
ghost use Rattle.fs_model.specs.Trail.{Trail, Goes, Since};
ghost use Rattle.fs_model.specs.WellFormed.{WellFormed};
ghost use Rattle.control_file.specs.declared.job.Job.{Job};
ghost use Rattle.catalog.specs.Cluster.{Cluster};
ghost use Rattle.catalog.specs.Valid.{IsValid};
ghost use Rattle.relation_files.specs.declared.relation.Relation.{Relation};
ghost use Rattle.relation_files.specs.declared.relation.Fork.TheVariants.{Main};
ghost use Rattle.relation_files.specs.Places.{relation_dir, segment_path};
ghost use Rattle.relation_files.specs.Relations.{relations_of};
ghost use Rattle.transfer_plan.specs.declared.plan.PlanItem.{PlanItem};
ghost use Rattle.transfer_plan.specs.Carriable.{CanBeCarried};
ghost use Rattle.relation_map.specs.declared.map.MapEntry.{MapEntry};
ghost use Rattle.relation_map.specs.Pairs.{new_site, entries_of};
ghost use Rattle.plan_build.specs.Planned.{carriages};
ghost use Rattle.plan_build.specs.Plannable.{CanBePlanned, IsPlanOf};
ghost use Rattle.plan_build.specs.Carrying.{HaveSame, SparesRelations, HasOnlyCarried, HasItems, HasCarried, HasRelations, HasFiles, HaveOwnLocations};

/// The plan of a state can be carried out there.
pub fn plans_can_be_carried()
    ensures { (s : FsState) (entries : List MapEntry) (items : List PlanItem) → IsPlanOf s entries items → CanBeCarried s.names items }
{}

/// A plan is of each state that has the same at all names of its relations, and the same files in the old cluster. So it is of
/// each state that calls lead through which make and remove none of these names and change the bytes of no file.
pub fn plans_hold()
    ensures states { (a b : FsState) (entries : List MapEntry) (items : List PlanItem) → AllByRecursion (HaveSame a b) (carriages entries) → IsPlanOf a entries items → IsPlanOf b entries items }
    ensures runs { (a b : Trail) (entries : List MapEntry) (items : List PlanItem) → Goes (SparesRelations (carriages entries)) a b → IsPlanOf a.present entries items → Since (λ s. IsPlanOf s entries items) a b }
{}

/// A plan that is carried out leaves in each new directory exactly the carried files of the old one, and so of each relation
/// of a catalog that both clusters have.
pub fn plans_carry()
    ensures entries { (s x : FsState) (entries : List MapEntry) (items : List PlanItem) → IsPlanOf s entries items → AllByRecursion (HasOnlyCarried s) (carriages entries) → HasItems s x items → AllByRecursion (HasCarried s x) (carriages entries) }
    ensures relations { (job : Job) (catalog : Cluster) (s x : FsState) → IsValid catalog → AllByRecursion (HasCarried s x) (carriages (entries_of job catalog catalog)) → HasRelations job catalog s x }
{}

/// Where both clusters have one catalog, its relations their files, and its tablespaces locations of their own, a plan can be
/// made. The directory of a main file that stands is one.
pub fn plannable_law()
    ensures plannable { (job : Job) (catalog : Cluster) (s : FsState) → IsValid catalog → job.old ≢ job.new → HaveOwnLocations catalog.tablespaces → ((relation : Relation) → Contains (relations_of catalog) relation → HasFiles s job catalog relation) → CanBePlanned s (entries_of job catalog catalog) }
    ensures dirs { (job : Job) (catalog : Cluster) (s : FsState) (relation : Relation) → WellFormed s → is_some (get s.names (segment_path (new_site job catalog) relation Main 0)) ≡ true → get s.names (relation_dir (new_site job catalog) relation) ≡ Some Dir }
{}
