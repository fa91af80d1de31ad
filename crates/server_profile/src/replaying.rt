// Replaying a text: what it makes of the files.
ghost use Rattle.std.specs.Prelude.{◌≡◌, ◌++◌, ◌∷◌, [], List, ℕ, true, Some, None, Ok, Err, OnOk};
ghost use Rattle.fs_model.specs.Trail.{Goes, Unchanged, DecidedBy, HasCause, error_of};
ghost use Rattle.catalog.specs.Cluster.{Cluster};
ghost use Rattle.new_names.specs.Frame.{MakesListed};
ghost use Rattle.new_names.specs.Room.{HasRoomFor};
ghost use Rattle.new_names.specs.Standing.{AllStand};
ghost use Rattle.new_names.specs.declared.names.NewNode.TheVariants.{File};
ghost use Rattle.catalog_server.specs.Profile.{profile_of, catalog_path, seen_at, FileSeen};
ghost use Rattle.catalog_server.specs.ReplayNames.{new_names, listed_names};
ghost use Rattle.catalog_server.specs.ServerFrame.{ReplayCalls};
ghost use Rattle.catalog_server.specs.Replayed.{replayed, replayed_over};
ghost use Rattle.catalog_server.specs.Answers.{server_error_of, files_error, IfText, OnText, IsUnrefused};
ghost use Rattle.server_profile.specs.Reading.{text_of, catalog_in, IsUnfailed, IsPlain};

use crate::plan::{Plan, plan_of};
use crate::reading::{catalog_path, read_text};
use catalog_server::ServerError;
use control_file::Release;
use fs_model::{Fs, FsError, Path};
use new_names::{make_names, remake_file};
use std::alloc::Global;

// Makes the names of a plan, and the catalog text anew.
fn carry_out<F: Fs>(fs: &mut F, at: &Path, plan: &Plan) -> Result<(), FsError>
    ensures told { F.told fs.new ≡ F.told fs.old }
    ensures firm { F.firm fs.new ≡ F.firm fs.old }
    ensures calls { F.told fs.old ≡ true → Goes (MakesListed (plan.now.names.items ++ record { path = at.now; node = File plan.now.text.items } ∷ []) (F.trail fs.old).present) (F.trail fs.old) (F.trail fs.new) }
    ensures unrefused { F.told fs.old ≡ true → (found : List ℕ) → seen_at (F.trail fs.old).present at.now ≡ Some (FileSeen found) → HasRoomFor (F.trail fs.old).present plan.now.names.items → DecidedBy None result }
    ensures stands { F.told fs.old ≡ true → (found : List ℕ) → seen_at (F.trail fs.old).present at.now ≡ Some (FileSeen found) → OnOk result (AllStand (F.trail fs.new).present (plan.now.names.items ++ record { path = at.now; node = File plan.now.text.items } ∷ [])) }
    ensures written { F.told fs.old ≡ true → OnOk result (seen_at (F.trail fs.new).present at.now ≡ Some (FileSeen plan.now.text.items)) }
    ensures cause { HasCause (F.firm fs.old) (F.counts fs.old) (F.counts fs.new) (error_of result) }
{
    make_names(fs, &plan.names)?;
    remake_file(fs, at, &plan.text)
}

fn file_error(error: FsError) -> ServerError
    ensures { result ≡ Rattle.server_profile.specs.Reading.server_error error }
{
    match error {
        FsError::OutOfMemory => ServerError::OutOfMemory,
        error => ServerError::Fs(error),
    }
}

/// Replays a text over the catalog of the cluster at a root.
pub(crate) fn replay_profile<F: Fs>(
    alloc: Global,
    fs: &mut F,
    root: &Path,
    release: Release,
    text: &[u8],
) -> Result<(), ServerError>
    ensures told { F.told fs.new ≡ F.told fs.old }
    ensures firm { F.firm fs.new ≡ F.firm fs.old }
    ensures calls { F.told fs.old ≡ true → Goes (ReplayCalls root.now release (catalog_in (text_of (profile_of (F.trail fs.old).present root.now))) text.now (F.trail fs.old).present) (F.trail fs.old) (F.trail fs.new) }
    ensures unrefused { F.told fs.old ≡ true → (before after : Cluster) → catalog_in (text_of (profile_of (F.trail fs.old).present root.now)) ≡ Ok before → replayed before text.now ≡ Ok after → HasRoomFor (F.trail fs.old).present (new_names root.now release before after) → IsUnrefused result }
    ensures replayed { F.told fs.old ≡ true → OnOk result ((c : Cluster) × (replayed_over (catalog_in (text_of (profile_of (F.trail fs.old).present root.now))) text.now ≡ Ok c) × (catalog_in (text_of (profile_of (F.trail fs.new).present root.now)) ≡ Ok c)) }
    ensures made { F.told fs.old ≡ true → OnOk result ((before after : Cluster) → catalog_in (text_of (profile_of (F.trail fs.old).present root.now)) ≡ Ok before → replayed before text.now ≡ Ok after → AllStand (F.trail fs.new).present (listed_names root.now release before after)) }
    ensures text { F.told fs.old ≡ true → IfText result (λ e. replayed_over (catalog_in (text_of (profile_of (F.trail fs.old).present root.now))) text.now ≡ Err e) }
    ensures unchanged { F.told fs.old ≡ true → OnText result (Unchanged (F.trail fs.old) (F.trail fs.new)) }
    ensures unfailed { IsUnfailed result }
    ensures plain { IsPlain result }
    ensures cause { HasCause (F.firm fs.old) (F.counts fs.old) (F.counts fs.new) (files_error (server_error_of result)) }
{
    let at = catalog_path(root)?;
    let standing = read_text(alloc, fs, root)?;
    let plan = plan_of(alloc, root, release, &standing, text)?;
    match carry_out(fs, &at, &plan) {
        Ok(()) => Ok(()),
        Err(error) => Err(file_error(error)),
    }
}
