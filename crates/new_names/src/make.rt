// Making listed names in a file system.
ghost use Rattle.std.specs.Prelude.{◌≡◌, List, true, None, OnOk};
ghost use Rattle.std.specs.List.{Contains};
ghost use Rattle.std.specs.FinMap.{get};
ghost use Rattle.fs_model.specs.WellFormed.{WellFormed};
ghost use Rattle.fs_model.specs.Calls.{Creates, Unlinks, refusal};
ghost use Rattle.fs_model.specs.Trail.{Goes, DecidedBy, HasCause, error_of};
ghost use Rattle.new_names.specs.declared.names.NewName.{NewName as AName};
ghost use Rattle.new_names.specs.declared.names.NewNode.TheVariants.{File};
ghost use Rattle.new_names.specs.Frame.{IsListed, MakesListed};
ghost use Rattle.new_names.specs.Room.{HasRoomFor};
ghost use Rattle.new_names.specs.Standing.{Makes, Adds, AllStand, Remakes};

use crate::{NewName, NewNode};
use fs_model::{Fs, FsError, Path};
use fs_tools::make_file;

// One name. Refuses as `create` does.
fn make_name<F: Fs>(fs: &mut F, path: &Path, node: &NewNode) -> Result<(), FsError>
    ensures told { F.told fs.new ≡ F.told fs.old }
    ensures firm { F.firm fs.new ≡ F.firm fs.old }
    ensures calls { F.told fs.old ≡ true → (listed : List AName) → IsListed listed path.now node.now → Goes (MakesListed listed (F.trail fs.old).present) (F.trail fs.old) (F.trail fs.new) }
    ensures well_formed { F.told fs.old ≡ true → WellFormed (F.trail fs.old).present }
    ensures decided { F.told fs.old ≡ true → DecidedBy (refusal (F.trail fs.old).present (Creates path.now)) result }
    ensures made { F.told fs.old ≡ true → OnOk result (Makes (F.trail fs.old).present path.now node.now (F.trail fs.new).present) }
    ensures cause { HasCause (F.firm fs.old) (F.counts fs.old) (F.counts fs.new) (error_of result) }
{
    // It says that the state is well-formed.
    let _ = fs.moment();
    match node {
        NewNode::Dir => fs.make_dir(path),
        NewNode::File(bytes) => make_file(fs, path, bytes.bytes()),
        NewNode::Sym(target) => fs.make_symlink(path, target),
    }
}

/// Makes the names in turn, each in a directory that stands by then. After an error some of the first stand, and perhaps
/// the next, a file with any bytes.
pub fn make_names<F: Fs>(fs: &mut F, names: &[NewName]) -> Result<(), FsError>
    ensures told { F.told fs.new ≡ F.told fs.old }
    ensures firm { F.firm fs.new ≡ F.firm fs.old }
    ensures calls { F.told fs.old ≡ true → (listed : List AName) → ((name : AName) → Contains names.now name → Contains listed name) → Goes (MakesListed listed (F.trail fs.old).present) (F.trail fs.old) (F.trail fs.new) }
    ensures unrefused { F.told fs.old ≡ true → HasRoomFor (F.trail fs.old).present names.now → DecidedBy None result }
    ensures stands { F.told fs.old ≡ true → OnOk result (AllStand (F.trail fs.new).present names.now) }
    ensures were_absent { F.told fs.old ≡ true → OnOk result ((name : AName) → Contains names.now name → get (F.trail fs.old).present.names name.path ≡ None) }
    ensures adds { F.told fs.old ≡ true → OnOk result (Adds (F.trail fs.old).present (F.trail fs.new).present) }
    ensures cause { HasCause (F.firm fs.old) (F.counts fs.old) (F.counts fs.new) (error_of result) }
{
    for name in names {
        make_name(fs, &name.path, &name.node)?;
    }
    Ok(())
}

/// Removes a file's name and makes it anew with these bytes, in a new inode. After an error the name may be gone, or stand
/// for a file with any bytes. Refuses as `unlink` does.
pub fn remake_file<F: Fs>(fs: &mut F, at: &Path, bytes: &[u8]) -> Result<(), FsError>
    ensures told { F.told fs.new ≡ F.told fs.old }
    ensures firm { F.firm fs.new ≡ F.firm fs.old }
    ensures calls { F.told fs.old ≡ true → (listed : List AName) → IsListed listed at.now (File bytes.now) → Goes (MakesListed listed (F.trail fs.old).present) (F.trail fs.old) (F.trail fs.new) }
    ensures well_formed { F.told fs.old ≡ true → WellFormed (F.trail fs.old).present }
    ensures decided { F.told fs.old ≡ true → DecidedBy (refusal (F.trail fs.old).present (Unlinks at.now)) result }
    ensures remade { F.told fs.old ≡ true → OnOk result (Remakes (F.trail fs.old).present at.now bytes.now (F.trail fs.new).present) }
    ensures cause { HasCause (F.firm fs.old) (F.counts fs.old) (F.counts fs.new) (error_of result) }
{
    // It says that the state is well-formed.
    let _ = fs.moment();
    fs.unlink(at)?;
    make_file(fs, at, bytes)
}
