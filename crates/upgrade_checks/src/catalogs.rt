// The conditions on what a server reads: the catalogs of both clusters.
ghost use Rattle.std.specs.Prelude.{◌≡◌, ◌∷◌, [], true, Ok, Err, IfOk, Some, None};
ghost use Rattle.fs_model.specs.State.{FsState};
ghost use Rattle.control_file.specs.declared.job.Job.{Job};
ghost use Rattle.catalog.specs.Cluster.{started};
ghost use Rattle.catalog_server.specs.Profile.{profile_of};
ghost use Rattle.catalog_checks.specs.Limits.{is_too_large};
ghost use Rattle.catalog_checks.specs.Clusters.{has_more_roles};
ghost use Rattle.compat_checks.specs.Order.{CatalogTextIs};
ghost use Rattle.compat_checks.specs.declared.refusal.Refusal.{Refusal};
ghost use Rattle.compat_checks.specs.declared.refusal.Refusal.TheVariants.{TooMany, NewRoles, NewNotEmpty};
ghost use Rattle.upgrade_checks.specs.Findings.{Readings, reading_of, readings_in, refused_if, install_user, connect_flag, reg_column, acl_column, RefusedUnless};
ghost use Rattle.upgrade_checks.specs.Passing.{FindsFirst};
ghost use Rattle.upgrade_checks.specs.Parts.{text_part, owner_part, column_part, catalog_part};
ghost use Rattle.upgrade_checks.specs.Answers.{Tested, HasServerPart, server_failed, refused};

use crate::stop::{Stop, judged_reading};
use catalog::Catalog;
use catalog_checks::{
    first_acl_column, first_reg_column, has_more_roles, install_users_differ, is_started,
    is_too_large, wrong_connections,
};
use catalog_server::Server;
use compat_checks::Refusal;
use control_file::{Job, Release, Side};
use fs_model::{Fs, Path};
use std::alloc::Global;

/// The catalogs of both clusters.
#[derive(Drop)]
pub(crate) struct Catalogs {
    pub old: Catalog,
    pub new: Catalog,
}

// ---- reading them

fn read_catalog<F: Fs, S: Server<F>>(
    alloc: Global,
    server: &mut S,
    fs: &mut F,
    side: Side,
    root: &Path,
    release: Release,
) -> Result<Catalog, Stop>
    ensures tested { (job : Job) (readings : Readings) → (F.told fs.old ≡ true → reading_of readings side ≡ S.catalog_of root.now release (profile_of (F.trail fs.old).present root.now))
        → Tested true job readings (CatalogTextIs side ∷ []) (record { told = F.told fs.old; firm = F.firm fs.old; depth = F.depth fs.old; trail = F.trail fs.old; counts = F.counts fs.old })
        (record { told = F.told fs.new; firm = F.firm fs.new; depth = F.depth fs.new; trail = F.trail fs.new; counts = F.counts fs.new }) result }
    ensures read { F.told fs.old ≡ true → IfOk result (λ c. S.catalog_of root.now release (profile_of (F.trail fs.old).present root.now) ≡ Ok c) }
    ensures server { HasServerPart (server_failed result) (S.counts server.old) (S.counts server.new) }
{
    let answer = server.read_catalog(alloc, fs, root, release);
    judged_reading(side, answer)
}

/// What the server reads of both clusters.
pub(crate) fn read_catalogs<F: Fs, S: Server<F>>(
    alloc: Global,
    server: &mut S,
    fs: &mut F,
    job: &Job,
) -> Result<Catalogs, Stop>
    ensures tested { (readings : Readings) → (F.told fs.old ≡ true → readings ≡ readings_in S.catalog_of (F.trail fs.old).present job.now)
        → Tested true job.now readings text_part (record { told = F.told fs.old; firm = F.firm fs.old; depth = F.depth fs.old; trail = F.trail fs.old; counts = F.counts fs.old })
        (record { told = F.told fs.new; firm = F.firm fs.new; depth = F.depth fs.new; trail = F.trail fs.new; counts = F.counts fs.new }) result }
    ensures read { F.told fs.old ≡ true → IfOk result (λ catalogs. readings_in S.catalog_of (F.trail fs.old).present job.now ≡ record { old = Ok catalogs.old; new = Ok catalogs.new }) }
    ensures server { HasServerPart (server_failed result) (S.counts server.old) (S.counts server.new) }
{
    let old = read_catalog(alloc, server, fs, Side::Old, &job.old, Release::V15)?;
    let new = read_catalog(alloc, server, fs, Side::New, &job.new, Release::V16)?;
    Ok(Catalogs { old, new })
}

// ---- the conditions on them

fn test_limits(old: &Catalog) -> Result<(), Refusal>
    ensures { refused result ≡ refused_if (is_too_large old.now) TooMany }
{
    if is_too_large(old) {
        Err(Refusal::TooMany)
    } else {
        Ok(())
    }
}

fn test_install_users(old: &Catalog, new: &Catalog) -> Result<(), Refusal>
    ensures { refused result ≡ install_user old.now new.now }
{
    if install_users_differ(old, new) {
        Err(Refusal::InstallUser)
    } else {
        Ok(())
    }
}

fn test_roles(new: &Catalog) -> Result<(), Refusal>
    ensures { refused result ≡ refused_if (has_more_roles new.now) NewRoles }
{
    if has_more_roles(new) {
        Err(Refusal::NewRoles)
    } else {
        Ok(())
    }
}

fn test_connections(old: &Catalog) -> Result<(), Refusal>
    ensures { refused result ≡ connect_flag old.now }
{
    match wrong_connections(old) {
        Some(database) => Err(Refusal::ConnectFlag(database)),
        None => Ok(()),
    }
}

fn test_reg_columns(old: &Catalog) -> Result<(), Refusal>
    ensures { refused result ≡ reg_column old.now }
{
    match first_reg_column(old) {
        Some(place) => Err(Refusal::RegColumn(place.database, place.table, place.column)),
        None => Ok(()),
    }
}

fn test_acl_columns(old: &Catalog) -> Result<(), Refusal>
    ensures { refused result ≡ acl_column old.now }
{
    match first_acl_column(old) {
        Some(place) => Err(Refusal::AclColumn(place.database, place.table, place.column)),
        None => Ok(()),
    }
}

fn test_new(new: &Catalog) -> Result<(), Refusal>
    ensures { RefusedUnless (new.now ≡ started new.now.bootstrap) NewNotEmpty (refused result) }
{
    if is_started(new) {
        Ok(())
    } else {
        Err(Refusal::NewNotEmpty)
    }
}

fn test_owners(old: &Catalog, new: &Catalog) -> Result<(), Refusal>
    ensures { (s : FsState) (job : Job) → FindsFirst s job (record { old = Ok old.now; new = Ok new.now }) owner_part (refused result) }
{
    test_limits(old)?;
    test_install_users(old, new)?;
    test_roles(new)
}

fn test_columns(old: &Catalog, new: &Catalog) -> Result<(), Refusal>
    ensures { (s : FsState) (job : Job) → FindsFirst s job (record { old = Ok old.now; new = Ok new.now }) column_part (refused result) }
{
    test_connections(old)?;
    test_reg_columns(old)?;
    test_acl_columns(old)?;
    test_new(new)
}

/// The conditions on both catalogs.
pub(crate) fn test_catalogs(old: &Catalog, new: &Catalog) -> Result<(), Refusal>
    ensures { (s : FsState) (job : Job) → FindsFirst s job (record { old = Ok old.now; new = Ok new.now }) catalog_part (refused result) }
{
    test_owners(old, new)?;
    test_columns(old, new)
}
