// What the clusters have besides their relations: the users who made them, roles, and whether databases may be connected to.
ghost use Rattle.std.specs.Prelude.{◌≡◌, ◌≢◌, ◌↔◌, IsTrue};
ghost use Rattle.catalog_checks.specs.Clusters.{is_added_role, has_more_roles, has_wrong_connections, wrong_connections};

use catalog::{Catalog, Database, Role};

// The database that new ones are not made from, which nobody may connect to: `Template0DbOid` of `catalog/pg_database.dat`.
const TEMPLATE0: u32 = 4;

// The role that made the cluster, `BOOTSTRAP_SUPERUSERID` of `catalog/pg_authid.dat`.
const BOOTSTRAP_ROLE: u32 = 10;

/// Whether the two clusters were made by roles of different names (`check_is_install_user` of `pg_upgrade/check.c`).
pub fn install_users_differ(old: &Catalog, new: &Catalog) -> bool
    ensures { IsTrue result ↔ (old.now.bootstrap ≢ new.now.bootstrap) }
{
    old.bootstrap().bytes() != new.bootstrap().bytes()
}

fn is_added_role(role: &Role) -> bool
    ensures { result ≡ is_added_role role.now }
{
    role.oid != BOOTSTRAP_ROLE
}

/// Whether a cluster has a role besides the one that made it (`check_is_install_user`).
pub fn has_more_roles(catalog: &Catalog) -> bool
    ensures { result ≡ has_more_roles catalog.now }
{
    let count = catalog.role_count();
    for i in 0..count {
        match catalog.role_at(i) {
            None => return false,
            Some(role) => {
                if is_added_role(role) {
                    return true;
                }
            }
        }
    }
    false
}

pub(crate) fn has_wrong_connections(database: &Database) -> bool
    ensures { result ≡ has_wrong_connections database.now }
{
    if database.oid == TEMPLATE0 {
        database.connections
    } else {
        !database.connections
    }
}

/// The OID of the first database, in the catalog's order, that is `template0` and may be connected to, or another one and may
/// not (`check_proper_datallowconn` of `pg_upgrade/check.c`).
pub fn wrong_connections(catalog: &Catalog) -> Option<u32>
    ensures { result ≡ wrong_connections catalog.now }
{
    let count = catalog.database_count();
    for i in 0..count {
        match catalog.database_at(i) {
            None => return None,
            Some(database) => {
                if has_wrong_connections(database) {
                    return Some(database.oid);
                }
            }
        }
    }
    None
}
