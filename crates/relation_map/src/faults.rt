// What is wrong with the pairs of a database.
ghost use Rattle.std.specs.Prelude.{◌≡◌, ℕ, Some, None, IfSome, IfNone};
ghost use Rattle.std.specs.Option.{option_copied};
ghost use Rattle.relation_map.specs.Named.{same_named};
ghost use Rattle.relation_map.specs.Pairs.{fault_between, fault_among, lesser, least_fault, IsLeastFault};

use crate::error::MapError;
use crate::named::Named;
use crate::relations::Relations;
use control_file::Side;

fn are_same_named(old: &Named, new: &Named) -> bool
    ensures { result ≡ same_named old.now new.now }
{
    old.schema.bytes() == new.schema.bytes() && old.name.bytes() == new.name.bytes()
}

// Why these two relations of one OID are no pair, if they are none.
fn fault_between(
    database: u32,
    oid: u32,
    old: Option<&Named>,
    new: Option<&Named>,
) -> Option<MapError>
    ensures { result ≡ fault_between database oid (option_copied old.entry) (option_copied new.entry) }
{
    match (old, new) {
        (None, None) => None,
        (Some(_), None) => Some(MapError::Unmatched(database, oid, Side::Old)),
        (None, Some(_)) => Some(MapError::Unmatched(database, oid, Side::New)),
        (Some(old), Some(new)) => {
            if are_same_named(old, new) {
                None
            } else {
                Some(MapError::NameDiffers(database, oid))
            }
        }
    }
}

// Why the relations of that OID are no pair, if they are none.
fn fault_at(database: u32, old: &Relations, new: &Relations, oid: u32) -> Option<MapError>
    ensures { result ≡ fault_among database old.now new.now oid }
{
    fault_between(database, oid, old.of(oid), new.of(oid))
}

// The lesser of the least OID so far and this one, where it has a fault.
fn lesser(least: Option<u32>, oid: u32, has_fault: bool) -> Option<u32>
    ensures { result ≡ lesser least oid has_fault }
{
    match least {
        None if has_fault => Some(oid),
        Some(found) if has_fault && oid < found => Some(oid),
        _ => least,
    }
}

// The least OID with a fault, of these relations and so far.
fn least_fault(
    database: u32,
    old: &Relations,
    new: &Relations,
    relations: &Relations,
    so_far: Option<u32>,
) -> Option<u32>
    ensures { result ≡ least_fault (fault_among database old.now new.now) relations.now so_far }
{
    let mut least = so_far;
    let count = relations.count();
    for i in 0..count {
        match relations.at(i) {
            None => return least,
            Some(named) => {
                let fault = fault_at(database, old, new, named.oid);
                least = lesser(least, named.oid, fault.is_some());
            }
        }
    }
    least
}

/// The fault of the least OID that has one.
pub(crate) fn first_fault(database: u32, old: &Relations, new: &Relations) -> Option<MapError>
    ensures none { IfNone result ((oid : ℕ) → fault_among database old.now new.now oid ≡ None) }
    ensures least { IfSome result (λ error. IsLeastFault (fault_among database old.now new.now) error) }
{
    let of_old = least_fault(database, old, new, old, None);
    match least_fault(database, old, new, new, of_old) {
        None => None,
        Some(oid) => fault_at(database, old, new, oid),
    }
}
