ghost use Rattle.std.specs.Prelude.{◌≡◌, ◌<◌, ◌^◌, ◌||◌, true, nat_eq, nat_lt};
ghost use Rattle.std.specs.List.{list_any, list_all};
ghost use Rattle.catalog.specs.Lists.{are_distinct};
ghost use Rattle.catalog.specs.Refusals.{first_cause, is_system_number};
ghost use Rattle.catalog.specs.Forms.{is_32_bits};

use crate::error::CatalogError;

// OIDs and file numbers below it belong to the system.
const FIRST_USER_NUMBER: u32 = 16384;

// The first of the causes that hold.
#[tactic(auto, unfolding(crate::specs::Refusals::first_cause))]
pub(crate) fn first_cause(
    no_such: bool,
    too_many: bool,
    oid_taken: bool,
    name_taken: bool,
    file_taken: bool,
) -> Option<CatalogError>
    ensures { result ≡ first_cause no_such too_many oid_taken name_taken file_taken }
{
    if no_such {
        Some(CatalogError::NoSuch)
    } else if too_many {
        Some(CatalogError::TooMany)
    } else if oid_taken {
        Some(CatalogError::OidTaken)
    } else if name_taken {
        Some(CatalogError::NameTaken)
    } else if file_taken {
        Some(CatalogError::FileTaken)
    } else {
        None
    }
}

pub(crate) fn is_system_number(number: u32) -> bool
    ensures { result ≡ is_system_number number }
{
    number < FIRST_USER_NUMBER
}

pub(crate) fn has_system_number(numbers: &[u32]) -> bool
    ensures { result ≡ list_any is_system_number numbers.now }
{
    numbers.iter().any(|number| *number < FIRST_USER_NUMBER)
}

pub(crate) fn is_among(numbers: &[u32], number: u32) -> bool
    ensures { result ≡ list_any (nat_eq number) numbers.now }
{
    numbers.iter().any(|other| number == *other)
}

// Whether no two of the numbers are equal.
pub(crate) fn are_distinct(numbers: &[u32]) -> bool
    ensures { result ≡ are_distinct nat_eq numbers.now }
{
    let mut rest = numbers;
    while let Some((first, others)) = rest.split_first() {
        if is_among(others, *first) {
            return false;
        }
        rest = others;
    }
    true
}

// The numbers have 32 bits.
pub(crate) fn fit(numbers: &[u32])
    ensures { list_all is_32_bits numbers.now ≡ true }
{
    for number in numbers {
        let _ = *number;
    }
}

// A number has 32 bits.
pub(crate) fn fits(number: u32)
    ensures { is_32_bits number ≡ true }
{
    let _ = number;
}
