// Tests over the labels of an enum.
ghost use Rattle.std.specs.Prelude.{◌≡◌, true, nat_eq};
ghost use Rattle.std.specs.List.{list_any, list_all};
ghost use Rattle.catalog.specs.Lists.{are_distinct};
ghost use Rattle.catalog.specs.Refusals.{is_system_number};
ghost use Rattle.catalog.specs.Forms.{is_32_bits, is_long, same_text};

use crate::causes::{fits, is_system_number};
use crate::enums::Label;

// A label's text has at most so many bytes, as `NAMEDATALEN` allows.
const LABEL_BYTES: usize = 63;

pub(crate) fn is_long(label: &Label) -> bool
    ensures { result ≡ is_long label.now }
{
    label.text.bytes().len() > LABEL_BYTES
}

pub(crate) fn has_long_label(labels: &[Label]) -> bool
    ensures { result ≡ list_any is_long labels.now }
{
    labels.iter().any(is_long)
}

pub(crate) fn labels_have_system_oid(labels: &[Label]) -> bool
    ensures { result ≡ list_any (λ l. is_system_number l.oid) labels.now }
{
    labels.iter().any(|label| is_system_number(label.oid))
}

fn has_oid(labels: &[Label], oid: u32) -> bool
    ensures { result ≡ list_any (λ l. nat_eq oid l.oid) labels.now }
{
    labels.iter().any(|label| oid == label.oid)
}

// Whether no two of the labels have one OID.
pub(crate) fn label_oids_differ(labels: &[Label]) -> bool
    ensures { result ≡ are_distinct (λ a b. nat_eq a.oid b.oid) labels.now }
{
    let mut rest = labels;
    while let Some((first, others)) = rest.split_first() {
        if has_oid(others, first.oid) {
            return false;
        }
        rest = others;
    }
    true
}

pub(crate) fn has_text(labels: &[Label], label: &Label) -> bool
    ensures { result ≡ list_any (same_text label.now) labels.now }
{
    labels
        .iter()
        .any(|other| label.text.bytes() == other.text.bytes())
}

// Whether no two of the labels have one text.
pub(crate) fn label_texts_differ(labels: &[Label]) -> bool
    ensures { result ≡ are_distinct same_text labels.now }
{
    let mut rest = labels;
    while let Some((first, others)) = rest.split_first() {
        if has_text(others, first) {
            return false;
        }
        rest = others;
    }
    true
}

// The OIDs of the labels have 32 bits.
pub(crate) fn label_oids_fit(labels: &[Label])
    ensures { list_all (λ l. is_32_bits l.oid) labels.now ≡ true }
{
    for label in labels {
        fits(label.oid);
    }
}
