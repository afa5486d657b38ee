//! Compares two lists of attributes up to their order.
ghost use Rattle.std.specs.Prelude.{◌≡◌, ◌==◌, ◌↔◌, IfOk, IsTrue, min};
ghost use Rattle.std.specs.List.{list_all, sum_by};
ghost use Rattle.std.specs.List.Sorted.{IsPermutation, IsSorted};
ghost use Rattle.h5_names.specs.AttributeText.{attribute_text, attribute_texts};
ghost use Rattle.h5_names.specs.Laws.{attribute_order};
ghost use Rattle.h5_token.specs.Lent.{attribute_len, lent_texts};
ghost use Rattle.h5_token.specs.Occurrences.{occurrences, HaveSameAttributes};

use h5_names::Attribute;
use std::alloc::{AllocError, Global};

// Shorter lists are compared by counting, which takes no memory; longer ones by sorting.
const FEW: usize = 9;

// The number of times that an attribute occurs in a list.
fn occurrences_of(attribute: &Attribute, attrs: &[Attribute]) -> usize
    ensures { result ≡ occurrences (attribute_text attribute.now) (attribute_texts attrs.now) }
{
    attrs.iter().filter(|other| **other == *attribute).count()
}

// Returns true if each of `these` attributes occurs in both lists equally often.
fn each_is_as_often(these: &[Attribute], left: &[Attribute], right: &[Attribute]) -> bool
    ensures { result ≡ list_all (λ x. occurrences (attribute_text x) (attribute_texts left.now)
        == occurrences (attribute_text x) (attribute_texts right.now)) these.now }
{
    these.iter().all(|attribute| occurrences_of(attribute, left)
        == occurrences_of(attribute, right))
}

// Compares by counting: reads both lists once per attribute.
fn have_same_counts(left: &[Attribute], right: &[Attribute]) -> bool
    ensures { IsTrue result ↔ HaveSameAttributes (attribute_texts left.now) (attribute_texts right.now) }
{
    each_is_as_often(left, left, right) && each_is_as_often(right, left, right)
}

// The length of the local name and the value, in bytes.
fn text_len(attribute: &Attribute) -> usize
    ensures { result ≡ min (attribute_len (attribute_text attribute.now)) usize.MAX }
{
    let name = attribute.name.local.as_str();
    name.len().saturating_add(attribute.value.len())
}

// The length of all local names and values of a list, in bytes.
fn texts_len(attrs: &[Attribute]) -> usize
    ensures { result ≡ min (sum_by attribute_len (attribute_texts attrs.now)) usize.MAX }
{
    let mut len: usize = 0;
    for attribute in attrs {
        len = len.saturating_add(text_len(attribute));
    }
    len
}

// The attributes of a list, borrowed.
fn lent(alloc: Global, attrs: &[Attribute]) -> Result<Vec<&Attribute>, AllocError>
    ensures { IfOk result (λ all. lent_texts all.items ≡ attribute_texts attrs.now) }
{
    attrs.iter().collect(alloc)
}

// The attributes of a list, sorted by name, then by value.
pub(super) fn in_order(alloc: Global, attrs: &[Attribute]) -> Result<Vec<&Attribute>, AllocError>
    ensures all { IfOk result (λ sorted. IsPermutation (attribute_texts attrs.now) (lent_texts sorted.items)) }
    ensures sorted { IfOk result (λ sorted. IsSorted attribute_order (lent_texts sorted.items)) }
{
    let mut sorted = lent(alloc, attrs)?;
    sorted.sort_unstable();
    Ok(sorted)
}

// Compares by sorting both lists.
fn are_equal_in_order(
    alloc: Global,
    left: &[Attribute],
    right: &[Attribute],
) -> Result<bool, AllocError>
    ensures { IfOk result (λ same.
        IsTrue same ↔ HaveSameAttributes (attribute_texts left.now) (attribute_texts right.now)) }
{
    let left = in_order(alloc, left)?;
    let right = in_order(alloc, right)?;
    Ok(left == right)
}

// Returns true if two lists have the same attributes, in any order. If an allocation fails, compares by counting.
pub(super) fn have_same_attributes(alloc: Global, left: &[Attribute], right: &[Attribute]) -> bool
    ensures { IsTrue result ↔ HaveSameAttributes (attribute_texts left.now) (attribute_texts right.now) }
{
    if left == right {
        return true;
    }
    if left.len() != right.len() {
        return false;
    }
    // Avoids comparing long texts with short ones.
    if texts_len(left) != texts_len(right) {
        return false;
    }
    if left.len() >= FEW {
        if let Ok(same) = are_equal_in_order(alloc, left, right) {
            return same;
        }
    }
    have_same_counts(left, right)
}
