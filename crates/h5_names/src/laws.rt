//! Laws of names and attributes. Each is the contract of a function that does nothing.
ghost use Rattle.std.specs.Prelude.{◌≡◌, ◌↔◌, ◌++◌, ℕ, List, IsTrue};
ghost use Rattle.std.specs.Cmp.Lexicographic.{slice_cmp};
ghost use Rattle.std.specs.Hash as fed;
ghost use Rattle.std.specs.Ordering.{nat_cmp, ordering_then};
ghost use Rattle.std.specs.declared.cmp.Ordering.{Ordering};
ghost use Rattle.h5_names.specs.AttributeText.{AttributeText, attribute_text, is_same_name, is_same_attribute};
ghost use Rattle.h5_names.specs.Laws.{AgreeOn, AreOfTexts, HashAgreesOn, attribute_input, attribute_order, name_input, name_order, text_order};

use super::{Attribute, ExpandedName, LocalName, Namespace, Prefix, QualName};
use std::cmp::Ordering;
use std::hash::Hash;

/// Two local names, namespaces or prefixes are equal exactly if their texts are. They are ordered by their texts, byte by byte.
pub fn names_compare_as_their_texts()
    ensures local_names { AreOfTexts ⟦<LocalName as PartialEq>⟧.eq ⟦<LocalName as Ord>⟧.cmp }
    ensures namespaces { AreOfTexts ⟦<Namespace as PartialEq>⟧.eq ⟦<Namespace as Ord>⟧.cmp }
    ensures prefixes { AreOfTexts ⟦<Prefix as PartialEq>⟧.eq ⟦<Prefix as Ord>⟧.cmp }
{}

/// Qualified names, expanded names and attributes are ordered by their texts: by prefix (none before any), then namespace, then local name,
/// and attributes then by value. Expanded names have no prefix.
pub fn parts_are_ordered_as_their_texts()
    ensures qual_names { (x y : QualName) → ⟦<QualName as Ord>⟧.cmp x y ≡ name_order x y }
    ensures expanded_names { (x y : ExpandedName) → ⟦<ExpandedName<'static> as Ord>⟧.cmp x y
        ≡ ordering_then (text_order x.ns.now y.ns.now) (text_order x.local.now y.local.now) }
    ensures attributes { (x y : Attribute) → ⟦<Attribute as Ord>⟧.cmp x y
        ≡ attribute_order (attribute_text x) (attribute_text y) }
{}

/// `Hash` feeds a hasher the texts of a name or an attribute, in the order of its parts.
pub fn texts_are_what_is_hashed()
    ensures local_names { (x : List ℕ) → ⟦<LocalName as Hash>⟧.hash_input x ≡ fed.str x }
    ensures namespaces { (x : List ℕ) → ⟦<Namespace as Hash>⟧.hash_input x ≡ fed.str x }
    ensures prefixes { (x : List ℕ) → ⟦<Prefix as Hash>⟧.hash_input x ≡ fed.str x }
    ensures qual_names { (x : QualName) → ⟦<QualName as Hash>⟧.hash_input x ≡ name_input x }
    ensures expanded_names { (x : ExpandedName) → ⟦<ExpandedName<'static> as Hash>⟧.hash_input x
        ≡ fed.str x.ns.now ++ fed.str x.local.now }
    ensures attributes { (x : Attribute) → ⟦<Attribute as Hash>⟧.hash_input x
        ≡ attribute_input (attribute_text x) }
{}

/// Two expanded names are equal exactly if their namespaces and local names are.
pub fn expanded_names_are_equal_as_their_parts()
    ensures { (x y : ExpandedName) → IsTrue (⟦<ExpandedName<'static> as PartialEq>⟧.eq x y)
        ↔ ((x.ns.now ≡ y.ns.now) × (x.local.now ≡ y.local.now)) }
{}

/// Two qualified names are equal exactly if their prefixes, namespaces and local names are; two
/// attributes exactly if their names and values are.
pub fn names_are_equal_as_their_parts()
    ensures qual_names { (x y : QualName) → IsTrue (⟦<QualName as PartialEq>⟧.eq x y) ↔ (x ≡ y) }
    ensures attributes { (x y : Attribute) →
        IsTrue (⟦<Attribute as PartialEq>⟧.eq x y) ↔ (attribute_text x ≡ attribute_text y) }
    // The definitions test equality as the code does; two attributes are equal by that test exactly if their texts are.
    ensures names_test { (x y : QualName) → ⟦<QualName as PartialEq>⟧.eq x y ≡ is_same_name x y }
    ensures attributes_test { (x y : Attribute) →
        ⟦<Attribute as PartialEq>⟧.eq x y ≡ is_same_attribute (attribute_text x) (attribute_text y) }
    ensures same_attribute { (x y : AttributeText) → IsTrue (is_same_attribute x y) ↔ (x ≡ y) }
{}

/// `Eq` and `Ord` agree: two values are equal exactly if neither is less than the other.
pub fn order_agrees_with_equality()
    ensures local_names { AgreeOn ⟦<LocalName as PartialEq>⟧.eq ⟦<LocalName as Ord>⟧.cmp }
    ensures namespaces { AgreeOn ⟦<Namespace as PartialEq>⟧.eq ⟦<Namespace as Ord>⟧.cmp }
    ensures prefixes { AgreeOn ⟦<Prefix as PartialEq>⟧.eq ⟦<Prefix as Ord>⟧.cmp }
    ensures qual_names { AgreeOn ⟦<QualName as PartialEq>⟧.eq ⟦<QualName as Ord>⟧.cmp }
    ensures attributes { AgreeOn ⟦<Attribute as PartialEq>⟧.eq ⟦<Attribute as Ord>⟧.cmp }
    ensures expanded_names { AgreeOn ⟦<ExpandedName<'static> as PartialEq>⟧.eq ⟦<ExpandedName<'static> as Ord>⟧.cmp }
{
    agree_at::<LocalName>();
    agree_at::<Namespace>();
    agree_at::<Prefix>();
    agree_at::<QualName>();
    agree_at::<Attribute>();
    agree_at::<ExpandedName<'static>>();
}

// The agreement that `Ord` promises for any type.
fn agree_at<T: Ord>()
    ensures { AgreeOn T.eq T.cmp }
{}

/// `Hash` agrees with `Eq`: equal values have the same hash input.
pub fn hashes_agree_with_equality()
    ensures local_names { HashAgreesOn ⟦<LocalName as PartialEq>⟧.eq ⟦<LocalName as Hash>⟧.hash_input }
    ensures namespaces { HashAgreesOn ⟦<Namespace as PartialEq>⟧.eq ⟦<Namespace as Hash>⟧.hash_input }
    ensures prefixes { HashAgreesOn ⟦<Prefix as PartialEq>⟧.eq ⟦<Prefix as Hash>⟧.hash_input }
    ensures qual_names { HashAgreesOn ⟦<QualName as PartialEq>⟧.eq ⟦<QualName as Hash>⟧.hash_input }
    ensures attributes { HashAgreesOn ⟦<Attribute as PartialEq>⟧.eq ⟦<Attribute as Hash>⟧.hash_input }
    ensures expanded_names { HashAgreesOn ⟦<ExpandedName<'static> as PartialEq>⟧.eq ⟦<ExpandedName<'static> as Hash>⟧.hash_input }
{}
