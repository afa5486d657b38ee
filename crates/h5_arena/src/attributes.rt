//! Attributes of a node: their values, and adding missing ones.
ghost use Rattle.std.specs.Prelude.{◌≡◌, OnOk, OnErr, option_copied, take, vec_len};
ghost use Rattle.std.specs.Option.{ForSome};
ghost use Rattle.std.specs.List.{list_any};
ghost use Rattle.h5_names.specs.AttributeText.{attribute_texts, is_same_name};
ghost use Rattle.h5_interface.specs.Changes.{with_missing};
ghost use Rattle.h5_arena.specs.ArenaModel.{value_of};
ghost use Rattle.h5_arena.specs.AttributeNames.{AreNames};

use h5_names::{Attribute, Namespace, QualName};
use std::alloc::AllocError;
use std::collections::BTreeSet;

// The value of the first attribute with this local name and no namespace.
pub(crate) fn value_of<'a>(attrs: &'a [Attribute], local: &str) -> Option<&'a str>
    ensures { option_copied result ≡ value_of local.now (attribute_texts attrs.now) }
{
    for attribute in attrs {
        if attribute.name.ns == Namespace::none() && attribute.name.local.as_str() == local {
            return Some(attribute.value.as_str());
        }
    }
    None
}

// Returns true if one of these attributes has this name. Uses the set of their names, if there is one.
fn has_name(attrs: &[Attribute], names: Option<&BTreeSet<QualName>>, name: &QualName) -> bool
    requires { ForSome (option_copied names) (λ found. AreNames found (attribute_texts attrs.now)) }
    ensures { result ≡ list_any (λ a. is_same_name a.name name.now) attrs.now }
{
    match names {
        Some(names) => names.contains(name),
        None => attrs.iter().any(|attribute| attribute.name == *name),
    }
}

// Adds the attributes whose names are missing; `names` may have the names that are present. If it fails, the attributes are unchanged.
pub(crate) fn add_missing(
    attrs: &mut Vec<Attribute>,
    names: Option<&BTreeSet<QualName>>,
    more: Vec<Attribute>,
) -> Result<(), AllocError>
    requires { ForSome (option_copied names) (λ found. AreNames found (attribute_texts attrs.old.items)) }
    ensures ok { OnOk result
        (attribute_texts attrs.new.items ≡ with_missing (attribute_texts more.items) (attribute_texts attrs.old.items)) }
    ensures err { OnErr result (attrs.new.items ≡ attrs.old.items) }
    ensures first { OnOk result (take (vec_len attrs.old) attrs.new.items ≡ attrs.old.items) }
{
    let had = attrs.len();
    for attribute in more {
        if !has_name(&attrs[..had], names, &attribute.name) {
            if let Err(refused) = attrs.push(attribute) {
                attrs.truncate(had);
                return Err(AllocError::from(refused));
            }
        }
    }
    Ok(())
}
