//! Keys of tags: tags that are alike have equal keys.
ghost use Rattle.std.specs.Prelude.{◌≡◌, ◌++◌, IfOk, OnOk};
ghost use Rattle.std.specs.String.{string_bytes};
ghost use Rattle.h5_names.specs.AttributeText.{attribute_text};
ghost use Rattle.h5_token.specs.Keys.{IsKeyOf, attribute_key};
ghost use Rattle.h5_token.specs.TokenText.{tag_text};

use super::alike::in_order;
use super::tag::Tag;
use h5_names::Attribute;
use std::alloc::AllocError;

// No name or value in a document has a NUL, so different attributes of documents have different keys.
const SEPARATOR: &str = "\0";

// Appends the part of an attribute to a key.
fn write_attribute(key: &mut String, attribute: &Attribute) -> Result<(), AllocError>
    ensures { OnOk result (string_bytes key.new ≡ string_bytes key.old ++ attribute_key (attribute_text attribute.now)) }
{
    key.push_str(SEPARATOR)?;
    key.push_str(attribute.name.local.as_str())?;
    key.push_str(SEPARATOR)?;
    key.push_str(attribute.value.as_str())?;
    Ok(())
}

/// Returns a key of a tag. Tags that are equal by `equiv_modulo_attr_order` have equal keys; other tags may have equal keys as well. Fails
/// with `AllocError` if an allocation fails.
pub fn tag_key(tag: &Tag) -> Result<String, AllocError>
    ensures { IfOk result (λ key. IsKeyOf (tag_text tag.now) (string_bytes key)) }
{
    let alloc = *tag.attrs.allocator();
    let attrs = in_order(alloc, &tag.attrs)?;
    let mut key = String::from_str(alloc, tag.name.as_str())?;
    for attribute in &attrs {
        write_attribute(&mut key, attribute)?;
    }
    Ok(key)
}
