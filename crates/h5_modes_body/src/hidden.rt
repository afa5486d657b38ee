//! Hidden inputs.
ghost use Rattle.std.specs.Prelude.{◌≡◌};
ghost use Rattle.h5_names.specs.AttributeText.{attribute_text, attribute_texts};
ghost use Rattle.h5_builder_spec.specs.modes.Shared.{is_type, is_type_hidden};

use h5_names::{Attribute, KnownName};

// The attribute is `type`, in no namespace.
fn is_type(attribute: &Attribute) -> bool
    ensures { result ≡ is_type (attribute_text attribute.now) }
{
    attribute.name.ns.as_str().is_empty() && attribute.name.local.is(KnownName::TypeName)
}

/// Returns true if the first attribute `type` is `hidden`, in any case of ASCII letters.
pub fn is_type_hidden(attrs: &[Attribute]) -> bool
    ensures { result ≡ is_type_hidden (attribute_texts attrs.now) }
{
    for attribute in attrs {
        if is_type(attribute) {
            return attribute.value.as_str().eq_ignore_ascii_case("hidden");
        }
    }
    false
}
