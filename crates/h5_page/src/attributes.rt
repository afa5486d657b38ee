//! What an element's attributes say about how it is shown.
ghost use Rattle.std.specs.Prelude.{◌≡◌, ◌||◌, IfOk, List, map, option_map, string_bytes};
ghost use Rattle.std.specs.Iterator.{Drains, IsFinite};
ghost use Rattle.h5_page.specs.Attributes as a;

use super::style::hides;
use html_tree_builder::names::Namespace;
use html_tree_builder::serialize::AttrRef;
use std::alloc::{AllocError, Global};
use std::marker::Model;

/// True flags if an element is hidden and if its numbers are reversed, and the value of the attribute that its display uses.
#[derive(Drop)]
pub struct Said {
    pub is_hidden: bool,
    pub is_reversed: bool,
    pub value: Option<String>,
}

impl Model for Said {
    ghost use Rattle.std.specs.Prelude.{option_map, string_bytes};
    ghost use Rattle.h5_page.specs.Attributes.{SaidText};

    ghost Value = { SaidText };

    ghost view = { λ said. record { is_hidden = said.is_hidden; is_reversed = said.is_reversed; value = option_map string_bytes said.value } };
}

// Returns true if this attribute hides an element of this namespace.
fn is_hiding<T: AttrRef>(alloc: Global, ns: &Namespace, attr: &T) -> Result<bool, AllocError>
    ensures { IfOk result (λ is_hiding. is_hiding ≡ a.is_hiding ns.now (T.attribute attr.now)) }
{
    match attr.name().local.as_str() {
        "hidden" => Ok(ns.is_html()),
        "style" if ns.is_html() || ns.is_svg() => hides(alloc, attr.value()),
        _ => Ok(false),
    }
}

// Returns true if the element is hidden already, or if this attribute hides it.
fn hidden_with<T: AttrRef>(
    alloc: Global,
    hidden: bool,
    ns: &Namespace,
    attr: &T,
) -> Result<bool, AllocError>
    ensures { IfOk result (λ more. more ≡ (hidden || a.is_hiding ns.now (T.attribute attr.now))) }
{
    if hidden {
        return Ok(true);
    }
    is_hiding(alloc, ns, attr)
}

/// Returns true if these attributes hide an element of this namespace. Fails with `AllocError` if an allocation fails.
pub fn is_hidden<T: AttrRef, I: Iterator<Item = T> + Drop>(
    alloc: Global,
    ns: &Namespace,
    attrs: I,
) -> Result<bool, AllocError>
    requires can { I.can_next attrs }
    requires ends { IsFinite (I.remaining attrs) }
    ensures { IfOk result (λ hidden. (all : List _) × Drains I.next_gives attrs all
        × (hidden ≡ a.is_hidden ns.now (map T.attribute all))) }
{
    let mut hidden = false;
    'attributes: for attr in attrs {
        hidden = hidden_with(alloc, hidden, ns, &attr)?;
    }
    Ok(hidden)
}

// Returns the value that was found before, or else that of this attribute, if it is the one that is used.
fn found_in<T: AttrRef>(
    alloc: Global,
    found: Option<String>,
    asked: &str,
    attr: &T,
) -> Result<Option<String>, AllocError>
    ensures { IfOk result (λ value. option_map string_bytes value ≡ a.or_value_of asked.now (option_map string_bytes found) (T.attribute attr.now)) }
{
    if found.is_some() || attr.name().local.as_str() != asked {
        return Ok(found);
    }
    let value = String::from_str(alloc, attr.value())?;
    Ok(Some(value))
}

// Adds an attribute.
fn with_attribute<T: AttrRef>(
    alloc: Global,
    said: Said,
    ns: &Namespace,
    asked: &str,
    attr: &T,
) -> Result<Said, AllocError>
    ensures { IfOk result (λ more. more ≡ a.with_attribute ns.now asked.now said (T.attribute attr.now)) }
{
    let is_hidden = hidden_with(alloc, said.is_hidden, ns, attr)?;
    let is_reversed = said.is_reversed || attr.name().local.as_str() == "reversed";
    let value = found_in(alloc, said.value, asked, attr)?;
    Ok(Said {
        is_hidden,
        is_reversed,
        value,
    })
}

/// Returns what these attributes say about an element of this namespace. `asked` is the name of the attribute that the display
/// uses. Fails with `AllocError` if an allocation fails.
pub fn said_of<T: AttrRef, I: Iterator<Item = T> + Drop>(
    alloc: Global,
    ns: &Namespace,
    asked: &str,
    attrs: I,
) -> Result<Said, AllocError>
    requires can { I.can_next attrs }
    requires ends { IsFinite (I.remaining attrs) }
    ensures { IfOk result (λ said. (all : List _) × Drains I.next_gives attrs all
        × (said ≡ a.said_of ns.now asked.now (map T.attribute all))) }
{
    let mut said = Said {
        is_hidden: false,
        is_reversed: false,
        value: None,
    };
    'attributes: for attr in attrs {
        said = with_attribute(alloc, said, ns, asked, &attr)?;
    }
    Ok(said)
}
