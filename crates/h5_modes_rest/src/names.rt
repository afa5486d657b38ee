//! Tags that leave foreign content.
ghost use Rattle.std.specs.Prelude.{◌≡◌};
ghost use Rattle.std.specs.List.{list_any};
ghost use Rattle.h5_names.specs.AttributeText.{attribute_text, attribute_texts};
ghost use Rattle.h5_names.specs.KnownNames.{name_text};
ghost use Rattle.h5_token.specs.TokenText.{tag_text};
ghost use Rattle.h5_tables.specs.TagSets.{is_one_of};
ghost use Rattle.h5_builder_spec.specs.modes.ForeignContent.{breaks_out, foreign_breakout_end_names, foreign_breakout_names, is_font_attribute};

use h5_names::{Attribute, KnownName, LocalName};
use h5_token::Tag;

// A start tag of this known name leaves foreign content, regardless of its attributes.
#[tactic(auto, unfolding(h5_builder_spec::specs::modes::ForeignContent::foreign_breakout_names, h5_names::specs::KnownNames::name_text))]
fn is_known_breakout(known: KnownName) -> bool
    ensures { result ≡ is_one_of foreign_breakout_names (name_text known) }
{
    match known {
        KnownName::B
        | KnownName::Big
        | KnownName::Blockquote
        | KnownName::Body
        | KnownName::Br
        | KnownName::Center
        | KnownName::Code
        | KnownName::Dd
        | KnownName::Div
        | KnownName::Dl
        | KnownName::Dt
        | KnownName::Em
        | KnownName::Embed
        | KnownName::H1
        | KnownName::H2
        | KnownName::H3
        | KnownName::H4
        | KnownName::H5
        | KnownName::H6
        | KnownName::Head
        | KnownName::Hr
        | KnownName::I => true,
        KnownName::Img
        | KnownName::Li
        | KnownName::Listing
        | KnownName::Menu
        | KnownName::Meta
        | KnownName::Nobr
        | KnownName::Ol
        | KnownName::P
        | KnownName::Pre
        | KnownName::Ruby
        | KnownName::S
        | KnownName::Small
        | KnownName::Span
        | KnownName::Strong
        | KnownName::Strike
        | KnownName::Sub
        | KnownName::Sup
        | KnownName::Table
        | KnownName::Tt
        | KnownName::U
        | KnownName::Ul
        | KnownName::Var => true,
        _ => false,
    }
}

// A start tag of this name leaves foreign content, regardless of its attributes.
fn is_breakout(name: &LocalName) -> bool
    ensures { result ≡ is_one_of foreign_breakout_names name.now }
{
    is_known_breakout(name.known())
}

// An end tag of this name leaves foreign content.
#[tactic(auto, unfolding(h5_builder_spec::specs::modes::ForeignContent::foreign_breakout_end_names))]
pub(crate) fn is_breakout_end(name: &LocalName) -> bool
    ensures { result ≡ is_one_of foreign_breakout_end_names name.now }
{
    name.is(KnownName::Br) || name.is(KnownName::P)
}

// A `font` with this attribute leaves foreign content.
#[tactic(auto, unfolding(h5_builder_spec::specs::modes::ForeignContent::font_attribute_names))]
fn is_font_attribute(attribute: &Attribute) -> bool
    ensures { result ≡ is_font_attribute (attribute_text attribute.now) }
{
    let local = &attribute.name.local;
    attribute.name.ns.as_str().is_empty()
        && (local.is(KnownName::Color) || local.is(KnownName::Face) || local.is(KnownName::Size))
}

fn any_is_font_attribute(attrs: &[Attribute]) -> bool
    ensures { result ≡ list_any (λ a. is_font_attribute (attribute_text a)) attrs.now }
{
    attrs.iter().any(|attribute| is_font_attribute(attribute))
}

fn has_font_attribute(attrs: &[Attribute]) -> bool
    ensures { result ≡ list_any is_font_attribute (attribute_texts attrs.now) }
{
    any_is_font_attribute(attrs)
}

// A start tag leaves foreign content.
#[tactic(auto, unfolding(h5_builder_spec::specs::modes::ForeignContent::breaks_out))]
pub(crate) fn breaks_out(tag: &Tag) -> bool
    ensures { result ≡ breaks_out (tag_text tag.now) }
{
    is_breakout(&tag.name)
        || tag.name.is(KnownName::Font) && has_font_attribute(tag.attrs.as_slice())
}
