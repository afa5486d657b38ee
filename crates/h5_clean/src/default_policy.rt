//! The policy for texts.
ghost use Rattle.std.specs.Prelude.{◌≡◌};
ghost use Rattle.std.specs.Char.{is_ascii_whitespace};
ghost use Rattle.std.specs.List.{list_any};
ghost use Rattle.h5_tables.specs.TagSets.{is_one_of};
ghost use Rattle.h5_clean.specs.DefaultPolicy.{dropped_names, global_names, aligned_names, citing_names, is_good, is_language, keepings, keeps_attribute, keeps_by, keeps_of_many, default_rules, unnamed};
ghost use Rattle.h5_clean.specs.Lists.{keepings_of};

use super::kind::{Kind, kind_of};
use super::lists::{ALIGNED, CITING, DROPPED, GLOBAL, KEEPINGS, UNNAMED, is_among};
use super::place::Around;
use super::policy::Policy;
use super::urls::{is_image, is_link};

/// The policy for comments, posts and pages: it allows phrases, links, images, headings, blocks, lists and tables, 256
/// elements deep, and no scripts, styles, forms or frames. Links may be relative or have the scheme `http`, `https` or
/// `mailto`, images all of these except `mailto`; `rel` of each `a` is set to `noopener noreferrer`. The result may be
/// put into a list item, so an `li`, `dd` or `dt` outside a list is replaced by its content.
#[derive(Clone, Copy, Debug, Default)]
pub struct DefaultPolicy;

// Returns true if one of the lists keeps this attribute of the element.
fn is_kept_in(lists: &[(&str, &[&str])], element: &str, attribute: &str) -> bool
    ensures { result ≡ keeps_by (keepings_of lists.now) element.now attribute.now }
{
    for &(name, attributes) in lists {
        if name == element {
            return is_among(attributes, attribute);
        }
    }
    false
}

// The element has a kind, but isn't allowed.
#[tactic(auto, unfolding(crate::specs::DefaultPolicy::unnamed))]
fn is_unnamed(name: &str) -> bool
    ensures { result ≡ is_one_of unnamed name.now }
{
    is_among(&UNNAMED, name)
}

// The element is dropped with its content.
#[tactic(auto, unfolding(crate::specs::DefaultPolicy::dropped_names))]
fn is_dropped(name: &str) -> bool
    ensures { result ≡ is_one_of dropped_names name.now }
{
    is_among(&DROPPED, name)
}

// Any element keeps this attribute.
#[tactic(auto, unfolding(crate::specs::DefaultPolicy::global_names))]
fn is_global(attribute: &str) -> bool
    ensures { result ≡ is_one_of global_names attribute.now }
{
    is_among(&GLOBAL, attribute)
}

// The element keeps this attribute, which only some do.
#[tactic(auto, unfolding(crate::specs::DefaultPolicy::keepings))]
fn is_kept_by(element: &str, attribute: &str) -> bool
    ensures { result ≡ keeps_by keepings element.now attribute.now }
{
    is_kept_in(&KEEPINGS, element, attribute)
}

// The element keeps `align`.
#[tactic(auto, unfolding(crate::specs::DefaultPolicy::aligned_names))]
fn is_aligned(element: &str) -> bool
    ensures { result ≡ is_one_of aligned_names element.now }
{
    is_among(&ALIGNED, element)
}

// The element keeps `cite`.
#[tactic(auto, unfolding(crate::specs::DefaultPolicy::citing_names))]
fn is_citing(element: &str) -> bool
    ensures { result ≡ is_one_of citing_names element.now }
{
    is_among(&CITING, element)
}

// The element keeps this attribute, which many do.
fn is_kept_by_many(element: &str, attribute: &str) -> bool
    ensures { result ≡ keeps_of_many element.now attribute.now }
{
    match attribute {
        "align" => is_aligned(element),
        "cite" => is_citing(element),
        _ => false,
    }
}

fn has_blank(value: &str) -> bool
    ensures { result ≡ list_any is_ascii_whitespace value.now }
{
    value
        .as_bytes()
        .iter()
        .any(|byte| byte.is_ascii_whitespace())
}

// The class names the language of code.
fn is_language(value: &str) -> bool
    ensures { result ≡ is_language value.now }
{
    value.starts_with("language-") && !has_blank(value)
}

// The value is allowed: that of a URL by its scheme, that of a class if it names a language.
fn is_good(attribute: &str, value: &str) -> bool
    ensures { result ≡ is_good attribute.now value.now }
{
    match attribute {
        "href" | "cite" => is_link(value),
        "src" => is_image(value),
        "class" => is_language(value),
        _ => true,
    }
}

impl Policy for DefaultPolicy {
    ghost rules = { λ policy. default_rules };

    // The name has a kind, and isn't one of `unnamed`.
    fn allows(&self, element: &str) -> bool {
        kind_of(element) != Kind::Unknown && !is_unnamed(element)
    }

    fn drops(&self, element: &str) -> bool {
        is_dropped(element)
    }

    fn keeps_attribute(&self, element: &str, attribute: &str, value: &str) -> bool {
        (is_global(attribute)
            || is_kept_by(element, attribute)
            || is_kept_by_many(element, attribute))
            && is_good(attribute, value)
    }

    // Separates a linked page from the page that links to it.
    fn rel(&self) -> Option<&str> {
        Some("noopener noreferrer")
    }

    // Not needed: neither `id` nor `name` is kept.
    fn prefix(&self) -> Option<&str> {
        None
    }

    // A class of code names a language, as a whole.
    fn class_prefixes(&self) -> Option<&[String]> {
        None
    }

    // Comments and posts are often list items.
    fn around(&self) -> Around {
        Around::items()
    }

    // Deeper than usual texts, and shallow enough for readers of the result.
    fn depth(&self) -> usize {
        256
    }
}
