//! The numbers of kinds (`nodeType` of the DOM standard), of namespaces and of prefixes.
ghost use Rattle.std.specs.Prelude.{◌≡◌, ◌≤◌, ◌<◌, IfErr, IfOk, option_copied};
ghost use Rattle.h5_tree_block.specs.Columns as c;
ghost use Rattle.h5_tree_block.specs.Read as r;

use h5_interface::QuirksMode;
use h5_names::{Namespace, QualName, namespaces};
use std::alloc::AllocError;

pub const ELEMENT: u32 = 1;

pub const TEXT: u32 = 3;

pub const INSTRUCTION: u32 = 7;

pub const COMMENT: u32 = 8;

pub const DOCUMENT: u32 = 9;

pub const DOCTYPE: u32 = 10;

pub const FRAGMENT: u32 = 11;

/// No node, or no name.
pub const NOTHING: u32 = 0xffff_ffff;

/// Names are in the bits of a word above the kind; this limits their number.
pub(crate) const KINDS: u32 = 256;

/// The number of a namespace: 0 for no namespace, 7 for one that HTML doesn't know.
#[tactic(auto, unfolding(crate::specs::Columns::namespace_number))]
pub(crate) fn namespace_number(ns: &Namespace) -> u32
    ensures number { result ≡ c.namespace_number ns.now }
    ensures small { result ≤ 7 }
{
    if ns.is_html() {
        return 1;
    }
    match ns.as_str() {
        namespaces::NONE => 0,
        namespaces::MATHML => 2,
        namespaces::SVG => 3,
        namespaces::XLINK => 4,
        namespaces::XML => 5,
        namespaces::XMLNS => 6,
        _ => 7,
    }
}

/// The namespace with this number.
#[tactic(auto, unfolding(crate::specs::Read::namespace_named))]
pub(crate) fn namespace_url(number: u32) -> &'static str
    ensures { result.now ≡ r.namespace_named number }
{
    match number {
        1 => namespaces::HTML,
        2 => namespaces::MATHML,
        3 => namespaces::SVG,
        4 => namespaces::XLINK,
        5 => namespaces::XML,
        6 => namespaces::XMLNS,
        _ => namespaces::NONE,
    }
}

/// The number of a prefix: 4 for one that HTML doesn't know.
#[tactic(auto, unfolding(crate::specs::Columns::prefix_number))]
pub(crate) fn prefix_number(prefix: &str) -> u32
    ensures number { result ≡ c.prefix_number prefix.now }
    ensures small { result ≤ 4 }
{
    match prefix {
        "xlink" => 1,
        "xml" => 2,
        "xmlns" => 3,
        _ => 4,
    }
}

/// The numbers of a name's namespace and prefix in one word; 0 means no prefix.
#[tactic(auto, unfolding(crate::specs::Columns::name_word))]
pub(crate) fn name_word(name: &QualName) -> u32
    ensures { result ≡ c.name_word name.now }
{
    let prefix = match &name.prefix {
        Some(prefix) => prefix_number(prefix.as_str()),
        None => 0,
    };
    namespace_number(&name.ns) + prefix * 256
}

/// The prefix with this number.
#[tactic(auto, unfolding(crate::specs::Read::prefix_named))]
pub(crate) fn prefix_text(number: u32) -> Option<&'static str>
    ensures { option_copied result ≡ r.prefix_named number }
{
    match number {
        1 => Some("xlink"),
        2 => Some("xml"),
        3 => Some("xmlns"),
        _ => None,
    }
}

/// The number of a quirks mode.
fn quirks_number(quirks: QuirksMode) -> u32
    ensures { result ≡ c.quirks_number quirks }
{
    match quirks {
        QuirksMode::NoQuirks => 0,
        QuirksMode::LimitedQuirks => 1,
        QuirksMode::Quirks => 2,
    }
}

/// The number of a quirks mode, and of whether the tree was parsed with scripting.
pub(crate) fn mode_number(quirks: QuirksMode, scripting_enabled: bool) -> u32
    ensures { result ≡ c.mode_number quirks scripting_enabled }
{
    quirks_number(quirks) + if scripting_enabled { 4 } else { 0 }
}

/// A length as a word. A length that doesn't fit fails as a failed allocation does; so does the greatest word, which means nothing.
pub(crate) fn short(length: usize) -> Result<u32, AllocError>
    ensures length { IfOk result (λ word. word ≡ length) }
    ensures fits { IfOk result (λ word. word < 4294967295) }
    ensures too_long { IfErr result (λ _. 4294967295 ≤ length) }
{
    if length < NOTHING as usize {
        Ok(length as u32)
    } else {
        Err(AllocError)
    }
}
