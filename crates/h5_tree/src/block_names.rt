//! Names and attributes of the elements of a block.
ghost use Rattle.std.specs.Prelude.{◌≡◌, ◌==◌, ◌&&◌, option_copied};
ghost use Rattle.h5_names.specs.AttributeText.{is_same_text};
ghost use Rattle.h5_interface.specs.Forest.{attrs_of};
ghost use Rattle.h5_tree_block.specs.Block as b;
ghost use Rattle.h5_tree_block.specs.Read as r;
ghost use Rattle.h5_tree.specs.BlockForest.{forest_in};
ghost use Rattle.h5_tree.specs.Elements.{value_in};

use h5_names::{LocalName, namespaces};
use h5_tree_block::{ELEMENT, NOTHING, View};

pub(crate) fn is_element(view: &View<'_>, id: u32) -> bool
    ensures { result ≡ (b.kind_in view.now.block.now id == 1) }
{
    view.kind(id) == ELEMENT
}

// The namespace with this number.
#[tactic(auto, unfolding(h5_tree_block::specs::Read::namespace_named))]
fn namespace_url(number: u32) -> &'static str
    ensures { result.now ≡ r.namespace_named number }
{
    match number {
        1 => namespaces::HTML,
        2 => namespaces::MATHML,
        3 => namespaces::SVG,
        4 => namespaces::XLINK,
        5 => namespaces::XML,
        6 => namespaces::XMLNS,
        _ => namespaces::NONE,
    }
}

// The local name of a name.
fn local_of<'a>(view: &View<'a>, name: u32) -> &'a str
    ensures { result.now ≡ r.local_of view.now.block.now name }
{
    match view.name_text(name) {
        Some(span) => view.str_at(span),
        None => "",
    }
}

// Returns true if two names have the same local name and namespace. Two numbers may be of one namespace.
fn are_alike(view: &View<'_>, one: u32, other: u32) -> bool
    ensures { result ≡ (is_same_text (r.local_of view.now.block.now one) (r.local_of view.now.block.now other)
        && is_same_text (r.namespace_named (b.namespace_in view.now.block.now one)) (r.namespace_named (b.namespace_in view.now.block.now other))) }
{
    local_of(view, one) == local_of(view, other)
        && namespace_url(view.namespace(one)) == namespace_url(view.namespace(other))
}

/// Returns true for an element of HTML.
pub(crate) fn is_html_element(view: &View<'_>, id: u32) -> bool
    ensures { result ≡ (b.kind_in view.now.block.now id == 1 && b.namespace_in view.now.block.now (b.name_in view.now.block.now id) == 1) }
{
    is_element(view, id) && view.namespace(view.name(id)) == 1
}

/// Returns true for an element in this namespace.
pub(crate) fn has_namespace(view: &View<'_>, id: u32, ns: &str) -> bool
    ensures { result ≡ (b.kind_in view.now.block.now id == 1 && is_same_text (r.namespace_named (b.namespace_in view.now.block.now (b.name_in view.now.block.now id))) ns.now) }
{
    is_element(view, id) && namespace_url(view.namespace(view.name(id))) == ns
}

/// Returns true for an element with this local name.
pub(crate) fn has_local_name(view: &View<'_>, id: u32, local: &LocalName) -> bool
    ensures { result ≡ (b.kind_in view.now.block.now id == 1 && is_same_text (r.local_of view.now.block.now (b.name_in view.now.block.now id)) local.now) }
{
    is_element(view, id) && local_of(view, view.name(id)) == local.as_str()
}

/// Returns true for two elements with the same local name and namespace.
pub(crate) fn is_same_type(view: &View<'_>, one: u32, other: u32) -> bool
    ensures { result ≡ (b.kind_in view.now.block.now one == 1 && (b.kind_in view.now.block.now other == 1
        && (is_same_text (r.local_of view.now.block.now (b.name_in view.now.block.now one)) (r.local_of view.now.block.now (b.name_in view.now.block.now other))
        && is_same_text (r.namespace_named (b.namespace_in view.now.block.now (b.name_in view.now.block.now one))) (r.namespace_named (b.namespace_in view.now.block.now (b.name_in view.now.block.now other)))))) }
{
    is_element(view, one)
        && (is_element(view, other) && are_alike(view, view.name(one), view.name(other)))
}

// The number of a row's name.
fn row_name(view: &View<'_>, node: u32, index: u32) -> u32
    ensures { result ≡ r.row_name_of view.now.block.now node index }
{
    match view.row(node, index) {
        Some(row) => row.name,
        None => NOTHING,
    }
}

// The value of a row; empty if the block has none there.
#[tactic(auto, unfolding(h5_tree_block::specs::Read::value_of))]
fn row_value<'a>(view: &View<'a>, node: u32, index: u32) -> &'a str
    ensures { result.now ≡ r.value_of view.now.block.now node index }
{
    match view.row(node, index) {
        Some(row) => view.str_at(row.value),
        None => "",
    }
}

// Returns true for a name with this namespace and local name.
fn is_named(view: &View<'_>, name: u32, ns: &str, local: &str) -> bool
    ensures { result ≡ (is_same_text (r.namespace_named (b.namespace_in view.now.block.now name)) ns.now && is_same_text (r.local_of view.now.block.now name) local.now) }
{
    namespace_url(view.namespace(name)) == ns && local_of(view, name) == local
}

/// The value of the first row of an element that has this namespace and local name.
pub(crate) fn find_row<'a>(view: &View<'a>, id: u32, ns: &str, local: &str) -> Option<&'a str>
    requires { b.kind_in view.now.block.now id ≡ 1 }
    ensures { option_copied result ≡ value_in ns.now local.now (attrs_of (forest_in view.now.block.now) id) }
{
    for index in 0..view.row_count(id) {
        if is_named(view, row_name(view, id, index), ns, local) {
            return Some(row_value(view, id, index));
        }
    }
    None
}
