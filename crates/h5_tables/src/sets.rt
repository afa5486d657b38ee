//! Sets of elements.
ghost use Rattle.std.specs.Prelude.{◌≡◌, ◌||◌};
ghost use Rattle.h5_names.specs.KnownNames.{name_text};
ghost use Rattle.h5_tables.specs.NameSets.{has_flag};
ghost use Rattle.h5_tables.specs.TagSets.{is_body_end_ok, is_button_scope, is_cell, is_default_scope, is_foreign_special, is_formatting, is_head_content, is_heading, is_html_named, is_implied, is_list_item_scope, is_mathml_text_point, is_special, is_svg_html_point, is_table_body_context, is_table_outer, is_table_row_context, is_table_scope, is_thorough_implied};

use super::{NameSet, NameSets};
use h5_names::{KnownName, LocalName, QualName};

/// Returns true for the HTML element with this local name.
#[tactic(auto, unfolding(crate::specs::TagSets::is_html_named, crate::specs::TagSets::html_namespace))]
pub fn is_html(name: &QualName, local: &str) -> bool
    ensures { result ≡ is_html_named local.now name.now }
{
    name.local.as_str() == local && name.ns.is_html()
}

/// Returns true for the HTML element with this local name. Doesn't read the texts of known names.
#[tactic(auto, unfolding(crate::specs::TagSets::is_html_named, crate::specs::TagSets::html_namespace))]
pub fn is_html_local(name: &QualName, local: &LocalName) -> bool
    ensures { result ≡ is_html_named local.now name.now }
{
    name.local == *local && name.ns.is_html()
}

/// Returns true for the HTML element with this known name. Doesn't read its text.
#[tactic(auto, unfolding(crate::specs::TagSets::is_html_named, crate::specs::TagSets::html_namespace))]
pub fn is_html_known(name: &QualName, known: KnownName) -> bool
    ensures { result ≡ is_html_named (name_text known) name.now }
{
    name.local.is(known) && name.ns.is_html()
}

// Returns true for a special element of MathML or SVG. These are also the MathML and SVG elements that end a scope.
#[tactic(auto, unfolding(crate::specs::TagSets::is_foreign_special, crate::specs::TagSets::mathml_namespace, crate::specs::TagSets::svg_namespace))]
fn foreign_special(name: &QualName) -> bool
    ensures { result ≡ is_foreign_special name.now }
{
    (name.ns.is_mathml() && NameSet::MathMlSpecial.holds(&name.local))
        || (name.ns.is_svg() && NameSet::SvgHtmlPoint.holds(&name.local))
}

/// Returns the sets of an element, of the sets that are stored for each open element: special elements, those that end a scope or a button
/// scope, those with implied end tags, and those that may be open at the end of the body. They are read once.
pub fn sets_of(name: &QualName) -> NameSets
    ensures special { has_flag result.flags NameSet.Special ≡ is_special name.now }
    ensures scope { has_flag result.flags NameSet.DefaultScope ≡ is_default_scope name.now }
    ensures button { (has_flag result.flags NameSet.DefaultScope || has_flag result.flags NameSet.ButtonScope) ≡ is_button_scope name.now }
    ensures implied { has_flag result.flags NameSet.CursoryImpliedEnd ≡ is_implied name.now }
    ensures body_end { has_flag result.flags NameSet.BodyEndOk ≡ is_body_end_ok name.now }
{
    if name.ns.is_html() {
        NameSets::of(&name.local)
    } else {
        NameSets::of_foreign(foreign_special(name))
    }
}

/// Returns true if an element is special (HTML standard, section 13.2.4.2, "The stack of open elements").
pub fn special_tag(name: &QualName) -> bool
    ensures { result ≡ is_special name.now }
{
    sets_of(name).has(NameSet::Special)
}

/// Returns true if an element ends a scope (HTML standard, section 13.2.4.2, "have a particular element in scope").
pub fn default_scope(name: &QualName) -> bool
    ensures { result ≡ is_default_scope name.now }
{
    sets_of(name).has(NameSet::DefaultScope)
}

/// Returns true if an element ends a list item scope (HTML standard, section 13.2.4.2, "have a particular element in list item scope").
#[tactic(auto, unfolding(crate::specs::TagSets::is_list_item_scope, crate::specs::TagSets::html_namespace))]
pub fn list_item_scope(name: &QualName) -> bool
    ensures { result ≡ is_list_item_scope name.now }
{
    default_scope(name) || (name.ns.is_html() && NameSet::ListItemScope.holds(&name.local))
}

/// Returns true if an element ends a button scope (HTML standard, section 13.2.4.2, "have a particular element in button scope").
pub fn button_scope(name: &QualName) -> bool
    ensures { result ≡ is_button_scope name.now }
{
    let sets = sets_of(name);
    sets.has(NameSet::DefaultScope) || sets.has(NameSet::ButtonScope)
}

/// Returns true if an element ends a table scope (HTML standard, section 13.2.4.2, "have a particular element in table scope").
#[tactic(auto, unfolding(crate::specs::TagSets::is_table_scope, crate::specs::TagSets::html_namespace))]
pub fn table_scope(name: &QualName) -> bool
    ensures { result ≡ is_table_scope name.now }
{
    name.ns.is_html() && NameSet::TableScope.holds(&name.local)
}

/// Returns true if an element is a table body context (HTML standard, section 13.2.6.4.13, "In table body").
#[tactic(auto, unfolding(crate::specs::TagSets::is_table_body_context, crate::specs::TagSets::html_namespace))]
pub fn table_body_context(name: &QualName) -> bool
    ensures { result ≡ is_table_body_context name.now }
{
    name.ns.is_html() && NameSet::TableBodyContext.holds(&name.local)
}

/// Returns true if an element is a table row context (HTML standard, section 13.2.6.4.14, "In row").
#[tactic(auto, unfolding(crate::specs::TagSets::is_table_row_context, crate::specs::TagSets::html_namespace))]
pub fn table_row_context(name: &QualName) -> bool
    ensures { result ≡ is_table_row_context name.now }
{
    name.ns.is_html() && NameSet::TableRowContext.holds(&name.local)
}

/// Returns true if an element has an implied end tag (HTML standard, section 13.2.6.3, "Closing elements that have implied end tags").
#[tactic(auto, unfolding(crate::specs::TagSets::is_implied, crate::specs::TagSets::html_namespace))]
pub fn cursory_implied_end(name: &QualName) -> bool
    ensures { result ≡ is_implied name.now }
{
    name.ns.is_html() && NameSet::CursoryImpliedEnd.holds(&name.local)
}

/// Returns true if an element has an implied end tag when all are generated thoroughly (HTML standard, section 13.2.6.3, "Closing elements
/// that have implied end tags").
#[tactic(auto, unfolding(crate::specs::TagSets::is_thorough_implied, crate::specs::TagSets::html_namespace))]
pub fn thorough_implied_end(name: &QualName) -> bool
    ensures { result ≡ is_thorough_implied name.now }
{
    name.ns.is_html() && NameSet::ThoroughImpliedEnd.holds(&name.local)
}

/// Returns true if an element is a heading, `h1` to `h6`.
#[tactic(auto, unfolding(crate::specs::TagSets::is_heading, crate::specs::TagSets::html_namespace))]
pub fn heading_tag(name: &QualName) -> bool
    ensures { result ≡ is_heading name.now }
{
    name.ns.is_html() && NameSet::Heading.holds(&name.local)
}

/// Returns true if an element may be open at the end of the body (HTML standard, section 13.2.6.4.7, an end tag "body").
#[tactic(auto, unfolding(crate::specs::TagSets::is_body_end_ok, crate::specs::TagSets::html_namespace))]
pub fn body_end_ok(name: &QualName) -> bool
    ensures { result ≡ is_body_end_ok name.now }
{
    name.ns.is_html() && NameSet::BodyEndOk.holds(&name.local)
}

/// Returns true if an element belongs in a head (HTML standard, section 13.2.6.4.6, "After head").
#[tactic(auto, unfolding(crate::specs::TagSets::is_head_content, crate::specs::TagSets::html_namespace))]
pub fn head_content_tag(name: &QualName) -> bool
    ensures { result ≡ is_head_content name.now }
{
    name.ns.is_html() && NameSet::HeadContent.holds(&name.local)
}

/// Returns true if an element is a formatting element (HTML standard, section 13.2.4.2, "formatting").
#[tactic(auto, unfolding(crate::specs::TagSets::is_formatting, crate::specs::TagSets::html_namespace))]
pub fn formatting_tag(name: &QualName) -> bool
    ensures { result ≡ is_formatting name.now }
{
    name.ns.is_html() && NameSet::Formatting.holds(&name.local)
}

/// Returns true if an element is a table cell (HTML standard, section 13.2.6.4.15, "In cell").
#[tactic(auto, unfolding(crate::specs::TagSets::is_cell, crate::specs::TagSets::html_namespace))]
pub fn td_th(name: &QualName) -> bool
    ensures { result ≡ is_cell name.now }
{
    name.ns.is_html() && NameSet::TdTh.holds(&name.local)
}

/// Returns true if the content of an element is foster-parented while foster parenting is enabled (HTML standard, section 13.2.6.1,
/// "Creating and inserting nodes").
#[tactic(auto, unfolding(crate::specs::TagSets::is_table_outer, crate::specs::TagSets::html_namespace))]
pub fn table_outer(name: &QualName) -> bool
    ensures { result ≡ is_table_outer name.now }
{
    name.ns.is_html() && NameSet::TableOuter.holds(&name.local)
}

/// Returns true if an element is a MathML text integration point (HTML standard, section 13.2.6, "Tree construction").
#[tactic(auto, unfolding(crate::specs::TagSets::is_mathml_text_point, crate::specs::TagSets::mathml_namespace))]
pub fn mathml_text_integration_point(name: &QualName) -> bool
    ensures { result ≡ is_mathml_text_point name.now }
{
    name.ns.is_mathml() && NameSet::MathMlTextPoint.holds(&name.local)
}

/// Returns true if an SVG element is an HTML integration point (HTML standard, section 13.2.6, "Tree construction").
#[tactic(auto, unfolding(crate::specs::TagSets::is_svg_html_point, crate::specs::TagSets::svg_namespace))]
pub fn svg_html_integration_point(name: &QualName) -> bool
    ensures { result ≡ is_svg_html_point name.now }
{
    name.ns.is_svg() && NameSet::SvgHtmlPoint.holds(&name.local)
}
