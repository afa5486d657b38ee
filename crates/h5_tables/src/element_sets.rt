//! Sets of elements, as values.
ghost use Rattle.std.specs.Prelude.{◌≡◌};
ghost use Rattle.h5_tables.specs.ElementSets.{holds_element};

use super::sets::{
    cursory_implied_end, default_scope, heading_tag, list_item_scope, table_body_context,
    table_outer, table_row_context, table_scope, td_th, thorough_implied_end,
};
use h5_names::QualName;

/// A set of elements: those that a search in the stack of open elements looks for, or that end the search.
#[derive(Clone, Copy, Debug, PartialEq, Eq)]
pub enum ElementSet {
    /// Elements that end a scope, also of MathML and SVG.
    DefaultScope,
    /// Elements that end a list item scope, also of MathML and SVG.
    ListItemScope,
    /// Elements that end a table scope. They are also the table context.
    TableScope,
    /// Table body contexts.
    TableBodyContext,
    /// Table row contexts.
    TableRowContext,
    /// Elements with implied end tags.
    CursoryImpliedEnd,
    /// Elements with implied end tags, if all are generated thoroughly.
    ThoroughImpliedEnd,
    /// `h1` to `h6`.
    Heading,
    /// Table cells.
    TdTh,
    /// Elements whose content is foster-parented.
    TableOuter,
}

impl ElementSet {
    /// Returns true if this set has the elements of this name. Each set has a function with its test.
    #[inline(always)]
    pub fn holds(self, name: &QualName) -> bool
        ensures { result ≡ holds_element self name.now }
    {
        match self {
            ElementSet::DefaultScope => default_scope(name),
            ElementSet::ListItemScope => list_item_scope(name),
            ElementSet::TableScope => table_scope(name),
            ElementSet::TableBodyContext => table_body_context(name),
            ElementSet::TableRowContext => table_row_context(name),
            ElementSet::CursoryImpliedEnd => cursory_implied_end(name),
            ElementSet::ThoroughImpliedEnd => thorough_implied_end(name),
            ElementSet::Heading => heading_tag(name),
            ElementSet::TdTh => td_th(name),
            ElementSet::TableOuter => table_outer(name),
        }
    }
}
