//! Tests for elements in sets.
ghost use Rattle.h5_tables.specs.ElementSets.{holds_element};

use super::name_test::{NameTest, NewestTest};
use super::newest::{newer, newest_among, newest_scope_end};
use super::open_elems::{name_at, open_at};
use super::state::State;
use h5_interface::TreeSink;
use h5_names::{KnownName, QualName};
use h5_tables::ElementSet;

impl NameTest for ElementSet {
    ghost holds = { λ t name. holds_element t name };

    #[inline(always)]
    fn test(&self, name: &QualName) -> bool {
        self.holds(name)
    }

    // The summary of an open element has the result.
    #[inline(always)]
    fn test_open<S: TreeSink>(&self, sink: &S, state: &State<S::Handle>, place: usize) -> bool {
        match self {
            ElementSet::CursoryImpliedEnd => open_at(sink, state, place).summary.implied,
            set => set.holds(name_at(sink, state, place)),
        }
    }
}

impl NewestTest for ElementSet {
    #[inline(always)]
    fn newest<S: TreeSink>(&self, sink: &S, state: &State<S::Handle>) -> usize {
        match self {
            ElementSet::DefaultScope => newest_scope_end(sink, state),
            ElementSet::ListItemScope => newer(
                newest_scope_end(sink, state),
                newest_among(sink, state, &LISTS),
            ),
            ElementSet::TableScope => newest_among(sink, state, &TABLE_SCOPE),
            ElementSet::TableBodyContext => newest_among(sink, state, &TABLE_BODY_CONTEXT),
            ElementSet::TableRowContext => newest_among(sink, state, &TABLE_ROW_CONTEXT),
            ElementSet::CursoryImpliedEnd => newest_among(sink, state, &IMPLIED_ENDS),
            ElementSet::ThoroughImpliedEnd => newest_among(sink, state, &THOROUGH_IMPLIED_ENDS),
            ElementSet::Heading => newest_among(sink, state, &HEADINGS),
            ElementSet::TdTh => newest_among(sink, state, &CELLS),
            ElementSet::TableOuter => newest_among(sink, state, &TABLE_PARTS),
        }
    }
}

// The members of each set, all of them HTML elements.
const LISTS: [KnownName; 2] = [KnownName::Ol, KnownName::Ul];

const TABLE_SCOPE: [KnownName; 3] = [KnownName::Html, KnownName::Table, KnownName::Template];

const TABLE_BODY_CONTEXT: [KnownName; 5] = [
    KnownName::Tbody,
    KnownName::Tfoot,
    KnownName::Thead,
    KnownName::Template,
    KnownName::Html,
];

const TABLE_ROW_CONTEXT: [KnownName; 3] = [KnownName::Tr, KnownName::Template, KnownName::Html];

const IMPLIED_ENDS: [KnownName; 10] = [
    KnownName::Dd,
    KnownName::Dt,
    KnownName::Li,
    KnownName::Option,
    KnownName::Optgroup,
    KnownName::P,
    KnownName::Rb,
    KnownName::Rp,
    KnownName::Rt,
    KnownName::Rtc,
];

const THOROUGH_IMPLIED_ENDS: [KnownName; 18] = [
    KnownName::Dd,
    KnownName::Dt,
    KnownName::Li,
    KnownName::Option,
    KnownName::Optgroup,
    KnownName::P,
    KnownName::Rb,
    KnownName::Rp,
    KnownName::Rt,
    KnownName::Rtc,
    KnownName::Caption,
    KnownName::Colgroup,
    KnownName::Tbody,
    KnownName::Td,
    KnownName::Tfoot,
    KnownName::Th,
    KnownName::Thead,
    KnownName::Tr,
];

const HEADINGS: [KnownName; 6] = [
    KnownName::H1,
    KnownName::H2,
    KnownName::H3,
    KnownName::H4,
    KnownName::H5,
    KnownName::H6,
];

const CELLS: [KnownName; 2] = [KnownName::Td, KnownName::Th];

const TABLE_PARTS: [KnownName; 5] = [
    KnownName::Table,
    KnownName::Tbody,
    KnownName::Tfoot,
    KnownName::Thead,
    KnownName::Tr,
];
