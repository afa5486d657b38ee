//! List items (HTML standard, section 13.2.6.4.7, start tags "li", "dd" and "dt").
ghost use Rattle.std.specs.Prelude.{◌≡◌, MatchOption, None, Some, codes, if◌then◌else◌, is_none, is_some, length, true};
ghost use Rattle.std.specs.Option.{option_map};
ghost use Rattle.h5_names.specs.KnownNames.{name_text};
ghost use Rattle.h5_tables.specs.TagSets.{is_html_named, is_list_item_scope};
ghost use Rattle.h5_builder_spec.specs.stack.Scope.{cut_through, in_scope};
ghost use Rattle.h5_builder_spec.specs.stack.Closing.{is_html_among, newest_item};
ghost use Rattle.h5_builder_spec.specs.Rows.{CloseListItem};
ghost use Rattle.h5_builder_spec.specs.World.{names_of};
ghost use Rattle.h5_builder_actions.specs.Items.{item_names};
ghost use Rattle.h5_builder_state.specs.Steps.{IsSound, Makes, world_of};
ghost use Rattle.h5_builder_spec.specs.stack.Expected.{is_expected_item, names_behind_item};

use h5_builder_state::{
    Known, State, all_open, find_in_scope, find_named, generate_implied_end_except,
    is_current_html, name_at, pop_until_named,
};
use h5_interface::TreeSink;
use h5_names::{KnownName, LocalName, QualName};
use h5_tables::ElementSet;

/// Kinds of items; items of one kind close each other.
#[derive(Clone, Copy)]
pub enum ItemKind {
    /// `li`.
    ListItem,
    /// `dd` and `dt`.
    Description,
}

// The known name of an item of this kind, if the name is one.
#[tactic(auto, unfolding(h5_builder_spec::specs::modes::InBody::list_item_names, h5_builder_spec::specs::modes::InBody::description_names, h5_tables::specs::TagSets::html_namespace))]
fn item_of(name: &QualName, kind: ItemKind) -> Option<KnownName>
    ensures { option_map name_text result ≡ (if is_html_among (item_names kind) name.now then Some name.now.local else None) }
{
    if !name.ns.is_html() {
        return None;
    }
    match kind {
        ItemKind::ListItem if name.local.is(KnownName::Li) => Some(KnownName::Li),
        ItemKind::Description if name.local.is(KnownName::Dd) => Some(KnownName::Dd),
        ItemKind::Description if name.local.is(KnownName::Dt) => Some(KnownName::Dt),
        ItemKind::ListItem | ItemKind::Description => None,
    }
}

// The newest open item of this kind, if no element that ends the search is newer. Items also end it.
fn find_item<S: TreeSink>(sink: &S, state: &State<S::Handle>, kind: ItemKind) -> Option<KnownName>
    requires { IsSound S.TreeSink sink.now state.now }
    ensures { option_map name_text result ≡ newest_item (item_names kind) (names_of (world_of S.TreeSink sink.now state.now)) }
{
    let end = all_open(sink, state).item_end as usize;
    if end == 0 {
        return None;
    }
    item_of(name_at(sink, state, end - 1), kind)
}

/// Closes the newest open item of this kind, if no element that ends the search is newer. Returns false if there is a
/// parse error: the item wasn't the current node after implied end tags were generated.
#[tactic(auto, unfolding(h5_builder_spec::specs::stack::Closing::close_list_item, h5_builder_spec::specs::stack::Expected::is_expected_item))]
pub fn close_list_item<S: TreeSink>(
    sink: &mut S,
    state: &mut State<S::Handle>,
    kind: ItemKind,
) -> bool
    requires { IsSound S.TreeSink sink.old state.old }
    ensures made { Makes S.TreeSink (CloseListItem (item_names kind)) sink.old state.old sink.new state.new }
    ensures expected { result ≡ is_expected_item (item_names kind) (names_of (world_of S.TreeSink sink.old state.old)) }
    ensures names { names_of (world_of S.TreeSink sink.new state.new) ≡ names_behind_item (item_names kind) (names_of (world_of S.TreeSink sink.old state.old)) }
{
    match find_item(sink, state, kind) {
        Some(known) => {
            let name = LocalName::from_known(known);
            generate_implied_end_except(sink, state, &name);
            let expected = is_current_html(sink, state, &name);
            let place = find_named(sink, state, &name);
            pop_until_named(sink, state, &name, place);
            expected
        }
        None => true,
    }
}

/// Returns the place of the newest open HTML `li`, which is the number of older elements, if it is in list item scope.
pub fn find_li_in_list_item_scope<S: TreeSink>(sink: &S, state: &State<S::Handle>) -> Option<usize>
    requires { IsSound S.TreeSink sink.now state.now }
    ensures found { is_some result ≡ in_scope (is_html_named (codes "li")) is_list_item_scope (names_of (world_of S.TreeSink sink.now state.now)) }
    ensures place { MatchOption result (Unit {0}) (λ place. place ≡ length (cut_through (is_html_named (codes "li")) (names_of (world_of S.TreeSink sink.now state.now)) (world_of S.TreeSink sink.now state.now).stack)) }
{
    find_in_scope(
        sink,
        state,
        &Known(KnownName::Li),
        &ElementSet::ListItemScope,
    )
}
