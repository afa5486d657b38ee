//! The reset of the insertion mode (HTML standard, section 13.2.4.1, "reset the insertion mode appropriately").
ghost use Rattle.std.specs.Prelude.{◌≡◌, ◌||◌, ◌∷◌, ◌++◌, [], if◌then◌else◌, IfSome, List, None, is_some, unwrap_or};
ghost use Rattle.h5_names.specs.declared.qualified.QualName.{QualName as NameText};
ghost use Rattle.h5_builder_spec.specs.reset.ResetByRoles.{decide, decide_root, first_mode, reset};
ghost use Rattle.h5_builder_spec.specs.reset.Roles.{is_cell_role, is_head, role_of, role_of_local, roles};
ghost use Rattle.h5_builder_spec.specs.World.{names_of};
ghost use Rattle.h5_tables.specs.declared.modes.InsertionMode.{InsertionMode as Mode};
ghost use Rattle.h5_builder_spec.specs.reset.Reset.{reset_mode};
ghost use Rattle.h5_builder_spec.specs.Sound.{situation_of};
ghost use Rattle.h5_builder_actions.specs.Reset.{role_as};
ghost use Rattle.h5_builder_state.specs.Steps.{IsSound, world_of};

use h5_builder_state::{State, name_at, newest_among, open_count};
use h5_interface::TreeSink;
use h5_names::{KnownName, LocalName, QualName};
use h5_tables::InsertionMode;

// What a name is for a reset: plain, or one that decides.
#[derive(Clone, Copy)]
enum Role {
    Plain,
    Html,
    Head,
    Body,
    Frameset,
    Table,
    Template,
    Caption,
    Colgroup,
    // `tbody`, `tfoot` or `thead`.
    Section,
    Row,
    // `td` or `th`.
    Cell,
}

// The names that decide.
const DECIDING: [KnownName; 14] = [
    KnownName::Html,
    KnownName::Head,
    KnownName::Body,
    KnownName::Frameset,
    KnownName::Table,
    KnownName::Template,
    KnownName::Caption,
    KnownName::Colgroup,
    KnownName::Tbody,
    KnownName::Tfoot,
    KnownName::Thead,
    KnownName::Tr,
    KnownName::Td,
    KnownName::Th,
];

// The role of an HTML element by its local name.
#[tactic(auto, unfolding(h5_builder_spec::specs::reset::Roles::role_of_local))]
fn role_of_local(local: &LocalName) -> Role
    ensures { role_as result ≡ role_of_local local.now }
{
    if local.is(KnownName::Html) {
        Role::Html
    } else if local.is(KnownName::Head) {
        Role::Head
    } else if local.is(KnownName::Body) {
        Role::Body
    } else if local.is(KnownName::Frameset) {
        Role::Frameset
    } else if local.is(KnownName::Table) {
        Role::Table
    } else if local.is(KnownName::Template) {
        Role::Template
    } else if local.is(KnownName::Caption) {
        Role::Caption
    } else if local.is(KnownName::Colgroup) {
        Role::Colgroup
    } else if local.is(KnownName::Tbody) {
        Role::Section
    } else if local.is(KnownName::Tfoot) {
        Role::Section
    } else if local.is(KnownName::Thead) {
        Role::Section
    } else if local.is(KnownName::Tr) {
        Role::Row
    } else if local.is(KnownName::Td) {
        Role::Cell
    } else if local.is(KnownName::Th) {
        Role::Cell
    } else {
        Role::Plain
    }
}

// A foreign element is plain.
#[tactic(auto, unfolding(h5_builder_spec::specs::reset::Roles::role_of, h5_tables::specs::TagSets::html_namespace))]
fn role_of(name: &QualName) -> Role
    ensures { role_as result ≡ role_of name.now }
{
    if name.ns.is_html() {
        role_of_local(&name.local)
    } else {
        Role::Plain
    }
}

// The current template insertion mode.
#[tactic(auto, unfolding(h5_builder_state::specs::View::world))]
fn template_mode<S: TreeSink>(sink: &S, state: &State<S::Handle>) -> InsertionMode
    ensures { result ≡ first_mode (world_of S.TreeSink sink.now state.now).template_modes }
{
    match state.template_modes.last() {
        Some(mode) => *mode,
        None => InsertionMode::InBody,
    }
}

// The mode that an `html` decides.
#[tactic(auto, unfolding(h5_builder_state::specs::View::world))]
fn html_mode<S: TreeSink>(sink: &S, state: &State<S::Handle>) -> InsertionMode
    ensures { result ≡ (if is_some (world_of S.TreeSink sink.now state.now).head then InsertionMode.AfterHead else InsertionMode.BeforeHead) }
{
    if state.head_elem.is_some() {
        InsertionMode::AfterHead
    } else {
        InsertionMode::BeforeHead
    }
}

// The mode that a name of this role decides, if it does.
fn decide<S: TreeSink>(sink: &S, state: &State<S::Handle>, role: Role) -> Option<InsertionMode>
    ensures { (below : Mode) → decide (situation_of (world_of S.TreeSink sink.now state.now)) (role_as role) below ≡ unwrap_or result below }
{
    match role {
        Role::Plain => None,
        Role::Html => Some(html_mode(sink, state)),
        Role::Head => Some(InsertionMode::InHead),
        Role::Body => Some(InsertionMode::InBody),
        Role::Frameset => Some(InsertionMode::InFrameset),
        Role::Table => Some(InsertionMode::InTable),
        Role::Template => Some(template_mode(sink, state)),
        Role::Caption => Some(InsertionMode::InCaption),
        Role::Colgroup => Some(InsertionMode::InColumnGroup),
        Role::Section => Some(InsertionMode::InTableBody),
        Role::Row => Some(InsertionMode::InRow),
        Role::Cell => Some(InsertionMode::InCell),
    }
}

fn is_cell_or_head(role: Role) -> bool
    ensures { result ≡ (is_cell_role (role_as role) || is_head (role_as role)) }
{
    matches!(role, Role::Cell | Role::Head)
}

// The mode at the root; there a cell or a head doesn't decide.
fn decide_root<S: TreeSink>(sink: &S, state: &State<S::Handle>, role: Role) -> InsertionMode
    ensures { result ≡ decide_root (situation_of (world_of S.TreeSink sink.now state.now)) (role_as role) }
{
    if is_cell_or_head(role) {
        return InsertionMode::InBody;
    }
    match decide(sink, state, role) {
        Some(mode) => mode,
        None => InsertionMode::InBody,
    }
}

// The mode that the newest deciding element above the root decides, if there is one.
fn decide_above_root<S: TreeSink>(sink: &S, state: &State<S::Handle>) -> Option<InsertionMode>
    requires { IsSound S.TreeSink sink.now state.now }
    ensures some { IfSome result (λ mode. mode ≡ reset (situation_of (world_of S.TreeSink sink.now state.now)) (roles (names_of (world_of S.TreeSink sink.now state.now)))) }
    ensures none { result ≡ None → (root : NameText) → (newer : List NameText) → names_of (world_of S.TreeSink sink.now state.now) ≡ newer ++ root ∷ []
        → reset (situation_of (world_of S.TreeSink sink.now state.now)) (roles (names_of (world_of S.TreeSink sink.now state.now))) ≡ reset (situation_of (world_of S.TreeSink sink.now state.now)) (roles (root ∷ [])) }
{
    let newest = newest_among(sink, state, &DECIDING);
    if newest > 1 {
        decide(sink, state, role_of(name_at(sink, state, newest - 1)))
    } else {
        None
    }
}

/// Returns the insertion mode by the open elements: that of the newest one that decides. In a fragment the context
/// element replaces the root.
#[tactic(auto, unfolding(h5_builder_state::specs::View::world, h5_builder_spec::specs::reset::Reset::reset_mode))]
pub fn reset_insertion_mode<S: TreeSink>(sink: &S, state: &State<S::Handle>) -> InsertionMode
    requires { IsSound S.TreeSink sink.now state.now }
    ensures { result ≡ reset_mode (world_of S.TreeSink sink.now state.now) }
{
    if open_count(sink, state) == 0 {
        return InsertionMode::InBody;
    }
    if let Some(mode) = decide_above_root(sink, state) {
        return mode;
    }
    match &state.context_elem {
        Some(context) => decide_root(sink, state, role_of(sink.elem_name(context))),
        None => decide_root(sink, state, role_of(name_at(sink, state, 0))),
    }
}
