//! Inserts a template, which may become a shadow root (HTML standard, section 13.2.6.4.4, a start tag whose tag name is
//! "template").
ghost use Rattle.std.specs.Prelude.{◌≡◌, IfOk, OnOk};
ghost use Rattle.std.specs.List.{list_any};
ghost use Rattle.h5_names.specs.AttributeText.{attribute_text, attribute_texts};
ghost use Rattle.h5_builder_spec.specs.Rows.{InsertTemplate};
ghost use Rattle.h5_interface.specs.Forest.{IsNode};
ghost use Rattle.h5_interface.specs.Seen.{attach};
ghost use Rattle.h5_builder_spec.specs.Changes.{with_forest};
ghost use Rattle.h5_builder_spec.specs.insertion.FormOwner.{stands_by};
ghost use Rattle.h5_builder_spec.specs.insertion.Place.{place};
ghost use Rattle.h5_builder_spec.specs.insertion.Templates.{asks_for_shadow, attach_or_put, is_more_open, is_shadow_mode, push_loose_template};
ghost use Rattle.h5_builder_state.specs.Steps.{IsOpen, IsSound, MakesIfOk, errors_of, world_of};

use super::insert::{html_qual_name, insert_element};
use super::place::current_place;
use super::put::nodes_of;
use h5_builder_state::{State, current_node, pop, push_open};
use h5_interface::{TreeSink, create_element_with_flags};
use h5_names::{Attribute, KnownName, LocalName};
use h5_token::Tag;
use std::alloc::AllocError;

// The attribute is `shadowrootmode`, with the value `open` or `closed`.
fn is_shadow_mode(attribute: &Attribute) -> bool
    ensures { result ≡ is_shadow_mode (attribute_text attribute.now) }
{
    attribute.name.local.as_str() == "shadowrootmode"
        && (attribute.value.as_str() == "open" || attribute.value.as_str() == "closed")
}

fn any_is_shadow_mode(attrs: &[Attribute]) -> bool
    ensures { result ≡ list_any (λ a. is_shadow_mode (attribute_text a)) attrs.now }
{
    attrs.iter().any(|attribute| is_shadow_mode(attribute))
}

fn has_shadow_mode(attrs: &[Attribute]) -> bool
    ensures { result ≡ list_any is_shadow_mode (attribute_texts attrs.now) }
{
    any_is_shadow_mode(attrs)
}

// More than the root is open.
#[tactic(auto, unfolding(h5_builder_state::specs::View::world))]
fn is_more_open<S: TreeSink>(sink: &S, state: &State<S::Handle>) -> bool
    ensures { result ≡ is_more_open (world_of S.TreeSink sink.now state.now).stack }
{
    state.open_elems.elements.len() > 1
}

// The sink allows a shadow root at the place of insertion.
fn allows_shadow<S: TreeSink>(sink: &S, state: &State<S::Handle>) -> bool
    requires { IsSound S.TreeSink sink.now state.now }
    ensures { result ≡ S.choices.allows_shadow (world_of S.TreeSink sink.now state.now).forest (stands_by (place (world_of S.TreeSink sink.now state.now))) }
{
    let place = current_place(sink, state);
    let (parent, _) = nodes_of::<S>(&place);
    sink.allow_declarative_shadow_roots(parent)
}

// A template may become the shadow root of the current node.
fn asks_for_shadow<S: TreeSink>(sink: &S, state: &State<S::Handle>, attrs: &[Attribute]) -> bool
    requires { IsSound S.TreeSink sink.now state.now }
    ensures { result ≡ asks_for_shadow S.choices (attribute_texts attrs.now) (world_of S.TreeSink sink.now state.now) }
{
    has_shadow_mode(attrs) && allows_shadow(sink, state) && is_more_open(sink, state)
}

// A template without a parent becomes the current node.
#[tactic(auto, unfolding(h5_builder_state::specs::View::world, h5_builder_spec::specs::insertion::Templates::push_loose_template))]
fn push_loose_template<S: TreeSink>(
    sink: &mut S,
    state: &mut State<S::Handle>,
    attrs: Vec<Attribute>,
    had_duplicate_attributes: bool,
) -> Result<S::Handle, AllocError>
    requires { IsSound S.TreeSink sink.old state.old }
    ensures handle { IfOk result (λ template. S.node template ≡ S.choices.fresh (world_of S.TreeSink sink.old state.old).forest) }
    ensures done { OnOk result (world_of S.TreeSink sink.new state.new ≡ push_loose_template S.choices (attribute_texts attrs.items) had_duplicate_attributes (world_of S.TreeSink sink.old state.old)) }
    ensures quiet { errors_of S.TreeSink sink.new ≡ errors_of S.TreeSink sink.old }
    ensures sound { IsSound S.TreeSink sink.new state.new }
{
    let name = html_qual_name(LocalName::from_known(KnownName::Template));
    let handle = create_element_with_flags(sink, name, attrs, had_duplicate_attributes)?;
    let template = sink.clone_handle(&handle);
    push_open(sink, state, handle)?;
    Ok(template)
}

// Offers the contents of a template to the sink as the shadow root of the host. Returns true if the sink attached them.
#[tactic(auto, unfolding(h5_builder_state::specs::View::world))]
fn attach<S: TreeSink>(
    sink: &mut S,
    state: &State<S::Handle>,
    host: &S::Handle,
    template: &S::Handle,
    attrs: &[Attribute],
) -> Result<bool, AllocError>
    requires sound { IsSound S.TreeSink sink.old state.now }
    requires host { IsNode (world_of S.TreeSink sink.old state.now).forest (S.node host.now) }
    requires template { IsNode (world_of S.TreeSink sink.old state.now).forest (S.node template.now) }
    ensures answer { IfOk result (λ attached. attached ≡ S.choices.attaches (world_of S.TreeSink sink.old state.now).forest (S.node host.now) (S.node template.now) (attribute_texts attrs.now)) }
    ensures done { OnOk result (world_of S.TreeSink sink.new state.now ≡ with_forest (attach S.choices (S.node host.now) (S.node template.now) (attribute_texts attrs.now) (world_of S.TreeSink sink.old state.now).forest) (world_of S.TreeSink sink.old state.now)) }
    ensures quiet { errors_of S.TreeSink sink.new ≡ errors_of S.TreeSink sink.old }
    ensures sound { IsSound S.TreeSink sink.new state.now }
{
    sink.attach_declarative_shadow(host, template, attrs)
}

// Offers the contents of the current node, a template, to the sink as the shadow root of the host. If the sink doesn't
// attach them, the template is popped, and another is inserted at the place of insertion.
fn attach_or_put<S: TreeSink>(
    sink: &mut S,
    state: &mut State<S::Handle>,
    host: &S::Handle,
    template: &S::Handle,
    attrs: Vec<Attribute>,
    had_duplicate_attributes: bool,
) -> Result<(), AllocError>
    requires open { IsOpen S.TreeSink sink.old state.old }
    requires host { IsNode (world_of S.TreeSink sink.old state.old).forest (S.node host.now) }
    requires template { IsNode (world_of S.TreeSink sink.old state.old).forest (S.node template.now) }
    ensures done { OnOk result (world_of S.TreeSink sink.new state.new ≡ attach_or_put S.choices (S.node host.now) (S.node template.now) (attribute_texts attrs.items) had_duplicate_attributes (world_of S.TreeSink sink.old state.old)) }
    ensures quiet { errors_of S.TreeSink sink.new ≡ errors_of S.TreeSink sink.old }
    ensures sound { IsSound S.TreeSink sink.new state.new }
{
    if attach(sink, state, host, template, attrs.as_slice())? {
        return Ok(());
    }
    pop(sink, state);
    let name = LocalName::from_known(KnownName::Template);
    insert_element(sink, state, name, attrs, had_duplicate_attributes)
}

/// Inserts an HTML `template`, which becomes the current node: at the place of insertion, or, if its attributes ask for
/// it and the sink attaches its contents, without a parent, as the shadow root of the node that was current. Fails with
/// `AllocError` if an allocation fails.
#[tactic(auto, unfolding(h5_builder_spec::specs::insertion::Templates::insert_template))]
pub fn insert_template<S: TreeSink>(
    sink: &mut S,
    state: &mut State<S::Handle>,
    tag: Tag,
) -> Result<(), AllocError>
    requires { IsSound S.TreeSink sink.old state.old }
    ensures { MakesIfOk S.TreeSink (InsertTemplate (attribute_texts tag.attrs.items) tag.had_duplicate_attributes) sink.old state.old sink.new state.new result }
{
    let had_duplicate_attributes = tag.had_duplicate_attributes;
    if !asks_for_shadow(sink, state, tag.attrs.as_slice()) {
        let name = LocalName::from_known(KnownName::Template);
        return insert_element(sink, state, name, tag.attrs, had_duplicate_attributes);
    }
    let host = current_node(sink, state);
    let copy = tag.clone()?;
    let template = push_loose_template(sink, state, copy.attrs, had_duplicate_attributes)?;
    attach_or_put(
        sink,
        state,
        &host,
        &template,
        tag.attrs,
        had_duplicate_attributes,
    )
}
