//! Inserts elements, comments and texts (HTML standard, section 13.2.6.1, "Creating and inserting nodes"). Except where
//! another place is given, they are inserted at the place of insertion.
ghost use Rattle.std.specs.Prelude.{◌≡◌, ◌≢◌, ℕ, [], false, MatchOption, OnOk, option_map, string_bytes};
ghost use Rattle.h5_names.specs.AttributeText.{attribute_texts};
ghost use Rattle.h5_names.specs.KnownNames.{name_text};
ghost use Rattle.h5_interface.specs.Forest.{Forest, IsNode};
ghost use Rattle.h5_interface.specs.SinkChoices.{SinkChoices};
ghost use Rattle.h5_builder_spec.specs.Changes.{push_new, starts_marked};
ghost use Rattle.h5_builder_spec.specs.insertion.FormOwner.{associates};
ghost use Rattle.h5_builder_spec.specs.insertion.Place.{IsPlaceIn, LastChild, Place};
ghost use Rattle.h5_builder_spec.specs.Rows.{AppendComment, AppendCommentToDoc, AppendCommentToHtml, AppendText, CreateRoot, InsertAndPopElement, InsertAndPopForm, InsertElement, InsertForm, InsertHead, InsertScript};
ghost use Rattle.h5_builder_spec.specs.formatting.FormattingNames.{html_name};
ghost use Rattle.h5_builder_actions.specs.Notices.{IsNodeIfTold, marking_of};
ghost use Rattle.h5_builder_actions.specs.Places.{place_of};
ghost use Rattle.h5_builder_state.specs.Steps.{IsSound, MakesIfOk, errors_of, world_of};

use super::form_owner::form_owner;
use super::place::{InsertionPoint, current_place};
use super::put::{Notice, insert_new_comment, insert_new_element, insert_text};
use h5_builder_state::{State, current_node, has_open_template, push_open, root_node};
use h5_interface::TreeSink;
use h5_names::{Attribute, KnownName, LocalName, Namespace, QualName};
use h5_token::Tag;
use std::alloc::AllocError;

/// Returns the HTML name with this local name.
pub fn html_qual_name(local: LocalName) -> QualName
    ensures { result ≡ html_name local }
{
    QualName::new(None, Namespace::html(), local)
}

// The notice of a form owner, if there is one.
fn associated_with<Handle>(owner: Option<Handle>) -> Notice<Handle>
    ensures marking { (node : Handle → ℕ) (choices : SinkChoices) (element : ℕ) (p : Place) → marking_of node choices result element p ≡ associates choices element p (option_map node owner) }
    ensures form { (node : Handle → ℕ) (f : Forest) → MatchOption owner (Unit {0}) (λ form. IsNode f (node form)) → IsNodeIfTold node f result }
{
    match owner {
        Some(form) => Notice::FormOwner(form),
        None => Notice::Nothing,
    }
}

// Inserts an HTML element of this name at a place, after the notice to the sink; it becomes the current node. If no
// element is open, the place is in the document.
#[tactic(auto, unfolding(h5_builder_state::specs::View::world))]
#[inline(always)]
fn push_element_at<S: TreeSink>(
    sink: &mut S,
    state: &mut State<S::Handle>,
    place: &InsertionPoint<S::Handle>,
    local: LocalName,
    attrs: Vec<Attribute>,
    had_duplicate_attributes: bool,
    notice: Notice<S::Handle>,
) -> Result<(), AllocError>
    requires sound { IsSound S.TreeSink sink.old state.old }
    requires place { IsPlaceIn (world_of S.TreeSink sink.old state.old).forest (place_of S.node place.now) }
    requires first { (world_of S.TreeSink sink.old state.old).stack ≡ [] → place_of S.node place.now ≡ LastChild (world_of S.TreeSink sink.old state.old).forest.document }
    requires form { IsNodeIfTold S.node (world_of S.TreeSink sink.old state.old).forest notice }
    ensures done { OnOk result
        (world_of S.TreeSink sink.new state.new ≡ push_new S.choices (place_of S.node place.now) local (attribute_texts attrs.items) had_duplicate_attributes
        (marking_of S.node S.choices notice (S.choices.fresh (world_of S.TreeSink sink.old state.old).forest) (place_of S.node place.now)) (world_of S.TreeSink sink.old state.old)) }
    ensures quiet { errors_of S.TreeSink sink.new ≡ errors_of S.TreeSink sink.old }
    ensures sound { IsSound S.TreeSink sink.new state.new }
{
    let name = html_qual_name(local);
    let handle = insert_new_element(sink, place, name, attrs, had_duplicate_attributes, notice)?;
    push_open(sink, state, handle)
}

/// Inserts an HTML element of this name; it becomes the current node. Fails with `AllocError` if an allocation fails.
#[tactic(auto, unfolding(h5_builder_spec::specs::Changes::insert_element))]
pub fn insert_element<S: TreeSink>(
    sink: &mut S,
    state: &mut State<S::Handle>,
    local: LocalName,
    attrs: Vec<Attribute>,
    had_duplicate_attributes: bool,
) -> Result<(), AllocError>
    requires { IsSound S.TreeSink sink.old state.old }
    ensures { MakesIfOk S.TreeSink (InsertElement local (attribute_texts attrs.items) had_duplicate_attributes) sink.old state.old sink.new state.new result }
{
    let place = current_place(sink, state);
    let notice = associated_with(form_owner(sink, state, &local, attrs.as_slice()));
    push_element_at(
        sink,
        state,
        &place,
        local,
        attrs,
        had_duplicate_attributes,
        notice,
    )
}

/// Inserts an HTML element of this name, without pushing it. Fails with `AllocError` if an allocation fails.
#[tactic(auto, unfolding(h5_builder_state::specs::View::world, h5_builder_spec::specs::Changes::insert_and_pop_element))]
pub fn insert_and_pop_element<S: TreeSink>(
    sink: &mut S,
    state: &State<S::Handle>,
    local: LocalName,
    attrs: Vec<Attribute>,
    had_duplicate_attributes: bool,
) -> Result<(), AllocError>
    requires { IsSound S.TreeSink sink.old state.now }
    ensures { MakesIfOk S.TreeSink (InsertAndPopElement local (attribute_texts attrs.items) had_duplicate_attributes) sink.old state.now sink.new state.now result }
{
    let place = current_place(sink, state);
    let notice = associated_with(form_owner(sink, state, &local, attrs.as_slice()));
    let name = html_qual_name(local);
    insert_new_element(sink, &place, name, attrs, had_duplicate_attributes, notice)?;
    Ok(())
}

/// Inserts the HTML element of a start tag; it becomes the current node. Fails with `AllocError` if an allocation fails.
pub fn insert_tag<S: TreeSink>(
    sink: &mut S,
    state: &mut State<S::Handle>,
    tag: Tag,
) -> Result<(), AllocError>
    requires { IsSound S.TreeSink sink.old state.old }
    ensures { MakesIfOk S.TreeSink (InsertElement tag.name (attribute_texts tag.attrs.items) tag.had_duplicate_attributes) sink.old state.old sink.new state.new result }
{
    let attrs = tag.attrs;
    insert_element(sink, state, tag.name, attrs, tag.had_duplicate_attributes)
}

/// Inserts the HTML element of a start tag, without pushing it. Fails with `AllocError` if an allocation fails.
pub fn insert_and_pop_tag<S: TreeSink>(
    sink: &mut S,
    state: &State<S::Handle>,
    tag: Tag,
) -> Result<(), AllocError>
    requires { IsSound S.TreeSink sink.old state.now }
    ensures { MakesIfOk S.TreeSink (InsertAndPopElement tag.name (attribute_texts tag.attrs.items) tag.had_duplicate_attributes) sink.old state.now sink.new state.now result }
{
    let attrs = tag.attrs;
    insert_and_pop_element(sink, state, tag.name, attrs, tag.had_duplicate_attributes)
}

/// Inserts an HTML `form`, without pushing it; it becomes the form element. Fails with `AllocError` if an allocation
/// fails.
#[tactic(auto, unfolding(h5_builder_state::specs::View::world, h5_builder_spec::specs::Changes::insert_and_pop_element, h5_builder_spec::specs::Changes::insert_and_pop_form))]
pub fn insert_and_pop_form<S: TreeSink>(
    sink: &mut S,
    state: &mut State<S::Handle>,
    attrs: Vec<Attribute>,
    had_duplicate_attributes: bool,
) -> Result<(), AllocError>
    requires { IsSound S.TreeSink sink.old state.old }
    ensures { MakesIfOk S.TreeSink (InsertAndPopForm (attribute_texts attrs.items) had_duplicate_attributes) sink.old state.old sink.new state.new result }
{
    let place = current_place(sink, state);
    let name = html_qual_name(LocalName::from_known(KnownName::Form));
    let form = insert_new_element(
        sink,
        &place,
        name,
        attrs,
        had_duplicate_attributes,
        Notice::Nothing,
    )?;
    state.form_elem = Some(form);
    Ok(())
}

/// Inserts an HTML `form`; it becomes the current node and, unless a template is open, the form element. Fails with
/// `AllocError` if an allocation fails.
#[tactic(auto, unfolding(h5_builder_state::specs::View::world, h5_builder_spec::specs::Changes::insert_form))]
pub fn insert_form<S: TreeSink>(
    sink: &mut S,
    state: &mut State<S::Handle>,
    attrs: Vec<Attribute>,
    had_duplicate_attributes: bool,
) -> Result<(), AllocError>
    requires { IsSound S.TreeSink sink.old state.old }
    ensures { MakesIfOk S.TreeSink (InsertForm (attribute_texts attrs.items) had_duplicate_attributes) sink.old state.old sink.new state.new result }
{
    let in_template = has_open_template(sink, state);
    let form = LocalName::from_known(KnownName::Form);
    insert_element(sink, state, form, attrs, had_duplicate_attributes)?;
    if !in_template {
        state.form_elem = Some(current_node(sink, state));
    }
    Ok(())
}

/// Inserts an HTML element of this name, without attributes; it becomes the current node. Fails with `AllocError` if an
/// allocation fails.
#[tactic(auto, unfolding(h5_builder_spec::specs::Changes::insert_element))]
pub fn insert_phantom<S: TreeSink>(
    sink: &mut S,
    state: &mut State<S::Handle>,
    name: KnownName,
) -> Result<(), AllocError>
    requires { IsSound S.TreeSink sink.old state.old }
    ensures { MakesIfOk S.TreeSink (InsertElement (name_text name) [] false) sink.old state.old sink.new state.new result }
{
    let attrs = Vec::new(state.alloc);
    insert_element(sink, state, LocalName::from_known(name), attrs, false)
}

/// Inserts the root as the document's last child; it becomes the current node. Fails with `AllocError` if an allocation
/// fails.
#[tactic(auto, unfolding(h5_builder_state::specs::View::world, h5_builder_spec::specs::Changes::create_root))]
pub fn create_root<S: TreeSink>(
    sink: &mut S,
    state: &mut State<S::Handle>,
    attrs: Vec<Attribute>,
) -> Result<(), AllocError>
    requires { IsSound S.TreeSink sink.old state.old }
    ensures { MakesIfOk S.TreeSink (CreateRoot (attribute_texts attrs.items)) sink.old state.old sink.new state.new result }
{
    let place = InsertionPoint::LastChild(sink.get_document());
    push_element_at(
        sink,
        state,
        &place,
        LocalName::from_known(KnownName::Html),
        attrs,
        false,
        Notice::Nothing,
    )
}

/// Inserts the head; it becomes the current node and the head element. Fails with `AllocError` if an allocation fails.
#[tactic(auto, unfolding(h5_builder_state::specs::View::world, h5_builder_spec::specs::Changes::insert_head))]
pub fn insert_head<S: TreeSink>(
    sink: &mut S,
    state: &mut State<S::Handle>,
    attrs: Vec<Attribute>,
    had_duplicate_attributes: bool,
) -> Result<(), AllocError>
    requires { IsSound S.TreeSink sink.old state.old }
    ensures { MakesIfOk S.TreeSink (InsertHead (attribute_texts attrs.items) had_duplicate_attributes) sink.old state.old sink.new state.new result }
{
    let head = LocalName::from_known(KnownName::Head);
    insert_element(sink, state, head, attrs, had_duplicate_attributes)?;
    state.head_elem = Some(current_node(sink, state));
    Ok(())
}

// In a fragment, the sink is notified that a script has started.
#[tactic(auto, unfolding(h5_builder_state::specs::View::world))]
fn script_notice<S: TreeSink>(sink: &S, state: &State<S::Handle>) -> Notice<S::Handle>
    ensures marking { (p : Place) → marking_of S.node S.choices result (S.choices.fresh (world_of S.TreeSink sink.now state.now).forest) p ≡ starts_marked S.choices (world_of S.TreeSink sink.now state.now) }
    ensures form { IsNodeIfTold S.node (world_of S.TreeSink sink.now state.now).forest result }
{
    match &state.context_elem {
        Some(_) => Notice::AlreadyStarted,
        None => Notice::Nothing,
    }
}

/// Inserts an HTML `script`; it becomes the current node. In a fragment the sink is notified before that it has
/// started. Fails with `AllocError` if an allocation fails.
#[tactic(auto, unfolding(h5_builder_state::specs::View::world, h5_builder_spec::specs::Changes::insert_script))]
pub fn insert_script<S: TreeSink>(
    sink: &mut S,
    state: &mut State<S::Handle>,
    attrs: Vec<Attribute>,
    had_duplicate_attributes: bool,
) -> Result<(), AllocError>
    requires { IsSound S.TreeSink sink.old state.old }
    ensures { MakesIfOk S.TreeSink (InsertScript (attribute_texts attrs.items) had_duplicate_attributes) sink.old state.old sink.new state.new result }
{
    let place = current_place(sink, state);
    let notice = script_notice(sink, state);
    push_element_at(
        sink,
        state,
        &place,
        LocalName::from_known(KnownName::Script),
        attrs,
        had_duplicate_attributes,
        notice,
    )
}

/// Inserts a comment. Fails with `AllocError` if an allocation fails.
#[tactic(auto, unfolding(h5_builder_state::specs::View::world, h5_builder_spec::specs::Changes::append_comment))]
pub fn append_comment<S: TreeSink>(
    sink: &mut S,
    state: &State<S::Handle>,
    text: String,
) -> Result<(), AllocError>
    requires { IsSound S.TreeSink sink.old state.now }
    ensures { MakesIfOk S.TreeSink (AppendComment (string_bytes text)) sink.old state.now sink.new state.now result }
{
    let place = current_place(sink, state);
    insert_new_comment(sink, &place, text)
}

/// Inserts a text, which must not be empty. Fails with `AllocError` if an allocation fails.
#[tactic(auto, unfolding(h5_builder_state::specs::View::world, h5_builder_spec::specs::Changes::append_text))]
#[inline(always)]
pub fn append_text<S: TreeSink>(
    sink: &mut S,
    state: &State<S::Handle>,
    text: String,
) -> Result<(), AllocError>
    requires sound { IsSound S.TreeSink sink.old state.now }
    requires text { string_bytes text ≢ [] }
    ensures { MakesIfOk S.TreeSink (AppendText (string_bytes text)) sink.old state.now sink.new state.now result }
{
    let place = current_place(sink, state);
    insert_text(sink, &place, text)
}

/// Inserts a comment as the last child of the document. Fails with `AllocError` if an allocation fails.
#[tactic(auto, unfolding(h5_builder_state::specs::View::world, h5_builder_spec::specs::Changes::append_comment_to_doc))]
pub fn append_comment_to_doc<S: TreeSink>(
    sink: &mut S,
    state: &State<S::Handle>,
    text: String,
) -> Result<(), AllocError>
    requires { IsSound S.TreeSink sink.old state.now }
    ensures { MakesIfOk S.TreeSink (AppendCommentToDoc (string_bytes text)) sink.old state.now sink.new state.now result }
{
    let place = InsertionPoint::LastChild(sink.get_document());
    insert_new_comment(sink, &place, text)
}

/// Inserts a comment as the last child of the root. Fails with `AllocError` if an allocation fails.
#[tactic(auto, unfolding(h5_builder_state::specs::View::world, h5_builder_spec::specs::Changes::append_comment_to_html))]
pub fn append_comment_to_html<S: TreeSink>(
    sink: &mut S,
    state: &State<S::Handle>,
    text: String,
) -> Result<(), AllocError>
    requires { IsSound S.TreeSink sink.old state.now }
    ensures { MakesIfOk S.TreeSink (AppendCommentToHtml (string_bytes text)) sink.old state.now sink.new state.now result }
{
    let place = InsertionPoint::LastChild(root_node(sink, state));
    insert_new_comment(sink, &place, text)
}
