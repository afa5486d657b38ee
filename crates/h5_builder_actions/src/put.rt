//! Inserts nodes at a place, regardless of the open elements. If an allocation fails, the forest is unchanged, or has
//! one more node.
ghost use Rattle.std.specs.Prelude.{◌≡◌, ◌≢◌, [], IfOk, OnErr, OnOk, option_map, string_bytes};
ghost use Rattle.h5_names.specs.AttributeText.{attribute_texts};
ghost use Rattle.h5_interface.specs.Forest.{ChildText, IsElement, IsForest};
ghost use Rattle.h5_interface.specs.Seen.{changed, child_of};
ghost use Rattle.h5_interface.specs.SinkChoices.{Rearranges};
ghost use Rattle.h5_builder_spec.specs.Changes.{new_comment, new_element};
ghost use Rattle.h5_builder_spec.specs.insertion.FormOwner.{marked_by, stands_by, stands_else_in};
ghost use Rattle.h5_builder_spec.specs.insertion.Place.{CanPut, IsPlaceIn, put};
ghost use Rattle.h5_builder_actions.specs.Notices.{IsNodeIfTold, marking_of};
ghost use Rattle.h5_builder_actions.specs.Places.{place_of};

use super::place::InsertionPoint;
use h5_interface::{NodeOrText, TreeSink, create_element_with_flags};
use h5_names::{Attribute, QualName};
use std::alloc::AllocError;

/// Inserts a node or a text at a place. Fails with `AllocError` if an allocation fails; then nothing changes.
#[inline(always)]
pub fn insert_at<S: TreeSink>(
    sink: &mut S,
    place: &InsertionPoint<S::Handle>,
    child: NodeOrText<S::Handle>,
) -> Result<(), AllocError>
    requires { CanPut (S.sees sink.old).forest (place_of S.node place.now) (child_of S.node child) }
    ensures ok { OnOk result (S.sees sink.new ≡ changed (put (place_of S.node place.now) (child_of S.node child)) (S.sees sink.old)) }
    ensures err { OnErr result (S.sees sink.new ≡ S.sees sink.old) }
{
    match place {
        InsertionPoint::LastChild(parent) => sink.append(parent, child),
        InsertionPoint::TableFosterParenting(element, prev_element) => {
            sink.append_based_on_parent_node(element, prev_element, child)
        }
    }
}

/// Returns the nodes that determine a place: the node in which it is, or the table, and the other node for the case
/// that the table has no parent.
pub fn nodes_of<S: TreeSink>(place: &InsertionPoint<S::Handle>) -> (&S::Handle, Option<&S::Handle>)
    ensures first { S.node result.0.now ≡ stands_by (place_of S.node place.now) }
    ensures other { option_map (λ outer. S.node outer.now) result.1 ≡ stands_else_in (place_of S.node place.now) }
{
    match place {
        InsertionPoint::LastChild(parent) => (parent, None),
        InsertionPoint::TableFosterParenting(element, prev_element) => {
            (element, Some(prev_element))
        }
    }
}

/// A notice to the sink of a new element, before the element is inserted.
#[derive(Drop)]
pub enum Notice<Handle> {
    /// No notice.
    Nothing,
    /// The form owner (HTML standard, section 4.10.18, form owner).
    FormOwner(Handle),
    /// The element is a script that has started (HTML standard, section 4.12.1, already started).
    AlreadyStarted,
}

// Notifies the sink of a new element and, with its form owner, of the place where it will be inserted.
#[inline(always)]
fn tell_sink_of_element<S: TreeSink>(
    sink: &mut S,
    element: &S::Handle,
    place: &InsertionPoint<S::Handle>,
    notice: &Notice<S::Handle>,
)
    requires element { IsElement (S.sees sink.old).forest (S.node element.now) }
    requires place { IsPlaceIn (S.sees sink.old).forest (place_of S.node place.now) }
    requires form { IsNodeIfTold S.node (S.sees sink.old).forest notice.now }
    ensures { S.sees sink.new ≡ changed (marked_by (marking_of S.node S.choices notice.now (S.node element.now) (place_of S.node place.now))) (S.sees sink.old) }
{
    match notice {
        Notice::Nothing => {}
        Notice::FormOwner(form) => {
            let nodes = nodes_of::<S>(place);
            sink.associate_with_form(element, form, nodes);
        }
        Notice::AlreadyStarted => sink.mark_script_already_started(element),
    }
}

/// Creates an element and inserts it at a place, after the notice to the sink. Fails with `AllocError` if an allocation
/// fails.
#[inline(always)]
pub fn insert_new_element<S: TreeSink>(
    sink: &mut S,
    place: &InsertionPoint<S::Handle>,
    name: QualName,
    attrs: Vec<Attribute>,
    had_duplicate_attributes: bool,
    notice: Notice<S::Handle>,
) -> Result<S::Handle, AllocError>
    requires is_forest { IsForest (S.sees sink.old).forest }
    requires place { IsPlaceIn (S.sees sink.old).forest (place_of S.node place.now) }
    requires form { IsNodeIfTold S.node (S.sees sink.old).forest notice }
    ensures handle { IfOk result (λ element. S.node element ≡ S.choices.fresh (S.sees sink.old).forest) }
    ensures done { OnOk result
        (S.sees sink.new ≡ changed (new_element S.choices (place_of S.node place.now) name (attribute_texts attrs.items) had_duplicate_attributes
        (marking_of S.node S.choices notice (S.choices.fresh (S.sees sink.old).forest) (place_of S.node place.now))) (S.sees sink.old)) }
    ensures quiet { (S.sees sink.new).errors ≡ (S.sees sink.old).errors }
    ensures rearranged { Rearranges (S.sees sink.old).forest (S.sees sink.new).forest }
{
    let element = create_element_with_flags(sink, name, attrs, had_duplicate_attributes)?;
    tell_sink_of_element(sink, &element, place, &notice);
    let child = sink.clone_handle(&element);
    insert_at(sink, place, NodeOrText::AppendNode(child))?;
    Ok(element)
}

/// Creates a comment and inserts it at a place. Fails with `AllocError` if an allocation fails.
pub fn insert_new_comment<S: TreeSink>(
    sink: &mut S,
    place: &InsertionPoint<S::Handle>,
    text: String,
) -> Result<(), AllocError>
    requires is_forest { IsForest (S.sees sink.old).forest }
    requires place { IsPlaceIn (S.sees sink.old).forest (place_of S.node place.now) }
    ensures done { OnOk result
        (S.sees sink.new ≡ changed (new_comment S.choices (place_of S.node place.now) (string_bytes text)) (S.sees sink.old)) }
    ensures quiet { (S.sees sink.new).errors ≡ (S.sees sink.old).errors }
    ensures rearranged { Rearranges (S.sees sink.old).forest (S.sees sink.new).forest }
{
    let comment = sink.create_comment(text)?;
    insert_at(sink, place, NodeOrText::AppendNode(comment))
}

/// Inserts a text, which must not be empty, at a place. Fails with `AllocError` if an allocation fails.
#[inline(always)]
pub fn insert_text<S: TreeSink>(
    sink: &mut S,
    place: &InsertionPoint<S::Handle>,
    text: String,
) -> Result<(), AllocError>
    requires is_forest { IsForest (S.sees sink.old).forest }
    requires place { IsPlaceIn (S.sees sink.old).forest (place_of S.node place.now) }
    requires text { string_bytes text ≢ [] }
    ensures done { OnOk result
        (S.sees sink.new ≡ changed (put (place_of S.node place.now) (ChildText (string_bytes text))) (S.sees sink.old)) }
    ensures quiet { (S.sees sink.new).errors ≡ (S.sees sink.old).errors }
    ensures rearranged { Rearranges (S.sees sink.old).forest (S.sees sink.new).forest }
{
    insert_at(sink, place, NodeOrText::AppendText(text))
}
