//! Moves the furthest block with its clones, and the block's children.
ghost use Rattle.std.specs.Prelude.{◌≡◌, IfOk, OnOk};
ghost use Rattle.h5_token.specs.TokenText.{tag_text};
ghost use Rattle.h5_interface.specs.Changes.{detach, reparent};
ghost use Rattle.h5_interface.specs.Forest.{ChildNode, IsNode};
ghost use Rattle.h5_interface.specs.Seen.{changed, with_last_child};
ghost use Rattle.h5_builder_spec.specs.formatting.AdoptionAgency.{make_for, KeepsKinds};
ghost use Rattle.h5_builder_spec.specs.insertion.Place.{appropriate_place, put};
ghost use Rattle.h5_builder_spec.specs.World.{root};
ghost use Rattle.h5_builder_spec.specs.stack.Order.{IsIn, first_or};
ghost use Rattle.h5_builder_state.specs.Steps.{IsSound, errors_of, world_of};
ghost use Rattle.h5_builder_state.specs.View.{stack_under};
ghost use Rattle.h5_builder_actions.specs.Hanging.{MayMove};

use super::hang::make_for;
use crate::{appropriate_place_for_insertion, insert_at};
use h5_builder_state::{State, handle_at};
use h5_interface::{NodeOrText, TreeSink};
use h5_token::Tag;
use std::alloc::AllocError;

/// Moves the outermost of the clones around the furthest block, or the block itself, to the appropriate place for
/// inserting a node into the element that is next older than the formatting element, which must be at this place. Fails
/// with `AllocError` if an allocation fails; the moved node may then have no parent.
pub fn move_block<S: TreeSink>(
    sink: &mut S,
    state: &State<S::Handle>,
    place: usize,
    outermost: &S::Handle,
) -> Result<(), AllocError>
    requires sound { IsSound S.TreeSink sink.old state.now }
    requires may { MayMove place (S.node outermost.now) (world_of S.TreeSink sink.old state.now) }
    ensures done { OnOk result (S.sees sink.new ≡ changed (λ f.
        put (appropriate_place (world_of S.TreeSink sink.old state.now) (first_or (root (world_of S.TreeSink sink.old state.now)) (stack_under S.node state.now place)))
        (ChildNode (S.node outermost.now)) (detach (S.node outermost.now) f)) (S.sees sink.old)) }
    ensures quiet { errors_of S.TreeSink sink.new ≡ errors_of S.TreeSink sink.old }
    ensures sound { IsSound S.TreeSink sink.new state.now }
    ensures kinds { KeepsKinds (S.sees sink.old).forest (S.sees sink.new).forest }
{
    let target = handle_at(sink, state, place - 1);
    let point = appropriate_place_for_insertion(sink, state, target);
    sink.remove_from_parent(outermost)?;
    let child = NodeOrText::AppendNode(sink.clone_handle(outermost));
    insert_at(sink, &point, child)
}

/// Moves the children of the furthest block below a new element for the formatting element's tag, which becomes the
/// block's child. Fails with `AllocError` if an allocation fails; the changes made until then stay.
pub fn refill<S: TreeSink>(
    sink: &mut S,
    state: &State<S::Handle>,
    tag: &Tag,
    block: &S::Handle,
) -> Result<S::Handle, AllocError>
    requires sound { IsSound S.TreeSink sink.old state.now }
    requires block { IsIn (S.node block.now) (world_of S.TreeSink sink.old state.now).stack }
    ensures handle { IfOk result (λ clone. S.node clone ≡ S.choices.fresh (S.sees sink.old).forest) }
    ensures node { IfOk result (λ clone. IsNode (S.sees sink.new).forest (S.node clone)) }
    ensures done { OnOk result (S.sees sink.new ≡ changed (λ f.
        with_last_child (S.node block.now) (ChildNode (S.choices.fresh f)) (reparent (S.node block.now) (S.choices.fresh f) (make_for S.choices (tag_text tag.now) f))) (S.sees sink.old)) }
    ensures quiet { errors_of S.TreeSink sink.new ≡ errors_of S.TreeSink sink.old }
    ensures sound { IsSound S.TreeSink sink.new state.now }
    ensures kinds { KeepsKinds (S.sees sink.old).forest (S.sees sink.new).forest }
{
    let clone = make_for(sink, tag)?;
    sink.reparent_children(block, &clone)?;
    let child = NodeOrText::AppendNode(sink.clone_handle(&clone));
    sink.append(block, child)?;
    Ok(clone)
}
