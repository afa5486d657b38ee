//! Creates elements for the tags of listed elements, and moves nodes below them.
ghost use Rattle.std.specs.Prelude.{◌≡◌, IfOk, OnErr, OnOk, Some};
ghost use Rattle.h5_token.specs.TokenText.{tag_text};
ghost use Rattle.h5_interface.specs.Forest.{IsElement, IsForest, IsNode};
ghost use Rattle.h5_interface.specs.Seen.{changed};
ghost use Rattle.h5_interface.specs.SinkChoices.{Rearranges};
ghost use Rattle.h5_builder_spec.specs.formatting.AdoptionAgency.{make_for, wrapped};
ghost use Rattle.h5_builder_actions.specs.Hanging.{MayHang};

use crate::html_qual_name;
use h5_interface::{NodeOrText, TreeSink, create_element_with_flags};
use h5_token::Tag;
use std::alloc::AllocError;

/// Creates an HTML element for a tag, without a parent. Fails with `AllocError` if an allocation fails; then nothing
/// changes.
pub fn make_for<S: TreeSink>(sink: &mut S, tag: &Tag) -> Result<S::Handle, AllocError>
    ensures handle { IfOk result (λ element. S.node element ≡ S.choices.fresh (S.sees sink.old).forest) }
    ensures element { IfOk result (λ element. IsElement (S.sees sink.new).forest (S.node element)) }
    ensures ok { OnOk result (S.sees sink.new ≡ changed (make_for S.choices (tag_text tag.now)) (S.sees sink.old)) }
    ensures err { OnErr result (S.sees sink.new ≡ S.sees sink.old) }
{
    let copy = tag.clone()?;
    let name = html_qual_name(copy.name);
    create_element_with_flags(sink, name, copy.attrs, copy.had_duplicate_attributes)
}

/// Creates an HTML element for a tag, and moves a node below it. Fails with `AllocError` if an allocation fails; the
/// node may then have no parent.
pub fn wrap<S: TreeSink>(sink: &mut S, tag: &Tag, last: &S::Handle) -> Result<S::Handle, AllocError>
    requires is_forest { IsForest (S.sees sink.old).forest }
    requires last { MayHang (S.sees sink.old).forest (S.node last.now) }
    ensures handle { IfOk result (λ element. S.node element ≡ S.choices.fresh (S.sees sink.old).forest) }
    ensures node { IfOk result (λ element. IsNode (S.sees sink.new).forest (S.node element)) }
    ensures ok { OnOk result (S.sees sink.new ≡ changed (wrapped S.choices (Some (tag_text tag.now)) (S.node last.now)) (S.sees sink.old)) }
    ensures err { OnErr result (Rearranges (S.sees sink.old).forest (S.sees sink.new).forest) }
    ensures quiet { (S.sees sink.new).errors ≡ (S.sees sink.old).errors }
{
    let element = make_for(sink, tag)?;
    sink.remove_from_parent(last)?;
    let child = NodeOrText::AppendNode(sink.clone_handle(last));
    sink.append(&element, child)?;
    Ok(element)
}
