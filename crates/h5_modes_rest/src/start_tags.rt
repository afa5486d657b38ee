//! Start tags in foreign content.
ghost use Rattle.std.specs.Prelude.{◌≡◌, IfOk};
ghost use Rattle.h5_token.specs.TokenText.{TagText, tag_text};
ghost use Rattle.h5_tables.specs.TurnText.{TagTurn};
ghost use Rattle.h5_builder_spec.specs.insertion.Foreign.{adjusted_local, adjusted_namespace};
ghost use Rattle.h5_builder_spec.specs.modes.ForeignContent.{foreign_start, foreign_start_other, unexpected_in_foreign_content};
ghost use Rattle.h5_modes_rest.specs.ForeignSteps.{CameTo, Steps};
ghost use Rattle.h5_builder_state.specs.Steps.{IsSound, errors_of, world_of};
ghost use Rattle.h5_builder_state.specs.Turn.{TakesTag};

use super::names::breaks_out;
use super::step::ForeignStep;
use h5_builder_actions::{adjusted_current_node, insert_foreign_for, leave_foreign_content};
use h5_builder_state::{State, Turn, report_tag};
use h5_interface::TreeSink;
use h5_names::Namespace;
use h5_tables::{Token, TreeError, adjust_svg_tag_name};
use h5_token::Tag;
use std::alloc::AllocError;

// A tag that leaves foreign content, and is then left to the rules of the mode.
pub(crate) fn unexpected_in_foreign_content<S: TreeSink>(
    sink: &mut S,
    state: &mut State<S::Handle>,
    tag: Tag,
) -> ForeignStep
    requires { IsSound S.TreeSink sink.old state.old }
    ensures came { CameTo S.choices S.node unexpected_in_foreign_content (TagTurn (tag_text tag)) (world_of S.TreeSink sink.old state.old) (world_of S.TreeSink sink.new state.new) (errors_of S.TreeSink sink.old) (errors_of S.TreeSink sink.new) state.new result }
    ensures sound { IsSound S.TreeSink sink.new state.new }
{
    report_tag(sink, state, TreeError::HtmlElementInForeignContent, &tag);
    leave_foreign_content(sink, state);
    ForeignStep::ByMode(Token::Tag(tag))
}

// The namespace of the adjusted current node.
fn adjusted_namespace<S: TreeSink>(
    sink: &S,
    state: &State<S::Handle>,
) -> Result<Namespace, AllocError>
    requires { IsSound S.TreeSink sink.now state.now }
    ensures { IfOk result (λ namespace. namespace ≡ adjusted_namespace (world_of S.TreeSink sink.now state.now)) }
{
    match adjusted_current_node(sink, state) {
        Some(node) => sink.elem_name(node).ns.clone(),
        None => Ok(Namespace::none()),
    }
}

// The tag with the name that its element has in a namespace.
#[tactic(auto, unfolding(h5_builder_spec::specs::insertion::Foreign::adjusted_local, h5_tables::specs::TagSets::svg_namespace))]
fn with_adjusted_name(namespace: &Namespace, tag: Tag) -> Tag
    ensures { tag_text result ≡ record (tag_text tag) { name = adjusted_local namespace.now tag.name } }
{
    if namespace.is_svg() {
        Tag {
            name: adjust_svg_tag_name(tag.name),
            ..tag
        }
    } else {
        tag
    }
}

// Any other start tag: an element in the namespace of the adjusted current node.
fn foreign_start_other<S: TreeSink>(sink: &mut S, state: &mut State<S::Handle>, tag: Tag) -> Turn
    requires { IsSound S.TreeSink sink.old state.old }
    ensures { TakesTag S.TreeSink foreign_start_other tag sink.old state.old sink.new state.new result }
{
    let namespace = adjusted_namespace(sink, state)?;
    let adjusted = with_adjusted_name(&namespace, tag);
    insert_foreign_for(sink, state, namespace, adjusted)
}

#[tactic(auto, unfolding(h5_builder_spec::specs::modes::ForeignContent::foreign_start))]
pub(crate) fn foreign_start<S: TreeSink>(
    sink: &mut S,
    state: &mut State<S::Handle>,
    tag: Tag,
) -> Result<ForeignStep, AllocError>
    requires { IsSound S.TreeSink sink.old state.old }
    ensures { Steps S.TreeSink (foreign_start (tag_text tag)) (TagTurn (tag_text tag)) sink.old state.old sink.new state.new result }
{
    if breaks_out(&tag) {
        Ok(unexpected_in_foreign_content(sink, state, tag))
    } else {
        Ok(ForeignStep::Ended(foreign_start_other(sink, state, tag)?))
    }
}
