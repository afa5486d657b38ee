//! Formatting elements and elements without contents in the body (HTML standard, section 13.2.6.4.7).
ghost use Rattle.std.specs.Prelude.{◌<◌, ◌∷◌, ◌≡◌, IsTrue, OnOk, [], codes, false, true};
ghost use Rattle.h5_names.specs.AttributeText.{attribute_texts};
ghost use Rattle.h5_tables.specs.TagSets.{formatting_names, is_default_scope, is_html_named, is_one_of};
ghost use Rattle.h5_builder_spec.specs.stack.Scope.{in_scope};
ghost use Rattle.h5_builder_spec.specs.formatting.AdoptionAgency.{closes_one, handle_misnested_nobr_tags, is_named_listed};
ghost use Rattle.h5_builder_spec.specs.modes.InBody.{in_body_end_br, in_body_end_formatting, in_body_start_a, in_body_start_formatting, in_body_start_nobr, in_body_start_void};
ghost use Rattle.h5_builder_spec.specs.Rows.{InsertAndPopElement, ReconstructActiveFormattingElements, SetFramesetNotOk, apply_all};
ghost use Rattle.h5_builder_spec.specs.inner.Kept.{HasHtmlRoot};
ghost use Rattle.h5_builder_spec.specs.World.{names_of};
ghost use Rattle.h5_builder_state.specs.Steps.{IsSound, TellsErrors, errors_of, world_of};
ghost use Rattle.h5_builder_state.specs.Turn.{TakesTag};

use h5_builder_actions::{
    adoption_agency, closes_one, create_formatting_element, handle_misnested_a_tags,
    insert_and_pop_element, is_named_listed, reconstruct_active_formatting_elements,
};
use h5_builder_state::{
    State, Turn, in_scope_named, report_error, report_tag, set_frameset_not_ok,
};
use h5_interface::TreeSink;
use h5_names::{Attribute, KnownName, LocalName};
use h5_tables::{ProcessResult, TreeError};
use h5_token::Tag;
use std::alloc::AllocError;

// An `a` is a parse error if one is listed.
fn check_a<S: TreeSink>(sink: &mut S, state: &State<S::Handle>, tag: &Tag)
    ensures told { TellsErrors S.TreeSink sink.old sink.new state.now }
    ensures noted { is_named_listed (codes "a") (world_of S.TreeSink sink.old state.now) ≡ true → 0 < errors_of S.TreeSink sink.new }
    ensures quiet { is_named_listed (codes "a") (world_of S.TreeSink sink.old state.now) ≡ false → errors_of S.TreeSink sink.new ≡ errors_of S.TreeSink sink.old }
{
    let a = LocalName::from_known(KnownName::A);
    if is_named_listed(sink, state, &a) {
        report_tag(sink, state, TreeError::NestedLinks, tag);
    }
}

// A start tag `a`: a listed one is closed, and a formatting element follows.
pub(crate) fn in_body_start_a<S: TreeSink>(
    sink: &mut S,
    state: &mut State<S::Handle>,
    tag: Tag,
) -> Turn
    requires sound { IsSound S.TreeSink sink.old state.old }
    requires ready { HasHtmlRoot (world_of S.TreeSink sink.old state.old) }
    requires name { IsTrue (is_one_of formatting_names tag.name) }
    ensures { TakesTag S.TreeSink in_body_start_a tag sink.old state.old sink.new state.new result }
{
    check_a(sink, state, &tag);
    handle_misnested_a_tags(sink, state)?;
    reconstruct_active_formatting_elements(sink, state)?;
    create_formatting_element(sink, state, tag)?;
    Ok(ProcessResult::Done)
}

// A `nobr` in scope is closed, and active formatting elements are reconstructed again.
#[tactic(auto, unfolding(h5_builder_spec::specs::formatting::AdoptionAgency::handle_misnested_nobr_tags))]
fn handle_misnested_nobr_tags<S: TreeSink>(
    sink: &mut S,
    state: &mut State<S::Handle>,
) -> Result<(), AllocError>
    requires sound { IsSound S.TreeSink sink.old state.old }
    requires ready { HasHtmlRoot (world_of S.TreeSink sink.old state.old) }
    ensures done { OnOk result (world_of S.TreeSink sink.new state.new ≡ handle_misnested_nobr_tags S.choices (world_of S.TreeSink sink.old state.old)) }
    ensures noted { OnOk result (in_scope (is_html_named (codes "nobr")) is_default_scope (names_of (world_of S.TreeSink sink.old state.old)) ≡ true → 0 < errors_of S.TreeSink sink.new) }
    ensures quiet { in_scope (is_html_named (codes "nobr")) is_default_scope (names_of (world_of S.TreeSink sink.old state.old)) ≡ false → errors_of S.TreeSink sink.new ≡ errors_of S.TreeSink sink.old }
    ensures sound { IsSound S.TreeSink sink.new state.new }
{
    if in_scope_named(sink, state, KnownName::Nobr) {
        report_error(sink, state, TreeError::NestedNobr);
        let nobr = LocalName::from_known(KnownName::Nobr);
        adoption_agency(sink, state, &nobr)?;
        reconstruct_active_formatting_elements(sink, state)
    } else {
        Ok(())
    }
}

// A start tag `nobr`: one in scope is closed, and a formatting element follows.
pub(crate) fn in_body_start_nobr<S: TreeSink>(
    sink: &mut S,
    state: &mut State<S::Handle>,
    tag: Tag,
) -> Turn
    requires sound { IsSound S.TreeSink sink.old state.old }
    requires ready { HasHtmlRoot (world_of S.TreeSink sink.old state.old) }
    requires name { IsTrue (is_one_of formatting_names tag.name) }
    ensures { TakesTag S.TreeSink in_body_start_nobr tag sink.old state.old sink.new state.new result }
{
    reconstruct_active_formatting_elements(sink, state)?;
    handle_misnested_nobr_tags(sink, state)?;
    create_formatting_element(sink, state, tag)?;
    Ok(ProcessResult::Done)
}

// A start tag `b`, `big`, `code`, .., `u`: a formatting element.
pub(crate) fn in_body_start_formatting<S: TreeSink>(
    sink: &mut S,
    state: &mut State<S::Handle>,
    tag: Tag,
) -> Turn
    requires sound { IsSound S.TreeSink sink.old state.old }
    requires name { IsTrue (is_one_of formatting_names tag.name) }
    ensures { TakesTag S.TreeSink in_body_start_formatting tag sink.old state.old sink.new state.new result }
{
    reconstruct_active_formatting_elements(sink, state)?;
    create_formatting_element(sink, state, tag)?;
    Ok(ProcessResult::Done)
}

// An end tag is a parse error if it closes more than the current node.
fn error_unless_closing_one<S: TreeSink>(sink: &mut S, state: &State<S::Handle>, tag: &Tag)
    requires { IsSound S.TreeSink sink.old state.now }
    ensures told { TellsErrors S.TreeSink sink.old sink.new state.now }
    ensures noted { closes_one tag.now.name (world_of S.TreeSink sink.old state.now) ≡ false → 0 < errors_of S.TreeSink sink.new }
    ensures quiet { closes_one tag.now.name (world_of S.TreeSink sink.old state.now) ≡ true → errors_of S.TreeSink sink.new ≡ errors_of S.TreeSink sink.old }
{
    if !closes_one(sink, state, &tag.name) {
        let error = if is_named_listed(sink, state, &tag.name) {
            TreeError::FormattingElementNotCurrent
        } else {
            TreeError::unexpected_tag(tag.kind, state.mode)
        };
        report_tag(sink, state, error, tag);
    }
}

// An end tag `a`, `b`, .., `u`: the adoption agency closes the formatting element.
pub(crate) fn in_body_end_formatting<S: TreeSink>(
    sink: &mut S,
    state: &mut State<S::Handle>,
    tag: Tag,
) -> Turn
    requires sound { IsSound S.TreeSink sink.old state.old }
    requires ready { HasHtmlRoot (world_of S.TreeSink sink.old state.old) }
    requires name { IsTrue (is_one_of formatting_names tag.name) }
    ensures { TakesTag S.TreeSink in_body_end_formatting tag sink.old state.old sink.new state.new result }
{
    error_unless_closing_one(sink, state, &tag);
    adoption_agency(sink, state, &tag.name)?;
    Ok(ProcessResult::Done)
}

// An element that isn't pushed; the frameset-ok flag is set to "not ok".
fn insert_leaf<S: TreeSink>(
    sink: &mut S,
    state: &mut State<S::Handle>,
    local: LocalName,
    attrs: Vec<Attribute>,
    had_duplicate_attributes: bool,
) -> Result<(), AllocError>
    requires { IsSound S.TreeSink sink.old state.old }
    ensures done { OnOk result
        (world_of S.TreeSink sink.new state.new ≡ apply_all S.choices (ReconstructActiveFormattingElements ∷ InsertAndPopElement local (attribute_texts attrs.items) had_duplicate_attributes ∷ SetFramesetNotOk ∷ []) (world_of S.TreeSink sink.old state.old)) }
    ensures quiet { errors_of S.TreeSink sink.new ≡ errors_of S.TreeSink sink.old }
    ensures sound { IsSound S.TreeSink sink.new state.new }
{
    reconstruct_active_formatting_elements(sink, state)?;
    insert_and_pop_element(sink, state, local, attrs, had_duplicate_attributes)?;
    set_frameset_not_ok(sink, state);
    Ok(())
}

// A start tag `area`, `br`, `embed`, `img`, `keygen` or `wbr`: an element that isn't pushed.
pub(crate) fn in_body_start_void<S: TreeSink>(
    sink: &mut S,
    state: &mut State<S::Handle>,
    tag: Tag,
) -> Turn
    requires { IsSound S.TreeSink sink.old state.old }
    ensures { TakesTag S.TreeSink in_body_start_void tag sink.old state.old sink.new state.new result }
{
    let attrs = tag.attrs;
    insert_leaf(sink, state, tag.name, attrs, tag.had_duplicate_attributes)?;
    Ok(ProcessResult::DoneAckSelfClosing)
}

// An end tag `br`, which is handled as a start tag without attributes.
#[cold]
pub(crate) fn in_body_end_br<S: TreeSink>(
    sink: &mut S,
    state: &mut State<S::Handle>,
    tag: Tag,
) -> Turn
    requires { IsSound S.TreeSink sink.old state.old }
    ensures { TakesTag S.TreeSink in_body_end_br tag sink.old state.old sink.new state.new result }
{
    report_tag(sink, state, TreeError::BrEndTag, &tag);
    let attrs = Vec::new(state.alloc);
    insert_leaf(sink, state, tag.name, attrs, tag.had_duplicate_attributes)?;
    Ok(ProcessResult::DoneAckSelfClosing)
}
