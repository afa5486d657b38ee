//! Parts of ruby annotations in the body (HTML standard, section 13.2.6.4.7, start tags "rb", "rtc", "rp" and "rt").
ghost use Rattle.std.specs.Prelude.{◌<◌, ◌≡◌, codes, false, true};
ghost use Rattle.h5_builder_spec.specs.modes.InBody.{in_body_start_ruby_base, in_body_start_ruby_text, is_ruby_or_rtc};
ghost use Rattle.h5_builder_spec.specs.Rows.{GenerateImpliedEnd, GenerateImpliedEndExcept};
ghost use Rattle.h5_builder_state.specs.Steps.{IsSound, TellsErrors, errors_of, world_of};
ghost use Rattle.h5_builder_state.specs.Turn.{TakesTag};
ghost use Rattle.h5_builder_spec.specs.stack.Scope.{first_passes};
ghost use Rattle.h5_tables.specs.TagSets.{is_html_named};
ghost use Rattle.h5_builder_spec.specs.World.{names_of};

use h5_builder_actions::{generate_implied_end_tags, insert_tag};
use h5_builder_state::{
    State, Turn, generate_implied_end_except, in_scope_named, is_current_html, unexpected_tag,
};
use h5_interface::TreeSink;
use h5_names::{KnownName, LocalName};
use h5_tables::ProcessResult;
use h5_token::Tag;

// A part of a `ruby` is a parse error unless the current node is a `ruby`.
fn check_in_ruby<S: TreeSink>(sink: &mut S, state: &State<S::Handle>, tag: &Tag)
    requires { IsSound S.TreeSink sink.old state.now }
    ensures told { TellsErrors S.TreeSink sink.old sink.new state.now }
    ensures noted { first_passes (is_html_named (codes "ruby")) (names_of (world_of S.TreeSink sink.old state.now)) ≡ false → 0 < errors_of S.TreeSink sink.new }
    ensures quiet { first_passes (is_html_named (codes "ruby")) (names_of (world_of S.TreeSink sink.old state.now)) ≡ true → errors_of S.TreeSink sink.new ≡ errors_of S.TreeSink sink.old }
{
    if !is_current_html(sink, state, &LocalName::from_known(KnownName::Ruby)) {
        unexpected_tag(sink, state, tag);
    }
}

// A part of a `ruby` is a parse error unless the current node is a `ruby` or an `rtc`.
fn check_in_ruby_or_rtc<S: TreeSink>(sink: &mut S, state: &State<S::Handle>, tag: &Tag)
    requires { IsSound S.TreeSink sink.old state.now }
    ensures told { TellsErrors S.TreeSink sink.old sink.new state.now }
    ensures noted { first_passes is_ruby_or_rtc (names_of (world_of S.TreeSink sink.old state.now)) ≡ false → 0 < errors_of S.TreeSink sink.new }
    ensures quiet { first_passes is_ruby_or_rtc (names_of (world_of S.TreeSink sink.old state.now)) ≡ true → errors_of S.TreeSink sink.new ≡ errors_of S.TreeSink sink.old }
{
    if !is_current_html(sink, state, &LocalName::from_known(KnownName::Rtc)) {
        check_in_ruby(sink, state, tag);
    }
}

// A start tag `rb` or `rtc`: if a `ruby` is in scope, implied end tags are generated first.
pub(crate) fn in_body_start_ruby_base<S: TreeSink>(
    sink: &mut S,
    state: &mut State<S::Handle>,
    tag: Tag,
) -> Turn
    requires { IsSound S.TreeSink sink.old state.old }
    ensures { TakesTag S.TreeSink in_body_start_ruby_base tag sink.old state.old sink.new state.new result }
{
    if in_scope_named(sink, state, KnownName::Ruby) {
        generate_implied_end_tags(sink, state);
    }
    check_in_ruby(sink, state, &tag);
    insert_tag(sink, state, tag)?;
    Ok(ProcessResult::Done)
}

// A start tag `rp` or `rt`: if a `ruby` is in scope, implied end tags except for `rtc` are generated first.
pub(crate) fn in_body_start_ruby_text<S: TreeSink>(
    sink: &mut S,
    state: &mut State<S::Handle>,
    tag: Tag,
) -> Turn
    requires { IsSound S.TreeSink sink.old state.old }
    ensures { TakesTag S.TreeSink in_body_start_ruby_text tag sink.old state.old sink.new state.new result }
{
    let rtc = LocalName::from_known(KnownName::Rtc);
    if in_scope_named(sink, state, KnownName::Ruby) {
        generate_implied_end_except(sink, state, &rtc);
    }
    check_in_ruby_or_rtc(sink, state, &tag);
    insert_tag(sink, state, tag)?;
    Ok(ProcessResult::Done)
}
