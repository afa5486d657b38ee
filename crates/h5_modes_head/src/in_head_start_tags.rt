//! Start tags by the rules of "in head", which other modes also use (HTML standard, section 13.2.6.4.4).
ghost use Rattle.h5_builder_spec.specs.ByName.{by_known, of_tag};
ghost use Rattle.h5_builder_spec.specs.modes.InHead.{in_head_else, in_head_start, in_head_start_link, in_head_start_meta, in_head_start_noscript, in_head_start_script, in_head_start_tag};
ghost use Rattle.h5_builder_state.specs.Steps.{IsOpen, IsSound};
ghost use Rattle.h5_builder_state.specs.Turn.{TakesTag, TakesToken};

use super::encoding::copy_named_encoding;
use super::html_start_tag::in_body_start_html;
use super::ignored::ignored_tag;
use super::raw_text::{parse_raw_data, to_raw_text_mode};
use super::template::in_head_start_template;
use h5_builder_actions::{insert_and_pop_tag, insert_script, insert_tag};
use h5_builder_state::{State, Turn, is_scripting, pop, set_again, set_answer, set_mode};
use h5_interface::TreeSink;
use h5_names::KnownName;
use h5_tables::{InsertionMode, ProcessResult, Token};
use h5_token::states::RawKind;
use h5_token::{Tag, TokenSinkResult};

// A start tag `base`, `basefont`, `bgsound` or `link`: the element is empty.
fn in_head_start_link<S: TreeSink>(sink: &mut S, state: &mut State<S::Handle>, tag: Tag) -> Turn
    requires { IsSound S.TreeSink sink.old state.old }
    ensures { TakesTag S.TreeSink in_head_start_link tag sink.old state.old sink.new state.new result }
{
    insert_and_pop_tag(sink, state, tag)?;
    Ok(ProcessResult::DoneAckSelfClosing)
}

// A start tag `meta`: the element is empty, and the encoding that the tag names, if any, is the reply.
fn in_head_start_meta<S: TreeSink>(sink: &mut S, state: &mut State<S::Handle>, tag: Tag) -> Turn
    requires { IsSound S.TreeSink sink.old state.old }
    ensures { TakesTag S.TreeSink in_head_start_meta tag sink.old state.old sink.new state.new result }
{
    let encoding = copy_named_encoding(state.alloc, &tag)?;
    insert_and_pop_tag(sink, state, tag)?;
    match encoding {
        None => Ok(ProcessResult::DoneAckSelfClosing),
        Some(encoding) => {
            set_answer(sink, state, TokenSinkResult::EncodingIndicator(encoding));
            Ok(ProcessResult::Answer)
        }
    }
}

// A start tag `noscript`: if scripting is enabled, its content is text.
#[tactic(auto, unfolding(h5_builder_spec::specs::modes::InHead::in_head_start_noscript))]
fn in_head_start_noscript<S: TreeSink>(sink: &mut S, state: &mut State<S::Handle>, tag: Tag) -> Turn
    requires { IsSound S.TreeSink sink.old state.old }
    ensures { TakesTag S.TreeSink in_head_start_noscript tag sink.old state.old sink.new state.new result }
{
    if is_scripting(sink, state) {
        return parse_raw_data(sink, state, tag, RawKind::Rawtext);
    }
    insert_tag(sink, state, tag)?;
    set_mode(sink, state, InsertionMode::InHeadNoscript);
    Ok(ProcessResult::Done)
}

// A start tag `script`.
fn in_head_start_script<S: TreeSink>(sink: &mut S, state: &mut State<S::Handle>, tag: Tag) -> Turn
    requires { IsSound S.TreeSink sink.old state.old }
    ensures { TakesTag S.TreeSink in_head_start_script tag sink.old state.old sink.new state.new result }
{
    insert_script(sink, state, tag.attrs, tag.had_duplicate_attributes)?;
    to_raw_text_mode(sink, state, RawKind::ScriptData);
    Ok(ProcessResult::Answer)
}

/// Anything else: the head is closed, and the token is reprocessed.
pub fn in_head_else<S: TreeSink>(sink: &mut S, state: &mut State<S::Handle>, token: Token) -> Turn
    requires { IsOpen S.TreeSink sink.old state.old }
    ensures { TakesToken S.TreeSink in_head_else token sink.old state.old sink.new state.new result }
{
    pop(sink, state);
    set_again(sink, state, token);
    Ok(ProcessResult::Reprocess(InsertionMode::AfterHead))
}

// Start tags, by their names.
#[tactic(auto, unfolding(h5_builder_spec::specs::modes::InHead::in_head_start, h5_builder_spec::specs::modes::InHead::in_head_links, h5_builder_spec::specs::modes::InHead::in_head_raw, h5_names::specs::KnownNames::name_text))]
fn in_head_start_by_name<S: TreeSink>(sink: &mut S, state: &mut State<S::Handle>, tag: Tag) -> Turn
    requires { IsOpen S.TreeSink sink.old state.old }
    ensures { TakesTag S.TreeSink (by_known in_head_start (of_tag in_head_else)) tag sink.old state.old sink.new state.new result }
{
    match tag.name.known() {
        KnownName::Html => in_body_start_html(sink, state, tag),
        KnownName::Base | KnownName::Basefont | KnownName::Bgsound | KnownName::Link =>
            in_head_start_link(sink, state, tag),
        KnownName::Meta => in_head_start_meta(sink, state, tag),
        KnownName::Title => parse_raw_data(sink, state, tag, RawKind::Rcdata),
        KnownName::Noframes | KnownName::Style => parse_raw_data(
            sink,
            state,
            tag,
            RawKind::Rawtext,
        ),
        KnownName::Noscript => in_head_start_noscript(sink, state, tag),
        KnownName::Script => in_head_start_script(sink, state, tag),
        KnownName::Template => in_head_start_template(sink, state, tag),
        KnownName::Head => ignored_tag(sink, state, tag),
        _ => in_head_else(sink, state, Token::Tag(tag)),
    }
}

/// A start tag, by the rules of "in head".
#[tactic(auto, using(h5_builder_spec::proofs::rows::KnownRuleLaws::in_head_start_known), unfolding(h5_builder_spec::specs::modes::InHead::in_head_start_tag))]
pub fn in_head_start_tag<S: TreeSink>(sink: &mut S, state: &mut State<S::Handle>, tag: Tag) -> Turn
    requires { IsOpen S.TreeSink sink.old state.old }
    ensures { TakesTag S.TreeSink in_head_start_tag tag sink.old state.old sink.new state.new result }
{
    in_head_start_by_name(sink, state, tag)
}
