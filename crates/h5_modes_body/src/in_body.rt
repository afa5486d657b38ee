//! The mode "in body" (HTML standard, section 13.2.6.4.7, "The 'in body' insertion mode").
ghost use Rattle.std.specs.Prelude.{◌<◌, ◌≡◌, false, true};
ghost use Rattle.h5_tables.specs.TurnText.{HasText, turn_text};
ghost use Rattle.h5_builder_spec.specs.ByName.{by_known};
ghost use Rattle.h5_builder_spec.specs.modes.InBody.{in_body, in_body_end_blocks, in_body_end_body, in_body_end_html, in_body_end_inline, in_body_end_other, in_body_start_blocks, in_body_start_body, in_body_start_embedded, in_body_start_frameset, in_body_start_inline, in_body_start_other, in_body_start_table, in_body_tag};
ghost use Rattle.h5_builder_spec.specs.inner.Kept.{HasHtmlRoot};
ghost use Rattle.h5_builder_state.specs.Steps.{IsSound, TellsErrors, errors_of, world_of};
ghost use Rattle.h5_builder_state.specs.Turn.{TakesTag, TakesToken};
ghost use Rattle.h5_builder_spec.specs.stack.Scope.{first_passes};
ghost use Rattle.h5_tables.specs.TagSets.{is_html_named};
ghost use Rattle.h5_builder_spec.specs.World.{names_of};

use super::blocks::{
    in_body_end_block, in_body_end_heading, in_body_end_p, in_body_start_block,
    in_body_start_heading, in_body_start_preformatted,
};
use super::body_text::in_body_text;
use super::button::in_body_start_button;
use super::foreign::{in_body_start_math, in_body_start_svg};
use super::form::{in_body_end_form, in_body_start_form};
use super::formatting::{
    in_body_end_br, in_body_end_formatting, in_body_start_a, in_body_start_formatting,
    in_body_start_nobr, in_body_start_void,
};
use super::input::{
    in_body_start_hr, in_body_start_image, in_body_start_input, in_body_start_part,
};
use super::lists::{in_body_end_description, in_body_end_li, in_body_start_item};
use super::marked::{in_body_end_marked, in_body_start_marked};
use super::raw_texts::{
    in_body_start_iframe, in_body_start_noembed, in_body_start_noscript, in_body_start_plaintext,
    in_body_start_textarea, in_body_start_xmp,
};
use super::ruby::{in_body_start_ruby_base, in_body_start_ruby_text};
use super::select::{
    in_body_end_option, in_body_start_optgroup, in_body_start_option, in_body_start_select,
};
use h5_builder_actions::{
    ItemKind, add_attrs_to_second, append_comment, close_p_element_in_button_scope,
    expect_to_close, has_template_mode, insert_tag, reconstruct_active_formatting_elements,
    remove_body,
};
use h5_builder_state::{
    State, Turn, check_body_end, find_before_special, generate_implied_end_except,
    has_body_in_scope, has_body_second, has_open_template, is_current_html, is_frameset_ok,
    is_in_quirks, pop_until_named, report_error, set_again, set_frameset_not_ok, set_mode,
    unexpected, unexpected_tag,
};
use h5_interface::TreeSink;
use h5_modes_head::{
    ignored_tag, in_body_start_html, in_head_end_template, in_head_start_tag, template_eof,
};
use h5_names::KnownName;
use h5_tables::{InsertionMode, ProcessResult, Token, TreeError};
use h5_token::{Tag, TagKind};

// A start tag `body`: the body gets the attributes that it doesn't have.
#[cold]
#[tactic(auto, unfolding(h5_builder_spec::specs::modes::InBody::in_body_start_body))]
fn in_body_start_body<S: TreeSink>(sink: &mut S, state: &mut State<S::Handle>, tag: Tag) -> Turn
    requires { IsSound S.TreeSink sink.old state.old }
    ensures { TakesTag S.TreeSink in_body_start_body tag sink.old state.old sink.new state.new result }
{
    unexpected_tag(sink, state, &tag);
    if has_body_second(sink, state) && !has_open_template(sink, state) {
        set_frameset_not_ok(sink, state);
        add_attrs_to_second(sink, state, tag.attrs)?;
        Ok(ProcessResult::Done)
    } else {
        Ok(ProcessResult::Done)
    }
}

// A start tag `frameset`: it replaces the body, if that is still possible.
#[cold]
#[tactic(auto, unfolding(h5_builder_spec::specs::modes::InBody::in_body_start_frameset))]
fn in_body_start_frameset<S: TreeSink>(sink: &mut S, state: &mut State<S::Handle>, tag: Tag) -> Turn
    requires { IsSound S.TreeSink sink.old state.old }
    ensures { TakesTag S.TreeSink in_body_start_frameset tag sink.old state.old sink.new state.new result }
{
    unexpected_tag(sink, state, &tag);
    if is_frameset_ok(sink, state) && has_body_second(sink, state) {
        remove_body(sink, state)?;
        insert_tag(sink, state, tag)?;
        set_mode(sink, state, InsertionMode::InFrameset);
        Ok(ProcessResult::Done)
    } else {
        Ok(ProcessResult::Done)
    }
}

// An end tag `body`.
#[cold]
#[tactic(auto, unfolding(h5_builder_spec::specs::modes::InBody::if_body_in_scope))]
fn in_body_end_body<S: TreeSink>(sink: &mut S, state: &mut State<S::Handle>, tag: Tag) -> Turn
    requires { IsSound S.TreeSink sink.old state.old }
    ensures { TakesTag S.TreeSink in_body_end_body tag sink.old state.old sink.new state.new result }
{
    let _ = tag;
    if has_body_in_scope(sink, state) {
        check_body_end(sink, state);
        set_mode(sink, state, InsertionMode::AfterBody);
        Ok(ProcessResult::Done)
    } else {
        report_error(sink, state, TreeError::BodyEndTagWithoutBody);
        Ok(ProcessResult::Done)
    }
}

// An end tag `html`.
#[cold]
#[tactic(auto, unfolding(h5_builder_spec::specs::modes::InBody::if_body_in_scope))]
fn in_body_end_html<S: TreeSink>(sink: &mut S, state: &mut State<S::Handle>, tag: Tag) -> Turn
    requires { IsSound S.TreeSink sink.old state.old }
    ensures { TakesTag S.TreeSink in_body_end_html tag sink.old state.old sink.new state.new result }
{
    if has_body_in_scope(sink, state) {
        check_body_end(sink, state);
        set_again(sink, state, Token::Tag(tag));
        Ok(ProcessResult::Reprocess(InsertionMode::AfterBody))
    } else {
        report_error(sink, state, TreeError::HtmlEndTagWithoutBody);
        Ok(ProcessResult::Done)
    }
}

// An end tag is a parse error if it closes an element other than the current node.
fn check_nesting<S: TreeSink>(sink: &mut S, state: &State<S::Handle>, tag: &Tag)
    requires { IsSound S.TreeSink sink.old state.now }
    ensures told { TellsErrors S.TreeSink sink.old sink.new state.now }
    ensures noted { first_passes (is_html_named tag.now.name) (names_of (world_of S.TreeSink sink.old state.now)) ≡ false → 0 < errors_of S.TreeSink sink.new }
    ensures quiet { first_passes (is_html_named tag.now.name) (names_of (world_of S.TreeSink sink.old state.now)) ≡ true → errors_of S.TreeSink sink.new ≡ errors_of S.TreeSink sink.old }
{
    if !is_current_html(sink, state, &tag.name) {
        unexpected_tag(sink, state, tag);
    }
}

// Any other end tag: it closes the open element of its name, if no special element is newer.
#[tactic(auto, unfolding(h5_builder_spec::specs::modes::InBody::in_body_end_other))]
fn in_body_end_other<S: TreeSink>(sink: &mut S, state: &mut State<S::Handle>, tag: Tag) -> Turn
    requires { IsSound S.TreeSink sink.old state.old }
    ensures { TakesTag S.TreeSink in_body_end_other tag sink.old state.old sink.new state.new result }
{
    let local = &tag.name;
    match find_before_special(sink, state, local) {
        Some(place) => {
            generate_implied_end_except(sink, state, local);
            check_nesting(sink, state, &tag);
            pop_until_named(sink, state, local, place);
            Ok(ProcessResult::Done)
        }
        None => {
            report_error(sink, state, TreeError::SpecialElementBeforeTheOneToClose);
            Ok(ProcessResult::Done)
        }
    }
}

// Any other start tag: an element is inserted, after active formatting elements are reconstructed.
fn in_body_start_other<S: TreeSink>(sink: &mut S, state: &mut State<S::Handle>, tag: Tag) -> Turn
    requires { IsSound S.TreeSink sink.old state.old }
    ensures { TakesTag S.TreeSink in_body_start_other tag sink.old state.old sink.new state.new result }
{
    reconstruct_active_formatting_elements(sink, state)?;
    insert_tag(sink, state, tag)?;
    Ok(ProcessResult::Done)
}

// A start tag `table`: it closes a `p`, except in quirks mode.
#[tactic(auto, unfolding(h5_builder_spec::specs::modes::InBody::in_body_start_table))]
fn in_body_start_table<S: TreeSink>(sink: &mut S, state: &mut State<S::Handle>, tag: Tag) -> Turn
    requires { IsSound S.TreeSink sink.old state.old }
    ensures { TakesTag S.TreeSink in_body_start_table tag sink.old state.old sink.new state.new result }
{
    if !is_in_quirks(sink, state) {
        let expected = close_p_element_in_button_scope(sink, state);
        expect_to_close(sink, state, expected);
    }
    insert_tag(sink, state, tag)?;
    set_frameset_not_ok(sink, state);
    set_mode(sink, state, InsertionMode::InTable);
    Ok(ProcessResult::Done)
}

// Start tags of inserted content: images, controls, elements whose content is text, annotations, MathML and SVG; and
// any other.
#[tactic(auto, unfolding(h5_builder_spec::specs::modes::InBody::in_body_start_embedded, h5_builder_spec::specs::modes::InBody::in_body_parts, h5_builder_spec::specs::modes::InBody::in_body_ruby_bases, h5_builder_spec::specs::modes::InBody::in_body_ruby_texts, h5_builder_spec::specs::modes::InBody::in_body_ignored_starts, h5_builder_spec::specs::modes::Shared::table_structure_names, h5_builder_spec::specs::modes::InBody::outside_names, h5_names::specs::KnownNames::name_text))]
fn in_body_start_embedded<S: TreeSink>(sink: &mut S, state: &mut State<S::Handle>, tag: Tag) -> Turn
    requires sound { IsSound S.TreeSink sink.old state.old }
    requires ready { HasHtmlRoot (world_of S.TreeSink sink.old state.old) }
    ensures { TakesTag S.TreeSink (by_known in_body_start_embedded in_body_start_other) tag sink.old state.old sink.new state.new result }
{
    match tag.name.known() {
        KnownName::Image => in_body_start_image(sink, state, tag),
        KnownName::Input => in_body_start_input(sink, state, tag),
        KnownName::Param | KnownName::Source | KnownName::Track => in_body_start_part(
            sink, state, tag,
        ),
        KnownName::Hr => in_body_start_hr(sink, state, tag),
        KnownName::Textarea => in_body_start_textarea(sink, state, tag),
        KnownName::Xmp => in_body_start_xmp(sink, state, tag),
        KnownName::Iframe => in_body_start_iframe(sink, state, tag),
        KnownName::Noembed => in_body_start_noembed(sink, state, tag),
        KnownName::Noscript => in_body_start_noscript(sink, state, tag),
        KnownName::Select => in_body_start_select(sink, state, tag),
        KnownName::Option => in_body_start_option(sink, state, tag),
        KnownName::Optgroup => in_body_start_optgroup(sink, state, tag),
        KnownName::Rb | KnownName::Rtc => in_body_start_ruby_base(sink, state, tag),
        KnownName::Rp | KnownName::Rt => in_body_start_ruby_text(sink, state, tag),
        KnownName::Math => in_body_start_math(sink, state, tag),
        KnownName::Svg => in_body_start_svg(sink, state, tag),
        KnownName::Caption
        | KnownName::Col
        | KnownName::Colgroup
        | KnownName::Tbody
        | KnownName::Td
        | KnownName::Tfoot
        | KnownName::Th
        | KnownName::Thead
        | KnownName::Tr
        | KnownName::Frame
        | KnownName::Head => ignored_tag(sink, state, tag),
        _ => in_body_start_other(sink, state, tag),
    }
}

// Start tags of lists, formatting elements, and other inline elements.
#[tactic(auto, unfolding(h5_builder_spec::specs::modes::InBody::in_body_start_inline, h5_builder_spec::specs::modes::InBody::in_body_preformatted, h5_builder_spec::specs::modes::InBody::list_item_names, h5_builder_spec::specs::modes::InBody::description_names, h5_tables::specs::TagSets::formatting_names, h5_builder_spec::specs::modes::InBody::in_body_marked, h5_builder_spec::specs::modes::InBody::in_body_void, h5_names::specs::KnownNames::name_text))]
fn in_body_start_inline<S: TreeSink>(sink: &mut S, state: &mut State<S::Handle>, tag: Tag) -> Turn
    requires sound { IsSound S.TreeSink sink.old state.old }
    requires ready { HasHtmlRoot (world_of S.TreeSink sink.old state.old) }
    ensures { TakesTag S.TreeSink (by_known in_body_start_inline (by_known in_body_start_embedded in_body_start_other)) tag sink.old state.old sink.new state.new result }
{
    match tag.name.known() {
        KnownName::Pre | KnownName::Listing => in_body_start_preformatted(sink, state, tag),
        KnownName::Form => in_body_start_form(sink, state, tag),
        KnownName::Li => in_body_start_item(sink, state, tag, ItemKind::ListItem),
        KnownName::Dd | KnownName::Dt => in_body_start_item(
            sink,
            state,
            tag,
            ItemKind::Description,
        ),
        KnownName::Plaintext => in_body_start_plaintext(sink, state, tag),
        KnownName::Button => in_body_start_button(sink, state, tag),
        KnownName::A => in_body_start_a(sink, state, tag),
        KnownName::Nobr => in_body_start_nobr(sink, state, tag),
        KnownName::B
        | KnownName::Big
        | KnownName::Code
        | KnownName::Em
        | KnownName::Font
        | KnownName::I
        | KnownName::S
        | KnownName::Small
        | KnownName::Strike
        | KnownName::Strong
        | KnownName::Tt
        | KnownName::U => in_body_start_formatting(sink, state, tag),
        KnownName::Applet | KnownName::Marquee | KnownName::Object => in_body_start_marked(
            sink, state, tag,
        ),
        KnownName::Table => in_body_start_table(sink, state, tag),
        KnownName::Area
        | KnownName::Br
        | KnownName::Embed
        | KnownName::Img
        | KnownName::Keygen
        | KnownName::Wbr => in_body_start_void(sink, state, tag),
        _ => in_body_start_embedded(sink, state, tag),
    }
}

// Start tags, by their names; here of the page and its blocks.
#[tactic(auto, unfolding(h5_builder_spec::specs::modes::InBody::in_body_start_blocks, h5_builder_spec::specs::modes::Shared::head_start_names, h5_tables::specs::TagSets::block_start_names, h5_tables::specs::TagSets::heading_names, h5_names::specs::KnownNames::name_text))]
fn in_body_start_tag<S: TreeSink>(sink: &mut S, state: &mut State<S::Handle>, tag: Tag) -> Turn
    requires sound { IsSound S.TreeSink sink.old state.old }
    requires ready { HasHtmlRoot (world_of S.TreeSink sink.old state.old) }
    ensures { TakesTag S.TreeSink (by_known in_body_start_blocks (by_known in_body_start_inline (by_known in_body_start_embedded in_body_start_other))) tag sink.old state.old sink.new state.new result }
{
    match tag.name.known() {
        KnownName::Html => in_body_start_html(sink, state, tag),
        KnownName::Base
        | KnownName::Basefont
        | KnownName::Bgsound
        | KnownName::Link
        | KnownName::Meta
        | KnownName::Noframes
        | KnownName::Script
        | KnownName::Style
        | KnownName::Template
        | KnownName::Title => in_head_start_tag(sink, state, tag),
        KnownName::Body => in_body_start_body(sink, state, tag),
        KnownName::Frameset => in_body_start_frameset(sink, state, tag),
        KnownName::Address
        | KnownName::Article
        | KnownName::Aside
        | KnownName::Blockquote
        | KnownName::Center
        | KnownName::Details
        | KnownName::Dialog
        | KnownName::Dir
        | KnownName::Div
        | KnownName::Dl
        | KnownName::Fieldset
        | KnownName::Figcaption
        | KnownName::Figure
        | KnownName::Footer
        | KnownName::Header
        | KnownName::Hgroup
        | KnownName::Main
        | KnownName::Menu
        | KnownName::Nav
        | KnownName::Ol
        | KnownName::P
        | KnownName::Search
        | KnownName::Section
        | KnownName::Summary
        | KnownName::Ul => in_body_start_block(sink, state, tag),
        KnownName::H1
        | KnownName::H2
        | KnownName::H3
        | KnownName::H4
        | KnownName::H5
        | KnownName::H6 => in_body_start_heading(sink, state, tag),
        _ => in_body_start_inline(sink, state, tag),
    }
}

// End tags of paragraphs, lists, headings, formatting elements, and any other.
#[tactic(auto, unfolding(h5_builder_spec::specs::modes::InBody::in_body_end_inline, h5_builder_spec::specs::modes::InBody::list_item_names, h5_builder_spec::specs::modes::InBody::description_names, h5_tables::specs::TagSets::heading_names, h5_tables::specs::TagSets::formatting_names, h5_builder_spec::specs::modes::InBody::in_body_marked, h5_names::specs::KnownNames::name_text))]
fn in_body_end_inline<S: TreeSink>(sink: &mut S, state: &mut State<S::Handle>, tag: Tag) -> Turn
    requires sound { IsSound S.TreeSink sink.old state.old }
    requires ready { HasHtmlRoot (world_of S.TreeSink sink.old state.old) }
    ensures { TakesTag S.TreeSink (by_known in_body_end_inline in_body_end_other) tag sink.old state.old sink.new state.new result }
{
    match tag.name.known() {
        KnownName::P => in_body_end_p(sink, state, tag),
        KnownName::Li => in_body_end_li(sink, state, tag),
        KnownName::Dd | KnownName::Dt => in_body_end_description(sink, state, tag),
        KnownName::H1
        | KnownName::H2
        | KnownName::H3
        | KnownName::H4
        | KnownName::H5
        | KnownName::H6 => in_body_end_heading(sink, state, tag),
        KnownName::A
        | KnownName::B
        | KnownName::Big
        | KnownName::Code
        | KnownName::Em
        | KnownName::Font
        | KnownName::I
        | KnownName::Nobr
        | KnownName::S
        | KnownName::Small
        | KnownName::Strike
        | KnownName::Strong
        | KnownName::Tt
        | KnownName::U => in_body_end_formatting(sink, state, tag),
        KnownName::Applet | KnownName::Marquee | KnownName::Object => in_body_end_marked(
            sink, state, tag,
        ),
        KnownName::Br => in_body_end_br(sink, state, tag),
        KnownName::Template => in_head_end_template(sink, state, tag),
        _ => in_body_end_other(sink, state, tag),
    }
}

// End tags, by their names; here of the page and its blocks.
#[tactic(auto, unfolding(h5_builder_spec::specs::modes::InBody::in_body_end_blocks, h5_tables::specs::TagSets::block_end_names, h5_names::specs::KnownNames::name_text))]
fn in_body_end_tag<S: TreeSink>(sink: &mut S, state: &mut State<S::Handle>, tag: Tag) -> Turn
    requires sound { IsSound S.TreeSink sink.old state.old }
    requires ready { HasHtmlRoot (world_of S.TreeSink sink.old state.old) }
    ensures { TakesTag S.TreeSink (by_known in_body_end_blocks (by_known in_body_end_inline in_body_end_other)) tag sink.old state.old sink.new state.new result }
{
    match tag.name.known() {
        KnownName::Html => in_body_end_html(sink, state, tag),
        KnownName::Body => in_body_end_body(sink, state, tag),
        KnownName::Address
        | KnownName::Article
        | KnownName::Aside
        | KnownName::Blockquote
        | KnownName::Center
        | KnownName::Details
        | KnownName::Dialog
        | KnownName::Dir
        | KnownName::Div
        | KnownName::Dl
        | KnownName::Fieldset
        | KnownName::Figcaption
        | KnownName::Figure
        | KnownName::Footer
        | KnownName::Header
        | KnownName::Hgroup
        | KnownName::Main
        | KnownName::Menu
        | KnownName::Nav
        | KnownName::Ol
        | KnownName::Search
        | KnownName::Section
        | KnownName::Summary
        | KnownName::Ul => in_body_end_block(sink, state, tag),
        KnownName::Button | KnownName::Listing | KnownName::Pre | KnownName::Select =>
            in_body_end_block(sink, state, tag),
        KnownName::Form => in_body_end_form(sink, state, tag),
        KnownName::Option => in_body_end_option(sink, state, tag),
        _ => in_body_end_inline(sink, state, tag),
    }
}

/// A turn of a tag in "in body".
#[tactic(auto, using(h5_builder_spec::proofs::rows::KnownRuleLaws::in_body_start_known, h5_builder_spec::proofs::rows::KnownRuleLaws::in_body_end_known), unfolding(h5_builder_spec::specs::modes::InBody::in_body_tag))]
#[inline(always)]
pub fn in_body_tag<S: TreeSink>(sink: &mut S, state: &mut State<S::Handle>, tag: Tag) -> Turn
    requires sound { IsSound S.TreeSink sink.old state.old }
    requires ready { HasHtmlRoot (world_of S.TreeSink sink.old state.old) }
    ensures { TakesTag S.TreeSink in_body_tag tag sink.old state.old sink.new state.new result }
{
    match tag.kind {
        TagKind::StartTag => in_body_start_tag(sink, state, tag),
        TagKind::EndTag => in_body_end_tag(sink, state, tag),
    }
}

// The end of the file: while there are template insertion modes, by the rules of templates.
fn in_body_eof<S: TreeSink>(sink: &mut S, state: &mut State<S::Handle>) -> Turn
    requires { IsSound S.TreeSink sink.old state.old }
    ensures { TakesToken S.TreeSink in_body Token.Eof sink.old state.old sink.new state.new result }
{
    if has_template_mode(sink, state) {
        return template_eof(sink, state, Token::Eof);
    }
    check_body_end(sink, state);
    Ok(ProcessResult::Done)
}

/// A turn in "in body".
#[inline(always)]
pub fn step_in_body<S: TreeSink>(sink: &mut S, state: &mut State<S::Handle>, token: Token) -> Turn
    requires sound { IsSound S.TreeSink sink.old state.old }
    requires ready { HasHtmlRoot (world_of S.TreeSink sink.old state.old) }
    requires text { HasText (turn_text token) }
    ensures { TakesToken S.TreeSink in_body token sink.old state.old sink.new state.new result }
{
    match token {
        Token::Tag(tag) => in_body_tag(sink, state, tag),
        Token::Comment(text) => {
            append_comment(sink, state, text)?;
            Ok(ProcessResult::Done)
        }
        Token::Characters(status, text) => in_body_text(sink, state, status, text),
        Token::NullCharacter => {
            unexpected(sink, state, &Token::NullCharacter);
            Ok(ProcessResult::Done)
        }
        Token::Eof => in_body_eof(sink, state),
    }
}
