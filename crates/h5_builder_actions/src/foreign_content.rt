//! Tests if a token is handled as foreign content (HTML standard, section 13.2.6, "Tree construction").
ghost use Rattle.std.specs.Prelude.{◌≡◌, ◌&&◌, ◌||◌, [], false, not, option_map, true};
ghost use Rattle.h5_interface.specs.Forest.{IsElement};
ghost use Rattle.h5_interface.specs.NewElement.{is_annotation_xml};
ghost use Rattle.h5_tables.specs.TagSets.{is_mathml_text_point, is_one_of, is_svg_html_point};
ghost use Rattle.h5_builder_spec.specs.reset.Roles.{is_html_element};
ghost use Rattle.h5_token.specs.TokenText.{TagText};
ghost use Rattle.h5_tables.specs.TurnText.{TagTurn, TextTurn, TurnText, turn_text};
ghost use Rattle.h5_builder_spec.specs.insertion.Foreign.{adjusted_current_node, glyph_names, is_foreign, is_foreign_at, is_foreign_text, is_left, is_taken_in};
ghost use Rattle.h5_builder_actions.specs.Leaving.{is_current_left};
ghost use Rattle.h5_builder_state.specs.Steps.{IsSound, world_of};

use h5_builder_state::{State, handle_at, is_html_at, open_at, open_count};
use h5_interface::TreeSink;
use h5_names::{KnownName, LocalName, QualName};
use h5_tables::{SplitStatus, Token, mathml_text_integration_point, svg_html_integration_point};
use h5_token::TagKind;

/// Returns the adjusted current node: the context if only the root of a fragment is open, otherwise the current node.
#[tactic(auto, unfolding(h5_builder_state::specs::View::world))]
pub fn adjusted_current_node<'a, S: TreeSink>(
    sink: &S,
    state: &'a State<S::Handle>,
) -> Option<&'a S::Handle>
    ensures { option_map (λ handle. S.node handle.now) result ≡ adjusted_current_node (world_of S.TreeSink sink.now state.now) }
{
    let count = open_count(sink, state);
    if count == 0 {
        return None;
    }
    let newest = handle_at(sink, state, count - 1);
    match &state.context_elem {
        Some(context) => Some(if count == 1 { context } else { newest }),
        None => Some(newest),
    }
}

/// If it returns true, no element is open, or the current node is the adjusted one and an element of HTML, so that no
/// token is foreign. It may also return false then.
#[tactic(auto, unfolding(h5_builder_state::specs::View::world))]
pub fn is_current_node_surely_html<S: TreeSink>(sink: &S, state: &State<S::Handle>) -> bool
    requires { IsSound S.TreeSink sink.now state.now }
    ensures { result ≡ true → (t : TurnText) → is_foreign_at S.choices t (world_of S.TreeSink sink.now state.now).forest (adjusted_current_node (world_of S.TreeSink sink.now state.now)) ≡ false }
{
    let count = open_count(sink, state);
    if count == 0 {
        return true;
    }
    let known = is_html_at(sink, state, count - 1);
    match &state.context_elem {
        Some(_) => known && count > 1,
        None => known,
    }
}

// The element is a MathML `annotation-xml`.
fn is_annotation_xml(name: &QualName) -> bool
    ensures { result ≡ is_annotation_xml name.now }
{
    name.ns.is_mathml() && name.local.is(KnownName::AnnotationXml)
}

// A MathML text integration point doesn't take a start tag of this name as HTML.
#[tactic(auto, unfolding(h5_builder_spec::specs::insertion::Foreign::glyph_names))]
fn is_glyph(name: &LocalName) -> bool
    ensures { result ≡ is_one_of glyph_names name.now }
{
    name.is(KnownName::Mglyph) || name.is(KnownName::Malignmark)
}

// An element takes texts as HTML by its name alone: it is of HTML, or an integration point regardless of its
// attributes.
#[tactic(auto, unfolding(h5_tables::specs::TagSets::html_namespace))]
fn is_html_or_point(name: &QualName) -> bool
    ensures { result ≡ (is_html_element name.now || (is_mathml_text_point name.now || is_svg_html_point name.now)) }
{
    name.ns.is_html() || mathml_text_integration_point(name) || svg_html_integration_point(name)
}

// An element takes start tags of the local name as HTML by its name alone.
#[tactic(auto, unfolding(h5_tables::specs::TagSets::html_namespace))]
fn is_html_or_point_for(name: &QualName, local: &LocalName) -> bool
    ensures { result ≡ (is_html_element name.now || ((is_mathml_text_point name.now && not (is_one_of glyph_names local.now)) || is_svg_html_point name.now)) }
{
    name.ns.is_html()
        || mathml_text_integration_point(name) && !is_glyph(local)
        || svg_html_integration_point(name)
}

// Texts are handled by the rules of HTML in an element: it is of HTML, or an integration point. Such an element isn't
// popped when foreign content is left.
#[tactic(auto, unfolding(h5_builder_spec::specs::insertion::Foreign::is_left))]
fn takes_text<S: TreeSink>(sink: &S, node: &S::Handle) -> bool
    requires { IsElement (S.sees sink.now).forest (S.node node.now) }
    ensures taken { result ≡ is_taken_in S.choices (TextTurn SplitStatus.NotSplit []) (S.sees sink.now).forest (S.node node.now) }
    ensures left { not result ≡ is_left S.choices (S.sees sink.now).forest (S.node node.now) }
{
    let name = sink.elem_name(node);
    is_html_or_point(name)
        || is_annotation_xml(name) && sink.is_mathml_annotation_xml_integration_point(node)
}

/// Returns true if the current node is popped when foreign content is left.
#[tactic(auto, unfolding(h5_builder_state::specs::View::world))]
pub fn is_current_left<S: TreeSink>(sink: &S, state: &State<S::Handle>) -> bool
    requires { IsSound S.TreeSink sink.now state.now }
    ensures { result ≡ is_current_left S.choices (world_of S.TreeSink sink.now state.now) }
{
    let count = open_count(sink, state);
    if count == 0 {
        return false;
    }
    !takes_text(sink, handle_at(sink, state, count - 1))
}

// A start tag of this name is handled by the rules of HTML in an element.
fn takes_start_tag<S: TreeSink>(sink: &S, node: &S::Handle, local: &LocalName) -> bool
    requires { IsElement (S.sees sink.now).forest (S.node node.now) }
    ensures { (tag : TagText) → tag.kind ≡ TagKind.StartTag → tag.name ≡ local.now → result ≡ is_taken_in S.choices (TagTurn tag) (S.sees sink.now).forest (S.node node.now) }
{
    let name = sink.elem_name(node);
    is_html_or_point_for(name, local)
        || is_annotation_xml(name)
            && (local.is(KnownName::Svg) || sink.is_mathml_annotation_xml_integration_point(node))
}

// A token is handled by the rules of HTML in an element.
fn is_taken_in<S: TreeSink>(sink: &S, node: &S::Handle, token: &Token) -> bool
    requires { IsElement (S.sees sink.now).forest (S.node node.now) }
    ensures { result ≡ is_taken_in S.choices (turn_text token.now) (S.sees sink.now).forest (S.node node.now) }
{
    match token {
        Token::Tag(tag) => match tag.kind {
            TagKind::StartTag => takes_start_tag(sink, node, &tag.name),
            TagKind::EndTag => sink.elem_name(node).ns.is_html(),
        },
        Token::Characters(_, _) | Token::NullCharacter => takes_text(sink, node),
        Token::Comment(_) | Token::Eof => sink.elem_name(node).ns.is_html(),
    }
}

// An element is open, and the adjusted current node doesn't take a token as HTML.
#[tactic(auto, unfolding(h5_builder_state::specs::View::world))]
fn is_foreign_here<S: TreeSink>(sink: &S, state: &State<S::Handle>, token: &Token) -> bool
    requires { IsSound S.TreeSink sink.now state.now }
    ensures { result ≡ is_foreign_at S.choices (turn_text token.now) (world_of S.TreeSink sink.now state.now).forest (adjusted_current_node (world_of S.TreeSink sink.now state.now)) }
{
    match adjusted_current_node(sink, state) {
        Some(node) => !is_taken_in(sink, node, token),
        None => false,
    }
}

/// Returns true if a token is foreign: an element is open, and the adjusted current node doesn't take the token as
/// HTML. The end of the file never is.
#[tactic(auto, unfolding(h5_builder_spec::specs::insertion::Foreign::is_foreign))]
pub fn is_foreign<S: TreeSink>(sink: &S, state: &State<S::Handle>, token: &Token) -> bool
    requires { IsSound S.TreeSink sink.now state.now }
    ensures { result ≡ is_foreign S.choices (turn_text token.now) (world_of S.TreeSink sink.now state.now) }
{
    if is_current_node_surely_html(sink, state) {
        return false;
    }
    match token {
        Token::Tag(_) | Token::Comment(_) | Token::Characters(_, _) | Token::NullCharacter => {
            is_foreign_here(sink, state, token)
        }
        Token::Eof => false,
    }
}

/// Returns true if texts are foreign, which doesn't depend on their content.
#[tactic(auto, unfolding(h5_builder_spec::specs::insertion::Foreign::is_foreign, h5_builder_state::specs::View::world))]
pub fn is_foreign_text<S: TreeSink>(sink: &S, state: &State<S::Handle>) -> bool
    requires { IsSound S.TreeSink sink.now state.now }
    ensures { result ≡ is_foreign_text S.choices (world_of S.TreeSink sink.now state.now) }
{
    if is_current_node_surely_html(sink, state) {
        return false;
    }
    match adjusted_current_node(sink, state) {
        Some(node) => !takes_text(sink, node),
        None => false,
    }
}
