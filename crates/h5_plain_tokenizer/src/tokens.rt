//! The tokens of comments, doctypes and tags.
ghost use Rattle.std.specs.Prelude.{◌≡◌, IfOk};
ghost use Rattle.h5_token.specs.TokenText.{token_text};
ghost use Rattle.h5_markup.specs.Ending.{place_after};
ghost use Rattle.h5_markup.specs.Text.{text_of};
ghost use Rattle.h5_plain_tokenizer.specs.Tokens as s;

use super::front::Construct;
use h5_markup::{Class, Inside, SharedNames, cut_at, make_doctype, read_attributes, text_of};
use h5_token::{Tag, TagKind, Token};
use std::alloc::{AllocError, Global};

fn ends_in_slash(text: &str) -> bool
    ensures { result ≡ s.last_is 47 text.now }
{
    let bytes = text.as_bytes();
    if bytes.is_empty() {
        return false;
    }
    bytes[bytes.len() - 1] == b'/'
}

fn is_between(place: Inside) -> bool
    ensures { result ≡ s.is_between place }
{
    match place {
        Inside::BeforeAttributeName => true,
        _ => false,
    }
}

// Returns true if a tag ends in a `/` that isn't part of a value.
fn is_self_closing(text: &str, place: Inside) -> bool
    requires { place_after Inside.TagName text.now ≡ place }
    ensures { result ≡ s.is_self_closing text.now }
{
    ends_in_slash(text) && is_between(place)
}

fn make_start_tag(
    alloc: Global,
    names: &mut SharedNames,
    text: &str,
    place: Inside,
) -> Result<Token, AllocError>
    requires { place_after Inside.TagName text.now ≡ place }
    ensures { IfOk result (λ token. token_text token ≡ s.start_tag text.now) }
{
    let (name, behind) = cut_at(text, Class::NameEnd);
    let kept = read_attributes(alloc, names, behind)?;
    Ok(Token::TagToken(Tag {
        kind: TagKind::StartTag,
        name: names.name(alloc, name)?,
        self_closing: is_self_closing(text, place),
        attrs: kept.attributes,
        had_duplicate_attributes: kept.duplicates,
    }))
}

fn make_end_tag(alloc: Global, names: &mut SharedNames, text: &str) -> Result<Token, AllocError>
    ensures { IfOk result (λ token. token_text token ≡ s.end_tag text.now) }
{
    let (name, _) = cut_at(text, Class::NameEnd);
    Ok(Token::TagToken(Tag {
        kind: TagKind::EndTag,
        name: names.name(alloc, name)?,
        self_closing: false,
        attrs: Vec::new(alloc),
        had_duplicate_attributes: false,
    }))
}

// Makes a comment of the text between `<!--` and the final `>`, before which two dashes end it.
fn make_comment(alloc: Global, text: &str) -> Result<Token, AllocError>
    ensures { IfOk result (λ token. token_text token ≡ s.token_of Construct.Comment text.now) }
{
    match text.strip_suffix("--") {
        Some(comment) => Ok(Token::CommentToken(text_of(alloc, false, comment)?)),
        None => Ok(Token::CommentToken(text_of(alloc, false, text)?)),
    }
}

/// Makes the token of the text between a construct's opening and the `>` that ends it. `place` must be where in the construct
/// the `>` is.
#[inline(always)]
pub fn make_token(
    alloc: Global,
    names: &mut SharedNames,
    construct: Construct,
    text: &str,
    place: Inside,
) -> Result<Token, AllocError>
    requires { place_after (s.start_of construct) text.now ≡ place }
    ensures { IfOk result (λ token. token_text token ≡ s.token_of construct text.now) }
{
    match construct {
        Construct::Comment => make_comment(alloc, text),
        Construct::Doctype => Ok(Token::DoctypeToken(make_doctype(alloc, text)?)),
        Construct::StartTag => make_start_tag(alloc, names, text, place),
        Construct::EndTag => make_end_tag(alloc, names, text),
        Construct::RawEndTag => make_end_tag(alloc, names, text),
    }
}
