//! Adds parts to the token above.
ghost use Rattle.std.specs.Prelude.{◌≡◌, IfOk};
ghost use Rattle.std.specs.List.{list_any};
ghost use Rattle.std.specs.Option.{option_map};
ghost use Rattle.h5_names.specs.AttributeText.{is_same_name};
ghost use Rattle.h5_token.specs.TokenText.{doctype_text, tag_text, token_text};
ghost use Rattle.h5_print.specs.Parts as p;

use super::line::Part;
use h5_names::{Attribute, QualName};
use h5_token::{Doctype, Tag, Token};
use std::alloc::AllocError;

// The doctype with this part, or `None` if it can't have it.
fn doctype_with(mut doctype: Doctype, part: Part) -> Option<Doctype>
    ensures { option_map doctype_text result ≡ p.doctype_with (doctype_text doctype) (p.part_text part) }
{
    match part {
        Part::PublicId(id) => {
            if doctype.public_id.is_some() {
                return None;
            }
            doctype.public_id = Some(id);
            Some(doctype)
        }
        Part::SystemId(id) => {
            if doctype.system_id.is_some() {
                return None;
            }
            doctype.system_id = Some(id);
            Some(doctype)
        }
        Part::ForceQuirks => {
            doctype.force_quirks = true;
            Some(doctype)
        }
        Part::Attribute(_) => None,
        Part::SelfClosing => None,
    }
}

fn has_name(attrs: &[Attribute], name: &QualName) -> bool
    ensures { result ≡ list_any (λ a. is_same_name a.name name.now) attrs.now }
{
    attrs.iter().any(|attribute| attribute.name == *name)
}

// The tag with this part, or `None` if it can't have it.
fn tag_with(mut tag: Tag, part: Part) -> Result<Option<Tag>, AllocError>
    ensures { IfOk result (λ made. option_map tag_text made
        ≡ p.tag_with (tag_text tag) (p.part_text part)) }
{
    match part {
        Part::Attribute(attribute) => {
            if has_name(&tag.attrs, &attribute.name) {
                return Ok(None);
            }
            tag.attrs.push(attribute)?;
            Ok(Some(tag))
        }
        Part::SelfClosing => {
            tag.self_closing = true;
            Ok(Some(tag))
        }
        Part::PublicId(_) => Ok(None),
        Part::SystemId(_) => Ok(None),
        Part::ForceQuirks => Ok(None),
    }
}

/// Returns the token with this part, or `None` if it can't have it. Fails with `AllocError` if an allocation fails.
pub fn token_with(token: Token, part: Part) -> Result<Option<Token>, AllocError>
    ensures { IfOk result (λ made. option_map token_text made
        ≡ p.token_with (token_text token) (p.part_text part)) }
{
    match token {
        Token::DoctypeToken(doctype) => match doctype_with(doctype, part) {
            Some(doctype) => Ok(Some(Token::DoctypeToken(doctype))),
            None => Ok(None),
        },
        Token::TagToken(tag) => match tag_with(tag, part)? {
            Some(tag) => Ok(Some(Token::TagToken(tag))),
            None => Ok(None),
        },
        Token::CommentToken(_) => Ok(None),
        Token::CharacterTokens(_) => Ok(None),
        Token::NullCharacterToken => Ok(None),
        Token::EOFToken => Ok(None),
        Token::ParseError(_) => Ok(None),
    }
}
