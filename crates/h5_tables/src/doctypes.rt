//! Doctypes: parse errors, and quirks modes.
ghost use Rattle.std.specs.Prelude.{◌≡◌, ◌||◌, codes, not};
ghost use Rattle.std.specs.Str.{str_to_ascii_lowercase};
ghost use Rattle.h5_names.specs.AttributeText.{is_same_text};
ghost use Rattle.h5_token.specs.OptionalText.{optional_text};
ghost use Rattle.h5_token.specs.TokenText.{doctype_text};
ghost use Rattle.h5_tables.specs.Doctypes.{begins_with, begins_with_one, has_pair, is_good_doctype, is_one_text, is_part, lowered, quirks_of, quirks_of_identifiers, quirky_public_ids, quirky_public_prefixes, quirky_system_ids};
ghost use Rattle.h5_tables.specs.Tables.{pair_texts, part_text, texts};

use super::identifiers::{
    GOOD_IDENTIFIERS, HTML4_PUBLIC_PREFIXES, LIMITED_QUIRKY_PUBLIC_PREFIXES, QUIRKY_PUBLIC_IDS,
    QUIRKY_PUBLIC_PREFIXES, QUIRKY_SYSTEM_IDS,
};
use h5_interface::QuirksMode;
use h5_token::Doctype;

// Returns true if a text in ASCII lower case begins with a prefix.
fn begins_with(text: &str, prefix: &str) -> bool
    ensures { result ≡ begins_with (str_to_ascii_lowercase text.now) prefix.now }
{
    let bytes = text.as_bytes();
    for (i, wanted) in prefix.as_bytes().iter().enumerate() {
        match bytes.get(i) {
            None => return false,
            Some(b) => {
                if b.to_ascii_lowercase() != *wanted {
                    return false;
                }
            }
        }
    }
    true
}

// Returns true if a part is present and in ASCII lower case begins with one of these.
fn begins_with_one(prefixes: &[&str], part: Option<&str>) -> bool
    ensures { result ≡ lowered (begins_with_one (texts prefixes.now)) (part_text part.entry) }
{
    let Some(text) = part else {
        return false;
    };
    for prefix in prefixes {
        if begins_with(text, prefix) {
            return true;
        }
    }
    false
}

// Returns true if a text in ASCII lower case equals another.
fn is_same_lowered(text: &str, other: &str) -> bool
    ensures { result ≡ is_same_text (str_to_ascii_lowercase text.now) other.now }
{
    text.len() == other.len() && begins_with(text, other)
}

// Returns true if a part is present and in ASCII lower case equals one of these.
fn is_one_of(known: &[&str], part: Option<&str>) -> bool
    ensures { result ≡ lowered (is_one_text (texts known.now)) (part_text part.entry) }
{
    let Some(text) = part else {
        return false;
    };
    for id in known {
        if is_same_lowered(text, id) {
            return true;
        }
    }
    false
}

// Returns true if one of the pairs equals these identifiers.
fn has_pair(
    pairs: &[(Option<&str>, Option<&str>)],
    public_id: Option<&str>,
    system_id: Option<&str>,
) -> bool
    ensures { result ≡ has_pair (pair_texts pairs.now) (part_text public_id.entry) (part_text system_id.entry) }
{
    for &(public, system) in pairs {
        if public_id == public && system_id == system {
            return true;
        }
    }
    false
}

// Returns true if one of the identifiers alone means quirks.
fn are_quirky(public_id: Option<&str>, system_id: Option<&str>) -> bool
    ensures { result ≡ lowered (is_one_text quirky_public_ids) (part_text public_id.entry)
        || (lowered (is_one_text quirky_system_ids) (part_text system_id.entry)
        || lowered (begins_with_one quirky_public_prefixes) (part_text public_id.entry)) }
{
    is_one_of(&QUIRKY_PUBLIC_IDS, public_id)
        || (is_one_of(&QUIRKY_SYSTEM_IDS, system_id)
            || begins_with_one(&QUIRKY_PUBLIC_PREFIXES, public_id))
}

fn quirks_of_identifiers(public_id: Option<&str>, system_id: Option<&str>) -> QuirksMode
    ensures { result ≡ quirks_of_identifiers (part_text public_id.entry) (part_text system_id.entry) }
{
    if are_quirky(public_id, system_id) {
        QuirksMode::Quirks
    } else if begins_with_one(&LIMITED_QUIRKY_PUBLIC_PREFIXES, public_id) {
        QuirksMode::LimitedQuirks
    } else if begins_with_one(&HTML4_PUBLIC_PREFIXES, public_id) {
        match system_id {
            None => QuirksMode::Quirks,
            Some(_) => QuirksMode::LimitedQuirks,
        }
    } else {
        QuirksMode::NoQuirks
    }
}

// Returns true if the doctype's name is `html`.
fn is_html(doctype: &Doctype) -> bool
    ensures { result ≡ is_part (optional_text doctype.now.name) (codes "html") }
{
    doctype.name.as_deref() == Some("html")
}

fn is_good(doctype: &Doctype) -> bool
    ensures { result ≡ is_good_doctype (doctype_text doctype.now) }
{
    let public_id = doctype.public_id.as_deref();
    let system_id = doctype.system_id.as_deref();
    is_html(doctype) && has_pair(&GOOD_IDENTIFIERS, public_id, system_id)
}

fn quirks_of(doctype: &Doctype, iframe_srcdoc: bool) -> QuirksMode
    ensures { result ≡ quirks_of iframe_srcdoc (doctype_text doctype.now) }
{
    if doctype.force_quirks || !is_html(doctype) {
        QuirksMode::Quirks
    } else if iframe_srcdoc {
        QuirksMode::NoQuirks
    } else {
        quirks_of_identifiers(doctype.public_id.as_deref(), doctype.system_id.as_deref())
    }
}

/// Returns whether a doctype is a parse error, and its quirks mode, in a document or in the `srcdoc` of an `iframe`. A doctype isn't an
/// error if its name is `html` and its identifiers are a pair of `good_identifiers` in `specs/Doctypes.antt`, case-sensitively. For the
/// mode, identifiers are compared ASCII case-insensitively. Doesn't change the doctype, and doesn't allocate (HTML standard, section
/// 13.2.6.4.1, the "initial" insertion mode, a DOCTYPE token).
pub fn doctype_error_and_quirks(doctype: &Doctype, iframe_srcdoc: bool) -> (bool, QuirksMode)
    ensures error { result.0 ≡ not (is_good_doctype (doctype_text doctype.now)) }
    ensures quirks { result.1 ≡ quirks_of iframe_srcdoc (doctype_text doctype.now) }
{
    (!is_good(doctype), quirks_of(doctype, iframe_srcdoc))
}
