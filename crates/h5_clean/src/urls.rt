//! The schemes of URLs, as browsers read them (URL standard, section 4.4).
ghost use Rattle.std.specs.Prelude.{◌≡◌, ◌&&◌, ◌++◌, List, Some, [], is_some, map, string_bytes, ℕ};
ghost use Rattle.std.specs.List.{list_any};
ghost use Rattle.std.specs.Option.{option_eq};
ghost use Rattle.h5_names.specs.AttributeText.{is_same_text};
ghost use Rattle.h5_clean.specs.AllowLists.{leads_well};
ghost use Rattle.h5_clean.specs.DefaultPolicy.{has_scheme_of, image_schemes, link_schemes};
ghost use Rattle.h5_clean.specs.Urls.{behind_controls, is_fragment_first, is_scheme_byte, is_script, is_skipped, is_url_name, scheme_behind, scheme_of, scheme_of_visible};

use super::lists::{URLS, is_among};

// A byte that is skipped in a URL: TAB, LF and CR.
fn is_skipped(byte: u8) -> bool
    ensures { result ≡ is_skipped byte }
{
    byte == b'\t' || byte == b'\n' || byte == b'\r'
}

// A byte of a scheme.
fn is_scheme_byte(byte: u8) -> bool
    ensures { result ≡ is_scheme_byte byte }
{
    byte.is_ascii_alphabetic()
        || byte.is_ascii_digit()
        || byte == b'+'
        || byte == b'-'
        || byte == b'.'
}

// The URL without leading C0 controls and spaces.
fn behind_controls(mut url: &[u8]) -> &[u8]
    ensures { result.now ≡ behind_controls url.entry.now }
{
    while let [first, rest @ ..] = url
        && *first <= b' '
    {
        url = rest;
    }
    url
}

// The bytes of a scheme are followed by ':'.
fn has_end(mut url: &[u8]) -> bool
    ensures { (read : List ℕ) → result ≡ is_some (scheme_behind read url.entry.now) }
{
    while let [first, rest @ ..] = url {
        if !is_skipped(*first) {
            if *first == b':' {
                return true;
            }
            if !is_scheme_byte(*first) {
                return false;
            }
        }
        url = rest;
    }
    false
}

// A URL without leading C0 controls and spaces has a scheme.
fn has_scheme(mut url: &[u8]) -> bool
    ensures { result ≡ is_some (scheme_of_visible url.entry.now) }
{
    while let [first, rest @ ..] = url {
        if !is_skipped(*first) {
            return first.is_ascii_alphabetic() && has_end(rest);
        }
        url = rest;
    }
    false
}

// The bytes up to ':', in lower case, are this name.
fn spells(mut url: &[u8], mut name: &[u8]) -> bool
    ensures { (read : List ℕ) → result ≡ option_eq is_same_text (Some (read ++ name.entry.now)) (scheme_behind read url.entry.now) }
{
    while let [first, rest @ ..] = url {
        if !is_skipped(*first) {
            if *first == b':' {
                return name.is_empty();
            }
            let [wanted, behind @ ..] = name else {
                return false;
            };
            if !is_scheme_byte(*first) || *wanted != first.to_ascii_lowercase() {
                return false;
            }
            name = behind;
        }
        url = rest;
    }
    false
}

// A URL without leading C0 controls and spaces is relative, or has the scheme `http` or `https`.
fn is_web(url: &[u8]) -> bool
    ensures { result ≡ has_scheme_of image_schemes (scheme_of_visible url.now) }
{
    if has_scheme(url) {
        spells(url, b"http") || spells(url, b"https")
    } else {
        true
    }
}

/// Returns true if the URL of a link is allowed: it is relative, or its scheme is `http`, `https` or `mailto`.
pub fn is_link(url: &str) -> bool
    ensures { result ≡ has_scheme_of link_schemes (scheme_of url.now) }
{
    let visible = behind_controls(url.as_bytes());
    is_web(visible) || spells(visible, b"mailto")
}

/// Returns true if the URL of an image is allowed: it is relative, or its scheme is `http` or `https`.
pub fn is_image(url: &str) -> bool
    ensures { result ≡ has_scheme_of image_schemes (scheme_of url.now) }
{
    is_web(behind_controls(url.as_bytes()))
}

// The bytes up to ':', in lower case, are one of these names.
fn spells_one(url: &[u8], names: &[String]) -> bool
    ensures { result ≡ list_any (λ name. option_eq is_same_text (Some (string_bytes name)) (scheme_behind [] url.now)) names.now }
{
    names.iter().any(|name| spells(url, name.as_bytes()))
}

// A URL without leading C0 controls and spaces begins with '#'.
fn is_fragment_first(url: &[u8]) -> bool
    ensures { result ≡ is_fragment_first url.now }
{
    matches!(url, [first, ..] if *first == b'#')
}

/// Returns true if the URL has one of these schemes, or has none and may be relative, or begins with '#'.
pub fn leads_well(url: &str, relative: bool, schemes: &[String]) -> bool
    ensures { result ≡ leads_well relative (map string_bytes schemes.now) url.now }
{
    let visible = behind_controls(url.as_bytes());
    if is_fragment_first(visible) {
        true
    } else if has_scheme(visible) {
        spells_one(visible, schemes)
    } else {
        relative
    }
}

/// Returns true if an attribute of this name holds a URL in HTML.
#[tactic(auto, unfolding(crate::specs::Urls::url_names))]
pub fn is_url_name(attribute: &str) -> bool
    ensures { result ≡ is_url_name attribute.now }
{
    is_among(&URLS, attribute)
}

// A URL without leading C0 controls and spaces has a scheme by which a browser runs it as a script.
fn has_script_scheme(url: &[u8]) -> bool
    ensures { result ≡ is_script (scheme_of_visible url.now) }
{
    has_scheme(url) && (spells(url, b"javascript") || spells(url, b"vbscript"))
}

/// Returns true if a browser would run the URL that an attribute holds as a script.
pub fn is_script(attribute: &str, value: &str) -> bool
    ensures { result ≡ (is_url_name attribute.now && is_script (scheme_of value.now)) }
{
    is_url_name(attribute) && has_script_scheme(behind_controls(value.as_bytes()))
}
