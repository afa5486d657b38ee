//! Languages of elements (HTML standard, section 3.2.6.2), and language ranges (RFC 4647, section 3.3.2, "Extended Filtering").
ghost use Rattle.std.specs.Prelude.{◌≡◌, ◌≤◌, IfOk, IfSome, drop, length, map, option_copied, option_map, string_bytes};
ghost use Rattle.std.specs.List.{list_any};
ghost use Rattle.h5_selectors.specs.Languages as l;

use super::values::are_same;
use super::ways::ancestors;
use h5_names::namespaces;
use h5_tree::Tree;
use std::alloc::{AllocError, Global};

// The language that an element's attributes give.
pub(crate) fn own_language<T: Tree>(tree: &T, id: T::NodeId) -> Option<&str>
    ensures { option_copied result ≡ l.own_language (T.forest tree.now) (T.number id) }
{
    if !tree.is_element(id) {
        return None;
    }
    let language = tree.attr_in_namespace(id, namespaces::XML, "lang");
    if language.is_some() {
        return language;
    }
    if tree.is_html_element(id) || tree.has_namespace(id, namespaces::SVG) {
        return tree.attr(id, "lang");
    }
    None
}

// The language of the first of some elements that gives one.
pub(crate) fn first_language<'a, T: Tree>(tree: &'a T, list: &[T::NodeId]) -> Option<&'a str>
    ensures { option_copied result ≡ l.first_language (T.forest tree.now) (map T.number list.now) }
{
    for id in list {
        let language = own_language(tree, *id);
        if language.is_some() {
            return language;
        }
    }
    None
}

/// The language of an element: its own, or that of the nearest ancestor that has one. An unknown language is the empty text.
pub(crate) fn language_of<T: Tree>(
    alloc: Global,
    tree: &T,
    id: T::NodeId,
) -> Result<&str, AllocError>
    ensures { IfOk result (λ language. language.now ≡ l.language (T.forest tree.now) (T.number id)) }
{
    if let Some(language) = own_language(tree, id) {
        return Ok(language);
    }
    let above = ancestors(alloc, tree, id)?;
    match first_language(tree, above.as_slice()) {
        Some(language) => Ok(language),
        None => Ok(""),
    }
}

// The subtags of a language tag or a range.
fn subtags(alloc: Global, text: &[u8]) -> Result<Vec<&[u8]>, AllocError>
    ensures { IfOk result (λ found. map (λ subtag. subtag.now) found.items ≡ l.subtags text.now) }
{
    let mut found = Vec::new(alloc);
    let mut begin = 0;
    for at in 0..text.len() {
        if text[at] == 45 {
            found.push(&text[begin..at])?;
            begin = at + 1;
        }
    }
    found.push(&text[begin..])?;
    Ok(found)
}

fn is_wildcard(wanted: &[u8]) -> bool
    ensures { result ≡ l.is_wildcard wanted.now }
{
    matches!(wanted, [b'*'])
}

// The number of subtags of a tag up to the first one that matches.
fn matched(wanted: &[u8], tag: &[&[u8]]) -> Option<usize>
    ensures within { IfSome result (λ count. count ≤ length tag.now) }
    ensures rest { option_map (λ count. map (λ subtag. subtag.now) (drop count tag.now)) result ≡ l.behind_match wanted.now (map (λ subtag. subtag.now) tag.now) }
{
    for at in 0..tag.len() {
        if are_same(wanted, tag[at], true) {
            return Some(at + 1);
        }
        if tag[at].len() == 1 {
            return None;
        }
    }
    None
}

// The number of subtags of a tag that a subtag of a range takes.
fn taken(wanted: &[u8], tag: &[&[u8]]) -> Option<usize>
    ensures within { IfSome result (λ count. count ≤ length tag.now) }
    ensures rest { option_map (λ count. map (λ subtag. subtag.now) (drop count tag.now)) result ≡ l.behind_wanted wanted.now (map (λ subtag. subtag.now) tag.now) }
{
    if is_wildcard(wanted) {
        Some(0)
    } else {
        matched(wanted, tag)
    }
}

fn matches_further(range: &[&[u8]], tag: &[&[u8]]) -> bool
    ensures { result ≡ l.matches_further (map (λ subtag. subtag.now) range.now) (map (λ subtag. subtag.now) tag.now) }
{
    let mut at = 0;
    for wanted in range {
        match taken(wanted, &tag[at..]) {
            Some(count) => at += count,
            None => return false,
        }
    }
    true
}

// Returns true if a range matches a tag.
fn matches_tag(range: &[&[u8]], tag: &[&[u8]]) -> bool
    ensures { result ≡ l.matches_tag (map (λ subtag. subtag.now) range.now) (map (λ subtag. subtag.now) tag.now) }
{
    let [wanted, further @ ..] = range else {
        return false;
    };
    let [subtag, rest @ ..] = tag else {
        return false;
    };
    (is_wildcard(wanted) || are_same(wanted, subtag, true)) && matches_further(further, rest)
}

// Returns true if a language is in a range.
fn is_in_range(alloc: Global, language: &str, range: &str) -> Result<bool, AllocError>
    ensures { IfOk result (λ answer. answer ≡ l.is_in_range language.now range.now) }
{
    if language.is_empty() || range.is_empty() {
        return Ok(language.is_empty() && range.is_empty());
    }
    let wanted = subtags(alloc, range.as_bytes())?;
    let tag = subtags(alloc, language.as_bytes())?;
    Ok(matches_tag(wanted.as_slice(), tag.as_slice()))
}

/// Returns true if a language is in one of these ranges.
pub(crate) fn is_in_ranges(
    alloc: Global,
    ranges: &[String],
    language: &str,
) -> Result<bool, AllocError>
    ensures { IfOk result (λ answer. answer ≡ list_any (l.is_in_range language.now) (map string_bytes ranges.now)) }
{
    for range in ranges {
        if is_in_range(alloc, language, range.as_str())? {
            return Ok(true);
        }
    }
    Ok(false)
}
