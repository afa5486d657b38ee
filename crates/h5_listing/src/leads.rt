//! The links of a page.
use super::entries::{Listing, entries_of};
use super::item::Item;
use super::words::write_words;
use h5_page::links_of;
use html_tree_builder::arena::NodeRef;
use std::alloc::{AllocError, Global};
use std::fmt::Write;
use url::Url;

// A link resolved against a base. Without a base, or if it isn't a URL, it is unchanged.
fn lead(alloc: Global, base: Option<&Url>, href: &str) -> Result<String, AllocError> {
    if let Some(base) = base {
        if let Ok(url) = base.join(href) {
            return String::from_str(alloc, url.as_str());
        }
    }
    String::from_str(alloc, href)
}

// The first `href` of a `base`.
fn base_href<'a>(top: &NodeRef<'a>) -> Result<Option<&'a str>, AllocError> {
    let arena = top.arena;
    for id in arena.descendants(top.id)? {
        if let Some(name) = arena.name(id) {
            if name.ns.is_html() && name.local.as_str() == "base" {
                if let Some(href) = arena.attr(id, "href") {
                    return Ok(Some(href));
                }
            }
        }
    }
    Ok(None)
}

// A text as a URL, resolved against this one if there is one.
fn url_from(alloc: Global, said: Option<&Url>, text: &str) -> Option<Url> {
    let url = match said {
        Some(said) => said.join(text),
        None => Url::parse(alloc, text),
    };
    url.ok()
}

/// The base URL of a page: that of its `base`, resolved against this URL, or else this URL, if there is one (HTML standard, section 2.4.3,
/// "Document base URLs"). Fails with `AllocError` if an allocation fails.
pub fn base_of(
    alloc: Global,
    top: &NodeRef<'_>,
    said: Option<&Url>,
) -> Result<Option<Url>, AllocError> {
    let own = base_href(top)?.unwrap_or("");
    Ok(url_from(alloc, said, own))
}

/// The links of a page in tree order: the target of each, and the words of its text. Fails with `AllocError` if an allocation fails.
pub fn links(
    alloc: Global,
    top: &NodeRef<'_>,
    base: Option<&Url>,
) -> Result<Vec<Item>, AllocError> {
    let mut found = Vec::new(alloc);
    for link in links_of(alloc, top)? {
        let href = lead(alloc, base, link.href.as_str())?;
        let mut text = String::new(alloc);
        write_words(&mut text, link.text.as_str())?;
        let mut item = Item::new(alloc);
        item.add("href", href.as_str())?;
        item.add("text", text.as_str())?;
        found.push(item)?;
    }
    Ok(found)
}

/// The numbered links of a text: the number and the target of each. Fails with `AllocError` if an allocation fails.
pub fn references(
    alloc: Global,
    hrefs: &[String],
    base: Option<&Url>,
) -> Result<Vec<Item>, AllocError> {
    let mut found = Vec::new(alloc);
    for at in 0..hrefs.len() {
        let href = lead(alloc, base, hrefs[at].as_str())?;
        let mut mark = String::new(alloc);
        let number = at + 1;
        write!(mark, "[{number}]")?;
        let mut item = Item::new(alloc);
        item.add("number", mark.as_str())?;
        item.add("href", href.as_str())?;
        found.push(item)?;
    }
    Ok(found)
}

/// All links of a page and all resources that it embeds, in tree order: the name of the element, the target, and the words of its text. An
/// element of the same name in it ends its text. Fails with `AllocError` if an allocation fails.
pub fn all_links(
    alloc: Global,
    top: &NodeRef<'_>,
    base: Option<&Url>,
) -> Result<Vec<Item>, AllocError> {
    let entries = entries_of(alloc, top, Listing::References)?;
    let mut found = Vec::new(alloc);
    for entry in entries.list.as_slice() {
        if let Some(target) = &entry.target {
            let href = lead(alloc, base, target.as_str())?;
            let text = entries.words_of(entry)?;
            let mut item = Item::new(alloc);
            item.add("element", entry.label)?;
            item.add("href", href.as_str())?;
            item.add("text", text.as_str())?;
            found.push(item)?;
        }
    }
    Ok(found)
}
