//! Whole pages: their text, their links, and their cleaned HTML.
ghost use Rattle.std.specs.Prelude.{◌≡◌, ◌≢◌, ◌++◌, IfOk, OnOk};
ghost use Rattle.std.specs.Str.Lossy.{utf8_lossy};
ghost use Rattle.html_tree_builder.specs.Cleaned.{IsCleaned};
ghost use Rattle.html_tree_builder.specs.DefaultPolicy.{default_rules};
ghost use Rattle.h5_page.specs.Links.{link_text, link_texts};
ghost use Rattle.h5_c.specs.Pages.{AreLinksOfPage, IsTextOfPage, bytes_of_link, bytes_of_links, text_opts};
ghost use Rattle.h5_c.specs.Status.{HandsOutSuch};

use super::parse::tree_of;
use super::status::give;
use h5_page::{Link, TextOpts, links_of, text_with};
use html_tree_builder::clean::{DefaultPolicy, clean};
use std::alloc::{AllocError, Global};

// The layout for lines of this width; 0 doesn't wrap them. The page is parsed without scripting.
fn opts_by(width: usize) -> TextOpts
    ensures { result ≡ text_opts width }
{
    TextOpts {
        width: if width == 0 { None } else { Some(width) },
        has_numbers: false,
        scripting_enabled: false,
    }
}

fn text_of(alloc: Global, page: &[u8], width: usize) -> Result<Vec<u8>, AllocError>
    ensures { IfOk result (λ text. IsTextOfPage page.now width text.items) }
{
    let arena = tree_of(alloc, page, 0)?;
    let laid = text_with(alloc, &arena.at(arena.document()), opts_by(width))?;
    Ok(laid.text.into_bytes())
}

// The target of a link, a NUL, its text, a NUL.
fn put_link(bytes: &mut Vec<u8>, link: &Link) -> Result<(), AllocError>
    ensures { OnOk result (bytes.new.items ≡ bytes.old.items ++ bytes_of_link (link_text link.now)) }
{
    bytes.extend_from_slice(link.href.as_str().as_bytes())?;
    bytes.push(0)?;
    bytes.extend_from_slice(link.text.as_str().as_bytes())?;
    bytes.push(0)?;
    Ok(())
}

fn put_links(bytes: &mut Vec<u8>, links: &[Link]) -> Result<(), AllocError>
    ensures { OnOk result (bytes.new.items ≡ bytes.old.items ++ bytes_of_links (link_texts links.now)) }
{
    for link in links {
        put_link(bytes, link)?;
    }
    Ok(())
}

fn link_bytes(alloc: Global, page: &[u8]) -> Result<Vec<u8>, AllocError>
    ensures { IfOk result (λ bytes. AreLinksOfPage page.now bytes.items) }
{
    let arena = tree_of(alloc, page, 0)?;
    let links = links_of(alloc, &arena.at(arena.document()))?;
    let mut bytes = Vec::new(alloc);
    put_links(&mut bytes, links.as_slice())?;
    Ok(bytes)
}

fn cleaned(alloc: Global, html: &[u8]) -> Result<Vec<u8>, AllocError>
    ensures { IfOk result (λ left. IsCleaned default_rules (utf8_lossy html.now) left.items) }
{
    let html = String::from_utf8_lossy(alloc, html)?;
    let left = clean(alloc, html.as_str(), &DefaultPolicy)?;
    Ok(left.into_bytes())
}

/// The text of a page, as a browser shows it without a style sheet.
#[unsafe(no_mangle)]
pub extern "C" fn hengaruto_page_text(
    alloc: Global,
    page: &[u8],
    width: usize,
    text: &mut *mut u8,
    length: &mut usize,
) -> u32
    ensures text { HandsOutSuch (IsTextOfPage page.now width) result length.new }
    ensures kept { result ≢ 0 → length.new ≡ length.old }
{
    give(text_of(alloc, page, width), text, length)
}

/// The links of a page.
#[unsafe(no_mangle)]
pub extern "C" fn hengaruto_page_links(
    alloc: Global,
    page: &[u8],
    links: &mut *mut u8,
    length: &mut usize,
) -> u32
    ensures links { HandsOutSuch (AreLinksOfPage page.now) result length.new }
    ensures kept { result ≢ 0 → length.new ≡ length.old }
{
    give(link_bytes(alloc, page), links, length)
}

/// What the default policy allows of a fragment, as HTML.
#[unsafe(no_mangle)]
pub extern "C" fn hengaruto_clean(
    alloc: Global,
    html: &[u8],
    cleaned_html: &mut *mut u8,
    length: &mut usize,
) -> u32
    ensures cleaned { HandsOutSuch (IsCleaned default_rules (utf8_lossy html.now)) result length.new }
    ensures kept { result ≢ 0 → length.new ≡ length.old }
{
    give(cleaned(alloc, html), cleaned_html, length)
}
