//! Receives the calls of a page's walk, and collects its links.
ghost use Rattle.std.specs.Prelude.{◌≡◌, ◌∷◌, [], List, map, option_map, IfOk, OnOk, string_bytes};
ghost use Rattle.std.specs.Iterator.{Drains, IsFinite};
ghost use Rattle.h5_page.specs.Links.{begun, closed, href_of, is_link, kept, link_texts, nothing_kept, or_next};

use html_tree_builder::names::QualName;
use html_tree_builder::serialize::{AttrRef, SerializeFault, Serializer};
use std::alloc::{AllocError, Global};

/// A link: its `href`, and its text.
#[derive(Debug, Drop)]
pub struct Link {
    pub href: String,
    pub text: String,
}

/// The links so far: the complete ones, and the open one.
#[derive(Drop)]
pub struct Links {
    list: Vec<Link>,
    current: Option<Link>,
    alloc: Global,
}

// Returns true if an element with this name may be a link.
fn is_link(name: &QualName) -> bool
    ensures { result ≡ is_link name.now }
{
    (name.ns.is_html() || name.ns.is_svg()) && name.local.as_str() == "a"
}

// Returns the `href` that was found before, or else the value of this attribute if it is `href`.
fn first_href<T: AttrRef>(
    alloc: Global,
    found: Option<String>,
    attr: &T,
) -> Result<Option<String>, AllocError>
    ensures { IfOk result (λ href. option_map string_bytes href ≡ or_next (option_map string_bytes found) (href_of (T.attribute attr.now ∷ []))) }
{
    if found.is_some() {
        return Ok(found);
    }
    if attr.name().local.as_str() == "href" {
        let value = String::from_str(alloc, attr.value())?;
        return Ok(Some(value));
    }
    Ok(None)
}

// Returns the value of the first attribute `href`.
fn href_of<T: AttrRef, I: Iterator<Item = T> + Drop>(
    alloc: Global,
    attrs: I,
) -> Result<Option<String>, AllocError>
    requires can { I.can_next attrs }
    requires ends { IsFinite (I.remaining attrs) }
    ensures { IfOk result (λ href. (all : List _) × Drains I.next_gives attrs all
        × (option_map string_bytes href ≡ href_of (map T.attribute all))) }
{
    let mut href: Option<String> = None;
    'attributes: for attr in attrs {
        href = first_href(alloc, href, &attr)?;
    }
    Ok(href)
}

impl Links {
    /// Returns an empty collection.
    pub fn new(alloc: Global) -> Links
        ensures { kept result ≡ nothing_kept }
    {
        Links {
            list: Vec::new(alloc),
            current: None,
            alloc,
        }
    }

    // Completes the open link.
    fn close(&mut self) -> Result<(), AllocError>
        ensures { OnOk result (kept self.new ≡ closed (kept self.old)) }
    {
        if let Some(link) = self.current.take() {
            self.list.push(link)?;
        }
        Ok(())
    }

    // Begins a link, if it has an `href`.
    fn open(&mut self, href: Option<String>) -> Result<(), AllocError>
        ensures { OnOk result (kept self.new ≡ begun (option_map string_bytes href) (closed (kept self.old))) }
    {
        self.close()?;
        if let Some(href) = href {
            let text = String::new(self.alloc);
            self.current = Some(Link { href, text });
        }
        Ok(())
    }

    /// Returns all links; the open one is last.
    pub fn into_list(self) -> Result<Vec<Link>, AllocError>
        ensures { IfOk result (λ list. link_texts list.items ≡ (closed (kept self)).list) }
    {
        let mut links = self;
        links.close()?;
        Ok(links.list)
    }
}

impl Serializer for Links {
    ghost use Rattle.std.specs.Prelude.{◌≡◌, [], None, Ok};
    ghost use Rattle.html_tree_builder.specs.SerializeFaults.{Memory};
    ghost use Rattle.h5_page.specs.Links.{Kept, after_call, kept};

    ghost Meaning = { Kept };

    ghost meaning = { kept };

    ghost contents = { λ links. None };

    ghost answer = { λ links call. Ok tt };

    ghost after = { after_call };

    ghost writes = { λ links call. [] };

    ghost breaks = { λ before text call fault after written. fault ≡ Memory };

    fn start_elem<T: AttrRef, I: Iterator<Item = T> + Drop>(
        &mut self,
        name: QualName,
        attrs: I,
    ) -> Result<(), SerializeFault> {
        if !is_link(&name) {
            return Ok(());
        }
        let href = href_of(self.alloc, attrs)?;
        self.open(href)?;
        Ok(())
    }

    fn end_elem(&mut self, name: QualName) -> Result<(), SerializeFault> {
        if is_link(&name) {
            self.close()?;
        }
        Ok(())
    }

    fn write_text(&mut self, text: &str) -> Result<(), SerializeFault> {
        if let Some(link) = &mut self.current {
            link.text.push_str(text)?;
        }
        Ok(())
    }

    fn write_comment(&mut self, _text: &str) -> Result<(), SerializeFault> {
        Ok(())
    }

    fn write_doctype(&mut self, _name: &str) -> Result<(), SerializeFault> {
        Ok(())
    }

    fn write_processing_instruction(
        &mut self,
        _target: &str,
        _content: &str,
    ) -> Result<(), SerializeFault> {
        Ok(())
    }
}
