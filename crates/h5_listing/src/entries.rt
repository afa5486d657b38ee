//! The elements that a listing has, with their texts.
ghost use Rattle.std.specs.Iterator.{IsFinite};

use super::words::write_words;
use html_tree_builder::QualName;
use html_tree_builder::arena::NodeRef;
use html_tree_builder::serialize::{
    AttrRef, Serialize, SerializeFault, Serializer, TraversalScope,
};
use std::alloc::{AllocError, Global};

/// What is listed.
#[derive(Clone, Copy)]
pub(crate) enum Listing {
    /// Headings, but none in a template.
    Headings,
    /// Links and other references.
    References,
}

/// An element of a listing. Its text begins after its start tag, and ends at its end tag or where the next element of its class begins.
#[derive(Drop)]
pub(crate) struct Entry {
    /// The level of a heading, or the name of an element with a reference.
    pub label: &'static str,
    /// The target of a reference.
    pub target: Option<String>,
    // The place of its text among the texts of the page.
    begin: usize,
    end: usize,
}

// The entry of a class whose text hasn't ended.
#[derive(Clone, Copy)]
struct OpenEntry {
    class: &'static str,
    at: usize,
}

/// The elements of a listing in tree order, and the texts of the page. A text is in at most one entry of each class, so all of them
/// together take time linear in the page.
#[derive(Drop)]
pub(crate) struct Entries {
    pub list: Vec<Entry>,
    listing: Listing,
    open: Vec<OpenEntry>,
    text: String,
    // How many templates are open.
    templates: usize,
    alloc: Global,
}

// What an element is in a listing.
#[derive(Clone, Copy)]
struct Role {
    class: &'static str,
    label: &'static str,
    // The attribute with the target. Without it the element isn't listed, but ends the text of the entry before.
    target: Option<&'static str>,
}

// A heading with this level.
fn heading(level: &'static str) -> Option<Role> {
    Some(Role {
        class: "heading",
        label: level,
        target: None,
    })
}

// An element with a reference in this attribute.
fn reference(name: &'static str, target: &'static str) -> Option<Role> {
    Some(Role {
        class: name,
        label: name,
        target: Some(target),
    })
}

fn heading_role(name: &QualName) -> Option<Role> {
    if !name.ns.is_html() {
        return None;
    }
    match name.local.as_str() {
        "h1" => heading("1"),
        "h2" => heading("2"),
        "h3" => heading("3"),
        "h4" => heading("4"),
        "h5" => heading("5"),
        "h6" => heading("6"),
        _ => None,
    }
}

fn reference_role(name: &QualName) -> Option<Role> {
    if name.ns.is_svg() && name.local.as_str() == "a" {
        return reference("a", "href");
    }
    if !name.ns.is_html() {
        return None;
    }
    match name.local.as_str() {
        "a" => reference("a", "href"),
        "area" => reference("area", "href"),
        "link" => reference("link", "href"),
        "audio" => reference("audio", "src"),
        "embed" => reference("embed", "src"),
        "iframe" => reference("iframe", "src"),
        "img" => reference("img", "src"),
        "input" => reference("input", "src"),
        "script" => reference("script", "src"),
        "source" => reference("source", "src"),
        "track" => reference("track", "src"),
        "video" => reference("video", "src"),
        "form" => reference("form", "action"),
        _ => None,
    }
}

fn is_template(name: &QualName) -> bool {
    name.ns.is_html() && name.local.as_str() == "template"
}

// The values of an element's attributes: its target, and its replacement text.
#[derive(Drop)]
struct Values {
    target: Option<String>,
    alt: Option<String>,
}

// Returns true if a name is this one.
fn is_named(name: &str, wanted: Option<&'static str>) -> bool {
    match wanted {
        Some(wanted) => name == wanted,
        None => false,
    }
}

// The first values of the attribute with the target and of `alt`.
fn values_of<T: AttrRef, I: Iterator<Item = T> + Drop>(
    alloc: Global,
    attrs: I,
    target: Option<&'static str>,
) -> Result<Values, AllocError>
    requires can { I.can_next attrs }
    requires ends { IsFinite (I.remaining attrs) }
{
    let mut values = Values {
        target: None,
        alt: None,
    };
    for attr in attrs {
        let name = attr.name().local.as_str();
        if is_named(name, target) && values.target.is_none() {
            values.target = Some(String::from_str(alloc, attr.value())?);
        }
        if name == "alt" && values.alt.is_none() {
            values.alt = Some(String::from_str(alloc, attr.value())?);
        }
    }
    Ok(values)
}

// The place of the open entry of a class among the open ones.
fn place_of(open: &[OpenEntry], class: &str) -> Option<usize> {
    for at in 0..open.len() {
        if open[at].class == class {
            return Some(at);
        }
    }
    None
}

impl Entries {
    fn role_of(&self, name: &QualName) -> Option<Role> {
        match self.listing {
            Listing::Headings => heading_role(name),
            Listing::References => reference_role(name),
        }
    }

    // Returns true in a template whose contents aren't listed.
    fn is_outside(&self) -> bool {
        matches!(self.listing, Listing::Headings) && self.templates > 0
    }

    // Ends the text of the open entry of a class, if there is one.
    fn close(&mut self, class: &str) {
        let Some(place) = place_of(self.open.as_slice(), class) else {
            return;
        };
        let end = self.text.len();
        if place < self.open.len() {
            let at = self.open.swap_remove(place).at;
            if at < self.list.len() {
                self.list[at].end = end;
            }
        }
    }

    // Adds an entry, which is open.
    fn add(&mut self, role: Role, target: Option<String>) -> Result<(), AllocError> {
        let (at, begin) = (self.list.len(), self.text.len());
        self.list.push(Entry {
            label: role.label,
            target,
            begin,
            end: begin,
        })?;
        let class = role.class;
        self.open.push(OpenEntry { class, at })?;
        Ok(())
    }

    // Adds the replacement text of an element, and the element if it is listed.
    fn begin(&mut self, role: Option<Role>, values: Values) -> Result<(), AllocError> {
        if let Some(alt) = &values.alt {
            self.text.push(' ')?;
            self.text.push_str(alt.as_str())?;
            self.text.push(' ')?;
        }
        let Some(role) = role else {
            return Ok(());
        };
        self.close(role.class);
        if role.target.is_none() || values.target.is_some() {
            self.add(role, values.target)?;
        }
        Ok(())
    }

    /// The words of the text of an entry, including the replacement texts of images. Fails with `AllocError` if an allocation fails.
    pub fn words_of(&self, entry: &Entry) -> Result<String, AllocError> {
        let mut line = String::new(self.alloc);
        if let Some(text) = self.text.as_str().get(entry.begin..entry.end) {
            write_words(&mut line, text)?;
        }
        Ok(line)
    }
}

impl Serializer for Entries {
    ghost use Rattle.std.specs.Prelude.{[], None, Ok};

    ghost Meaning = { Unit {0} };

    ghost meaning = { λ _. tt };

    ghost contents = { λ _. None };

    ghost answer = { λ _ _. Ok tt };

    ghost after = { λ _ _. tt };

    ghost writes = { λ _ _. [] };

    ghost breaks = { λ before text call fault after written. Unit {0} };

    fn start_elem<T: AttrRef, I: Iterator<Item = T> + Drop>(
        &mut self,
        name: QualName,
        attrs: I,
    ) -> Result<(), SerializeFault> {
        let role = self.role_of(&name);
        let values = values_of(self.alloc, attrs, role.and_then(|role| role.target))?;
        if !self.is_outside() {
            self.begin(role, values)?;
        }
        if is_template(&name) {
            self.templates = self.templates.saturating_add(1);
        }
        Ok(())
    }

    fn end_elem(&mut self, name: QualName) -> Result<(), SerializeFault> {
        if is_template(&name) {
            self.templates = self.templates.saturating_sub(1);
        }
        if let Some(role) = self.role_of(&name) {
            if !self.is_outside() {
                self.close(role.class);
            }
        }
        Ok(())
    }

    fn write_text(&mut self, text: &str) -> Result<(), SerializeFault> {
        if !self.is_outside() {
            self.text.push_str(text)?;
        }
        Ok(())
    }

    fn write_comment(&mut self, _text: &str) -> Result<(), SerializeFault> {
        Ok(())
    }

    fn write_doctype(&mut self, _name: &str) -> Result<(), SerializeFault> {
        Ok(())
    }

    fn write_processing_instruction(
        &mut self,
        _target: &str,
        _content: &str,
    ) -> Result<(), SerializeFault> {
        Ok(())
    }
}

/// The elements below a node that a listing has. Fails with `AllocError` if an allocation fails.
pub(crate) fn entries_of(
    alloc: Global,
    top: &NodeRef<'_>,
    listing: Listing,
) -> Result<Entries, AllocError> {
    let mut entries = Entries {
        list: Vec::new(alloc),
        listing,
        open: Vec::new(alloc),
        text: String::new(alloc),
        templates: 0,
        alloc,
    };
    top.serialize(&mut entries, TraversalScope::ChildrenOnly(None))
        .map_err(|_fault| AllocError)?;
    Ok(entries)
}
