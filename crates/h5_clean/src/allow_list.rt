//! A policy that is a table.
ghost use Rattle.std.specs.Prelude.{◌≡◌, ◌∷◌, ◌++◌, [], None, Some, OnOk, OnErr, true, false};
ghost use Rattle.h5_clean.specs.AllowLists.{has_classes, holds_url, is_listed, keeps_listed, leads_well, table_rules};
ghost use Rattle.h5_clean.specs.DefaultPolicy.{keeping};

use super::name_list::{AttributeList, NameList, any_keeps};
use super::place::Around;
use super::policy::Policy;
use super::urls::{is_url_name, leads_well};
use std::alloc::{AllocError, Global};
use std::marker::Model;

/// A policy that is a table: what isn't listed isn't allowed. An entry that is added twice counts once.
///
/// A name or value is stored as it is given. Each call that adds or sets a name or value fails with `AllocError` if an
/// allocation fails; the list is then unchanged.
#[derive(Debug)]
pub struct AllowList {
    alloc: Global,
    elements: NameList,
    dropped: NameList,
    attributes: NameList,
    attribute_prefixes: NameList,
    attributes_of: Vec<AttributeList>,
    classes: NameList,
    urls: NameList,
    schemes: NameList,
    relative: bool,
    rel: Option<String>,
    prefix: Option<String>,
    around: Around,
    depth: usize,
}

impl Drop for AllowList {
    fn drop(self) {
        let AllowList {
            alloc: _alloc,
            elements: _elements,
            dropped: _dropped,
            attributes: _attributes,
            attribute_prefixes: _attribute_prefixes,
            attributes_of: _attributes_of,
            classes: _classes,
            urls: _urls,
            schemes: _schemes,
            relative: _relative,
            rel: _rel,
            prefix: _prefix,
            around: _around,
            depth: _depth,
        } = self;
    }
}

impl Model for AllowList {
    ghost use Rattle.std.specs.Prelude.{string_bytes};
    ghost use Rattle.std.specs.Option.{option_map};
    ghost use Rattle.h5_clean.specs.AllowLists.{Table};

    ghost Value = { Table };

    ghost view = { λ list. record {
      elements = list.elements;
      dropped = list.dropped;
      attributes = list.attributes;
      attribute_prefixes = list.attribute_prefixes;
      attributes_of = list.attributes_of.items;
      classes = list.classes;
      urls = list.urls;
      schemes = list.schemes;
      relative = list.relative;
      rel = option_map string_bytes list.rel;
      prefix = option_map string_bytes list.prefix;
      around = list.around;
      depth = list.depth;
    } };
}

impl AllowList {
    /// Returns a table that lists nothing, allows relative URLs, sets neither `rel` nor a prefix, allows list items
    /// open around the text (`Around::items`), and elements nested 256 deep.
    pub fn new(alloc: Global) -> AllowList
        ensures { result ≡ record {
          elements = [];
          dropped = [];
          attributes = [];
          attribute_prefixes = [];
          attributes_of = [];
          classes = [];
          urls = [];
          schemes = [];
          relative = true;
          rel = None;
          prefix = None;
          around = record { in_p = false; in_heading = false; in_item = true; in_description = true; in_link = false };
          depth = 256;
        } }
    {
        AllowList {
            alloc,
            elements: NameList::new(alloc),
            dropped: NameList::new(alloc),
            attributes: NameList::new(alloc),
            attribute_prefixes: NameList::new(alloc),
            attributes_of: Vec::new(alloc),
            classes: NameList::new(alloc),
            urls: NameList::new(alloc),
            schemes: NameList::new(alloc),
            relative: true,
            rel: None,
            prefix: None,
            around: Around::items(),
            depth: 256,
        }
    }

    /// Allows elements of this name, if the name has a kind. Fails with `AllocError` if an allocation fails.
    pub fn add_element(&mut self, name: &str) -> Result<(), AllocError>
        ensures ok { OnOk result (self.new ≡ record self.old { elements = self.old.elements ++ name.now ∷ [] }) }
        ensures err { OnErr result (self.new ≡ self.old) }
    {
        self.elements.push(self.alloc, name)
    }

    /// Drops elements of this name with their content. Fails with `AllocError` if an allocation fails.
    pub fn drop_element(&mut self, name: &str) -> Result<(), AllocError>
        ensures ok { OnOk result (self.new ≡ record self.old { dropped = self.old.dropped ++ name.now ∷ [] }) }
        ensures err { OnErr result (self.new ≡ self.old) }
    {
        self.dropped.push(self.alloc, name)
    }

    /// Allows attributes of this name for any element. Fails with `AllocError` if an allocation fails.
    pub fn add_attribute(&mut self, name: &str) -> Result<(), AllocError>
        ensures ok { OnOk result (self.new ≡ record self.old { attributes = self.old.attributes ++ name.now ∷ [] }) }
        ensures err { OnErr result (self.new ≡ self.old) }
    {
        self.attributes.push(self.alloc, name)
    }

    /// Allows attributes whose names begin with this prefix for any element: with `data-`, those of scripts. Fails with
    /// `AllocError` if an allocation fails.
    pub fn add_attribute_prefix(&mut self, prefix: &str) -> Result<(), AllocError>
        ensures ok { OnOk result (self.new ≡ record self.old { attribute_prefixes = self.old.attribute_prefixes ++ prefix.now ∷ [] }) }
        ensures err { OnErr result (self.new ≡ self.old) }
    {
        self.attribute_prefixes.push(self.alloc, prefix)
    }

    /// Keeps the classes that begin with this prefix wherever `class` is allowed. From the first call on, each class that begins
    /// with no prefix is dropped, and so is a `class` of which no class is left. Fails with `AllocError` if an allocation
    /// fails.
    pub fn add_class_prefix(&mut self, prefix: &str) -> Result<(), AllocError>
        ensures ok { OnOk result (self.new ≡ record self.old { classes = self.old.classes ++ prefix.now ∷ [] }) }
        ensures err { OnErr result (self.new ≡ self.old) }
    {
        self.classes.push(self.alloc, prefix)
    }

    /// Allows attributes of a name for the elements of another. Fails with `AllocError` if an allocation fails.
    pub fn add_attribute_for(&mut self, element: &str, name: &str) -> Result<(), AllocError>
        ensures ok { OnOk result (self.new ≡ record self.old {
          attributes_of = self.old.attributes_of ++ keeping element.now (name.now ∷ []) ∷ [];
        }) }
        ensures err { OnErr result (self.new ≡ self.old) }
    {
        let list = AttributeList::of_one(self.alloc, element, name)?;
        self.attributes_of.push(list)?;
        Ok(())
    }

    /// Treats attributes of this name as URLs, so that their schemes are checked; `href`, `src`, `cite`, `poster` and
    /// other attributes of HTML always are. Fails with `AllocError` if an allocation fails.
    pub fn add_url_attribute(&mut self, name: &str) -> Result<(), AllocError>
        ensures ok { OnOk result (self.new ≡ record self.old { urls = self.old.urls ++ name.now ∷ [] }) }
        ensures err { OnErr result (self.new ≡ self.old) }
    {
        self.urls.push(self.alloc, name)
    }

    /// Allows this scheme for URLs. It must be given in lower case, without ':'. Fails with `AllocError` if an
    /// allocation fails.
    pub fn add_scheme(&mut self, name: &str) -> Result<(), AllocError>
        ensures ok { OnOk result (self.new ≡ record self.old { schemes = self.old.schemes ++ name.now ∷ [] }) }
        ensures err { OnErr result (self.new ≡ self.old) }
    {
        self.schemes.push(self.alloc, name)
    }

    /// Allows no relative URLs, except those of places in the page, which begin with '#'.
    pub fn deny_relative(&mut self)
        ensures { self.new ≡ record self.old { relative = false } }
    {
        self.relative = false;
    }

    /// Sets the attribute `rel` of each `a` to this value. Fails with `AllocError` if an allocation fails.
    pub fn set_rel(&mut self, rel: &str) -> Result<(), AllocError>
        ensures ok { OnOk result (self.new ≡ record self.old { rel = Some rel.now }) }
        ensures err { OnErr result (self.new ≡ self.old) }
    {
        let text = String::from_str(self.alloc, rel)?;
        self.rel = Some(text);
        Ok(())
    }

    /// Sets a prefix for ids: for the values of each `id` and `name` that is kept, and for the references to them. It
    /// is put before a value that doesn't begin with it. A prefix with ASCII whitespace or NUL is ignored. Fails with
    /// `AllocError` if an allocation fails.
    pub fn set_id_prefix(&mut self, prefix: &str) -> Result<(), AllocError>
        ensures ok { OnOk result (self.new ≡ record self.old { prefix = Some prefix.now }) }
        ensures err { OnErr result (self.new ≡ self.old) }
    {
        let text = String::from_str(self.alloc, prefix)?;
        self.prefix = Some(text);
        Ok(())
    }

    /// Sets what may be open around the text at the place that it is put into.
    pub fn set_around(&mut self, around: Around)
        ensures { self.new ≡ record self.old { around = around } }
    {
        self.around = around;
    }

    /// Sets the maximal depth of elements. Browsers nest no element deeper than 512, including those around the text.
    pub fn set_depth(&mut self, depth: usize)
        ensures { self.new ≡ record self.old { depth = depth } }
    {
        self.depth = depth;
    }

    // The attribute is listed, for any element or for this one.
    fn lists(&self, element: &str, attribute: &str) -> bool
        ensures { result ≡ is_listed self.now element.now attribute.now }
    {
        self.attributes.has(attribute)
            || self.attribute_prefixes.begins(attribute)
            || any_keeps(self.attributes_of.as_slice(), element, attribute)
    }

    // The attribute holds a URL.
    fn holds_url(&self, attribute: &str) -> bool
        ensures { result ≡ holds_url self.now attribute.now }
    {
        is_url_name(attribute) || self.urls.has(attribute)
    }

    // A class is left, if the attribute has classes and each is left or dropped by itself.
    fn has_classes(&self, attribute: &str, value: &str) -> bool
        ensures { result ≡ has_classes self.now attribute.now value.now }
    {
        !value.is_empty() || attribute != "class" || self.classes.is_empty()
    }

    // The URL is relative, if that is allowed, or has a listed scheme, or begins with '#'.
    fn may_lead_to(&self, value: &str) -> bool
        ensures { result ≡ leads_well self.now.relative self.now.schemes value.now }
    {
        leads_well(value, self.relative, self.schemes.as_slice())
    }
}

impl Policy for AllowList {
    ghost rules = { table_rules };

    fn allows(&self, element: &str) -> bool {
        self.elements.has(element)
    }

    fn drops(&self, element: &str) -> bool {
        self.dropped.has(element)
    }

    fn keeps_attribute(&self, element: &str, attribute: &str, value: &str) -> bool {
        self.lists(element, attribute)
            && self.has_classes(attribute, value)
            && (!self.holds_url(attribute) || self.may_lead_to(value))
    }

    fn rel(&self) -> Option<&str> {
        match &self.rel {
            Some(rel) => Some(rel.as_str()),
            None => None,
        }
    }

    fn prefix(&self) -> Option<&str> {
        match &self.prefix {
            Some(prefix) => Some(prefix.as_str()),
            None => None,
        }
    }

    fn class_prefixes(&self) -> Option<&[String]> {
        if self.classes.is_empty() {
            None
        } else {
            Some(self.classes.as_slice())
        }
    }

    fn around(&self) -> Around {
        self.around
    }

    fn depth(&self) -> usize {
        self.depth
    }
}
