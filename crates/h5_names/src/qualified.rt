//! Qualified names, and attributes.
ghost use Rattle.std.specs.Prelude.{◌≡◌, IfOk};
ghost use Rattle.std.specs.String.{string_bytes};

use super::local_name::LocalName;
use super::name_prefix::Prefix;
use super::namespace_url::Namespace;
use std::alloc::AllocError;

/// A name with its prefix and its namespace (DOM standard: qualified name).
///
/// Equality and order are those of the texts: prefix, then namespace, then local name.
#[derive(Debug, Drop, PartialEq, Eq, PartialOrd, Ord, Hash)]
pub struct QualName {
    pub prefix: Option<Prefix>,
    pub ns: Namespace,
    pub local: LocalName,
}

impl QualName {
    /// Makes a name from its parts.
    pub fn new(prefix: Option<Prefix>, ns: Namespace, local: LocalName) -> QualName
        ensures { result ≡ record { prefix = prefix; ns = ns; local = local } }
    {
        QualName { prefix, ns, local }
    }

    /// The namespace and the local name, borrowed.
    pub fn expanded(&self) -> ExpandedName<'_>
        ensures ns { result.ns.now ≡ self.now.ns }
        ensures local { result.local.now ≡ self.now.local }
    {
        ExpandedName {
            ns: &self.ns,
            local: &self.local,
        }
    }

    /// Returns an equal name. Fails with `AllocError` if an allocation fails.
    #[inline(always)]
    pub fn clone(&self) -> Result<QualName, AllocError>
        ensures { IfOk result (λ name. name ≡ self.now) }
    {
        let prefix = match &self.prefix {
            Some(prefix) => Some(prefix.clone()?),
            None => None,
        };
        Ok(QualName {
            prefix,
            ns: self.ns.clone()?,
            local: self.local.clone()?,
        })
    }
}

/// A namespace and a local name. It identifies an element or an attribute where prefixes are ignored.
#[derive(Clone, Copy, Debug, PartialEq, Eq, PartialOrd, Ord, Hash)]
pub struct ExpandedName<'a> {
    pub ns: &'a Namespace,
    pub local: &'a LocalName,
}

/// An attribute of a tag or an element (DOM standard: attribute).
///
/// Equality and order are those of the texts: the name, then the value.
#[derive(Debug, Drop, PartialEq, Eq, PartialOrd, Ord, Hash)]
pub struct Attribute {
    pub name: QualName,
    pub value: String,
}

impl Attribute {
    ghost use Rattle.h5_names.specs.AttributeText.{attribute_text};

    /// Returns an attribute with an equal name and an equal value. Fails with `AllocError` if an allocation fails.
    pub fn clone(&self) -> Result<Attribute, AllocError>
        ensures { IfOk result (λ attribute. attribute_text attribute ≡ attribute_text self.now) }
    {
        Ok(Attribute {
            name: self.name.clone()?,
            value: self.value.clone()?,
        })
    }
}
