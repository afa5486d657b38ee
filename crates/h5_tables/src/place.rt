//! Prefixes and namespaces of adjusted attributes.
ghost use Rattle.std.specs.Prelude.{◌≡◌, IfOk, option_map};

use h5_names::{LocalName, Namespace, Prefix, QualName, namespaces};
use std::alloc::{AllocError, Global};

// A prefix and a namespace.
#[derive(Clone, Copy)]
pub enum Place {
    // No namespace.
    Unqualified,
    XLink,
    Xml,
    // The XMLNS namespace, with the empty prefix.
    Xmlns,
    // The XMLNS namespace, with the prefix `xmlns`.
    XmlnsPrefixed,
}

impl Place {
    ghost use Rattle.h5_tables.specs.AdjustedNames.{name_at, namespace_at, prefix_at};

    fn prefix(self) -> Option<&'static str>
        ensures { option_map (λ text. text.now) result ≡ prefix_at self }
    {
        match self {
            Place::Unqualified => None,
            Place::XLink => Some("xlink"),
            Place::Xml => Some("xml"),
            Place::Xmlns => Some(""),
            Place::XmlnsPrefixed => Some("xmlns"),
        }
    }

    fn namespace(self) -> &'static str
        ensures { result.now ≡ namespace_at self }
    {
        match self {
            Place::Unqualified => namespaces::NONE,
            Place::XLink => namespaces::XLINK,
            Place::Xml => namespaces::XML,
            Place::Xmlns | Place::XmlnsPrefixed => namespaces::XMLNS,
        }
    }

    // Returns the name with this prefix, this namespace and a local name. Fails with `AllocError` if an allocation fails.
    pub fn name(self, alloc: Global, local: &str) -> Result<QualName, AllocError>
        ensures { IfOk result (λ name. name ≡ name_at self local.now) }
    {
        let prefix = match self.prefix() {
            Some(prefix) => Some(Prefix::new(alloc, prefix)?),
            None => None,
        };
        Ok(QualName {
            prefix,
            ns: Namespace::new(alloc, self.namespace())?,
            local: LocalName::new(alloc, local)?,
        })
    }
}
