//! Prefixes of printed names, by their namespaces.
ghost use Rattle.std.specs.Prelude.{◌≡◌};
ghost use Rattle.h5_print.specs.Nodes.{attribute_prefix, element_prefix};

use h5_names::{Namespace, namespaces};

/// The text before the name of an element.
pub fn element_prefix(ns: &Namespace) -> &'static str
    ensures { result.now ≡ element_prefix ns.now }
{
    let ns = ns.as_str();
    if ns == namespaces::SVG {
        return "svg ";
    }
    if ns == namespaces::MATHML {
        return "math ";
    }
    ""
}

/// The text before the name of an attribute.
pub fn attribute_prefix(ns: &Namespace) -> &'static str
    ensures { result.now ≡ attribute_prefix ns.now }
{
    let ns = ns.as_str();
    if ns == namespaces::XLINK {
        return "xlink ";
    }
    if ns == namespaces::XML {
        return "xml ";
    }
    if ns == namespaces::XMLNS {
        return "xmlns ";
    }
    ""
}
