//! The namespaces that HTML knows (Infra standard, section 8, "Namespaces"), as texts for
//! [`Namespace::new`](crate::Namespace::new).

/// No namespace, which most attributes have.
pub const NONE: &str = "";

/// HTML.
pub const HTML: &str = "http://www.w3.org/1999/xhtml";

/// MathML.
pub const MATHML: &str = "http://www.w3.org/1998/Math/MathML";

/// SVG.
pub const SVG: &str = "http://www.w3.org/2000/svg";

/// XLink.
pub const XLINK: &str = "http://www.w3.org/1999/xlink";

/// XML.
pub const XML: &str = "http://www.w3.org/XML/1998/namespace";

/// XMLNS.
pub const XMLNS: &str = "http://www.w3.org/2000/xmlns/";
