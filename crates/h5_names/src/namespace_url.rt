//! Namespaces.
ghost use Rattle.std.specs.Prelude.{◌≡◌, [], IfOk, IsOk, IsTrue, Some, bytes_eq, is_some, nat_eq, refl};
ghost use Rattle.std.specs.Cmp.{partial_equiv_from_equiv};
ghost use Rattle.std.specs.Cmp.Lexicographic.{pointwise, slice_cmp, nat_list_eq_equiv, nat_list_cmp_total, texts_ties, texts_po};
ghost use Rattle.std.specs.Cmp.Rules.{hashing};
ghost use Rattle.std.specs.Hash as fed;
ghost use Rattle.std.specs.Ordering.{nat_cmp};
ghost use Rattle.std.proofs.Common.{rules};
ghost use Rattle.h5_names.specs.AttributeText.{is_same_text};
ghost use Rattle.h5_names.specs.Urls.{found_url, known_text, html_text, mathml_text, svg_text};

use super::namespaces;
use std::alloc::{AllocError, Global};
use std::cmp::Ordering;
use std::hash::{Hash, Hasher};
use std::marker::Model;

// The namespaces that HTML knows.
#[derive(Clone, Copy, Debug, PartialEq, Eq)]
enum Known {
    NoNamespace,
    Html,
    MathMl,
    Svg,
    XLink,
    Xml,
    Xmlns,
}

impl Known {
    fn as_str(self) -> &'static str
        ensures { result.now ≡ known_text self }
    {
        match self {
            Known::NoNamespace => namespaces::NONE,
            Known::Html => namespaces::HTML,
            Known::MathMl => namespaces::MATHML,
            Known::Svg => namespaces::SVG,
            Known::XLink => namespaces::XLINK,
            Known::Xml => namespaces::XML,
            Known::Xmlns => namespaces::XMLNS,
        }
    }
}

// The known namespace with this text.
fn find_known(text: &str) -> Option<Known>
    ensures { result ≡ found_url text.now }
{
    match text {
        namespaces::NONE => Some(Known::NoNamespace),
        namespaces::HTML => Some(Known::Html),
        namespaces::MATHML => Some(Known::MathMl),
        namespaces::SVG => Some(Known::Svg),
        namespaces::XLINK => Some(Known::XLink),
        namespaces::XML => Some(Known::Xml),
        namespaces::XMLNS => Some(Known::Xmlns),
        _ => None,
    }
}

// Returns true if the texts of two known namespaces are equal. Doesn't read the texts.
#[tactic(auto, using(crate::proofs::UrlLemmas::same_by_number))]
fn are_same(one: Known, another: Known) -> bool
    ensures { result ≡ bytes_eq (known_text one) (known_text another) }
{
    one == another
}

// The storage of a namespace: one that HTML knows, or a text. The text is boxed, so that it takes the size of a pointer: in trees of HTML
// all namespaces are known.
#[derive(Debug, Drop)]
enum Url {
    Known(Known),
    Other(Box<String>),
}

/// The namespace of a name, by its URL (DOM standard: namespace). An empty text means that there is no namespace.
///
/// The namespaces that HTML knows take no memory.
#[derive(Debug, Drop)]
pub struct Namespace {
    url: Url,
}

impl Model for Namespace {
    ghost use Rattle.std.specs.Prelude.{List, ℕ};
    ghost use Rattle.h5_names.specs.Urls.{url_text, IsUrlKeptWell};

    ghost Value = { List ℕ };

    ghost view = { λ name. url_text name.url };

    ghost invariant = { λ name. IsUrlKeptWell name.url };
}

impl Namespace {
    /// Returns the namespace with this text. Fails with `AllocError` if an allocation fails; a namespace that HTML knows needs none.
    pub fn new(alloc: Global, text: &str) -> Result<Namespace, AllocError>
        ensures value { IfOk result (λ name. name ≡ text.now) }
        ensures free { IsTrue (is_some (found_url text.now)) → IsOk result }
    {
        match find_known(text) {
            Some(url) => Ok(Namespace {
                url: Url::Known(url),
            }),
            None => Ok(Namespace {
                url: Url::Other(Box::new(alloc, String::from_str(alloc, text)?)?),
            }),
        }
    }

    /// No namespace. Doesn't allocate.
    pub fn none() -> Namespace
        ensures { result ≡ [] }
    {
        Namespace {
            url: Url::Known(Known::NoNamespace),
        }
    }

    /// The HTML namespace. Doesn't allocate.
    pub fn html() -> Namespace
        ensures { result ≡ html_text }
    {
        Namespace {
            url: Url::Known(Known::Html),
        }
    }

    /// The text of the namespace.
    pub fn as_str(&self) -> &str
        ensures { result.now ≡ self.now }
    {
        match &self.url {
            Url::Known(url) => url.as_str(),
            Url::Other(text) => text.as_str(),
        }
    }

    /// Returns true for the HTML namespace. Doesn't read the text.
    pub fn is_html(&self) -> bool
        ensures { result ≡ is_same_text self.now html_text }
    {
        matches!(self.url, Url::Known(Known::Html))
    }

    /// Returns true for the MathML namespace. Doesn't read the text.
    pub fn is_mathml(&self) -> bool
        ensures { result ≡ is_same_text self.now mathml_text }
    {
        matches!(self.url, Url::Known(Known::MathMl))
    }

    /// Returns true for the SVG namespace. Doesn't read the text.
    pub fn is_svg(&self) -> bool
        ensures { result ≡ is_same_text self.now svg_text }
    {
        matches!(self.url, Url::Known(Known::Svg))
    }

    /// Returns an equal namespace. Fails with `AllocError` if an allocation fails; a namespace that HTML knows needs none.
    #[inline(always)]
    pub fn clone(&self) -> Result<Namespace, AllocError>
        ensures value { IfOk result (λ name. name ≡ self.now) }
        ensures free { IsTrue (is_some (found_url self.now)) → IsOk result }
    {
        match &self.url {
            Url::Known(url) => Ok(Namespace {
                url: Url::Known(*url),
            }),
            Url::Other(text) => Ok(Namespace {
                url: Url::Other(text.clone()?),
            }),
        }
    }
}

impl PartialEq for Namespace {
    ghost eq = { pointwise nat_eq };

    ghost laws = { partial_equiv_from_equiv nat_list_eq_equiv };

    fn eq(&self, other: &Namespace) -> bool {
        match (&self.url, &other.url) {
            (Url::Known(one), Url::Known(another)) => are_same(*one, *another),
            _ => self.as_str() == other.as_str(),
        }
    }
}

impl Eq for Namespace {
    ghost laws = { nat_list_eq_equiv };
}

impl PartialOrd for Namespace {
    ghost partial_cmp = { λ x y. Some (slice_cmp nat_cmp x y) };

    ghost laws = { texts_po };

    fn partial_cmp(&self, other: &Namespace) -> Option<Ordering> {
        Some(self.cmp(other))
    }
}

impl Ord for Namespace {
    ghost cmp = { slice_cmp nat_cmp };

    ghost total = { nat_list_cmp_total };

    ghost matches_partial_cmp = { λ x y. refl };

    ghost matches_eq = { texts_ties };

    fn cmp(&self, other: &Namespace) -> Ordering {
        self.as_str().cmp(other.as_str())
    }
}

impl Hash for Namespace {
    ghost hash_input = { fed.str };

    ghost respects_eq = { Prim.search (hashing, rules) };

    fn hash<H: Hasher>(&self, state: &mut H) {
        self.as_str().hash(state);
    }
}
