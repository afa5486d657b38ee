//! Local names.
ghost use Rattle.std.specs.Prelude.{◌≡◌, ◌≢◌, IfOk, IsOk, Some, nat_eq, refl, string_bytes};
ghost use Rattle.std.specs.Cmp.{partial_equiv_from_equiv};
ghost use Rattle.std.specs.Cmp.Lexicographic.{pointwise, slice_cmp, nat_list_eq_equiv, nat_list_cmp_total, texts_ties, texts_po};
ghost use Rattle.std.specs.Cmp.Rules.{hashing};
ghost use Rattle.std.specs.Hash as fed;
ghost use Rattle.std.specs.Ordering.{nat_cmp};
ghost use Rattle.std.proofs.Common.{rules};
ghost use Rattle.h5_names.specs.AttributeText.{is_same_text};
ghost use Rattle.h5_names.specs.KnownNames.{known_name_of, name_text};

use super::KnownName;
use std::alloc::{AllocError, Global};
use std::cmp::Ordering;
use std::hash::{Hash, Hasher};
use std::marker::Model;
use std::sync::Arc;

// The storage of a local name: the number of a known name, or any other text, which clones share.
#[derive(Debug, Drop)]
enum Kept {
    Known(KnownName),
    Text(Arc<String>),
}

/// The name of an element or an attribute, without its prefix (DOM standard: local name).
///
/// A name that HTML knows takes no memory.
#[derive(Debug, Drop)]
pub struct LocalName {
    kept: Kept,
}

impl Model for LocalName {
    ghost use Rattle.std.specs.Prelude.{List, ℕ};
    ghost use Rattle.h5_names.specs.Kept.{kept_text, IsKeptWell};

    ghost Value = { List ℕ };

    ghost view = { λ name. kept_text name.kept };

    ghost invariant = { λ name. IsKeptWell name.kept };
}

impl LocalName {
    // The local name with this text, which HTML must not know.
    fn from_unknown(text: String) -> Result<LocalName, AllocError>
        requires { known_name_of (string_bytes text) ≡ KnownName.Other }
        ensures { IfOk result (λ name. name ≡ string_bytes text) }
    {
        let alloc = *text.allocator();
        Ok(LocalName {
            kept: Kept::Text(Arc::new(alloc, text)?),
        })
    }

    /// Returns the local name with this text. Fails with `AllocError` if an allocation fails; a text that HTML knows needs none.
    pub fn new(alloc: Global, text: &str) -> Result<LocalName, AllocError>
        ensures value { IfOk result (λ name. name ≡ text.now) }
        ensures free { known_name_of text.now ≢ KnownName.Other → IsOk result }
    {
        match KnownName::from_text(text) {
            KnownName::Other => LocalName::from_unknown(String::from_str(alloc, text)?),
            known => Ok(LocalName::from_known(known)),
        }
    }

    /// Returns the local name with this text, which is moved. Fails with `AllocError` if an allocation fails; a text that HTML knows needs
    /// none.
    pub fn from_string(text: String) -> Result<LocalName, AllocError>
        ensures value { IfOk result (λ name. name ≡ string_bytes text) }
        ensures free { known_name_of (string_bytes text) ≢ KnownName.Other → IsOk result }
    {
        match KnownName::from_text(text.as_str()) {
            KnownName::Other => LocalName::from_unknown(text),
            known => Ok(LocalName::from_known(known)),
        }
    }

    /// The local name of a known name, without an allocation. That of `Other` is empty.
    pub fn from_known(known: KnownName) -> LocalName
        ensures { result ≡ name_text known }
    {
        LocalName {
            kept: Kept::Known(known),
        }
    }

    /// The text of the local name.
    pub fn as_str(&self) -> &str
        ensures { result.now ≡ self.now }
    {
        match &self.kept {
            Kept::Known(known) => known.as_str(),
            Kept::Text(text) => text.as_str(),
        }
    }

    /// Returns the known name with this text, or `Other`. Doesn't read the text.
    pub fn known(&self) -> KnownName
        ensures { result ≡ known_name_of self.now }
    {
        match &self.kept {
            Kept::Known(known) => *known,
            Kept::Text(_) => KnownName::Other,
        }
    }

    /// Returns true if the text is that of the known name, which is empty for `Other`. Reads the text only for `Other`.
    pub fn is(&self, known: KnownName) -> bool
        ensures { result ≡ is_same_text self.now (name_text known) }
    {
        if self.known() != known {
            return false;
        }
        known != KnownName::Other || self.as_str() == known.as_str()
    }

    /// Returns an equal local name, which shares the text. Fails with `AllocError` if the text has too many sharers; for a name that HTML
    /// knows, it succeeds.
    #[inline(always)]
    pub fn clone(&self) -> Result<LocalName, AllocError>
        ensures value { IfOk result (λ name. name ≡ self.now) }
        ensures free { known_name_of self.now ≢ KnownName.Other → IsOk result }
    {
        match &self.kept {
            Kept::Known(known) => Ok(LocalName {
                kept: Kept::Known(*known),
            }),
            Kept::Text(text) => Ok(LocalName {
                kept: Kept::Text(text.clone()?),
            }),
        }
    }
}

impl PartialEq for LocalName {
    ghost eq = { pointwise nat_eq };

    ghost laws = { partial_equiv_from_equiv nat_list_eq_equiv };

    fn eq(&self, other: &LocalName) -> bool {
        let (known, other_known) = (self.known(), other.known());
        if known != other_known {
            return false;
        }
        known != KnownName::Other || self.as_str() == other.as_str()
    }
}

impl Eq for LocalName {
    ghost laws = { nat_list_eq_equiv };
}

impl PartialOrd for LocalName {
    ghost partial_cmp = { λ x y. Some (slice_cmp nat_cmp x y) };

    ghost laws = { texts_po };

    fn partial_cmp(&self, other: &LocalName) -> Option<Ordering> {
        Some(self.cmp(other))
    }
}

impl Ord for LocalName {
    ghost cmp = { slice_cmp nat_cmp };

    ghost total = { nat_list_cmp_total };

    ghost matches_partial_cmp = { λ x y. refl };

    ghost matches_eq = { texts_ties };

    fn cmp(&self, other: &LocalName) -> Ordering {
        self.as_str().cmp(other.as_str())
    }
}

impl Hash for LocalName {
    ghost hash_input = { fed.str };

    ghost respects_eq = { Prim.search (hashing, rules) };

    fn hash<H: Hasher>(&self, state: &mut H) {
        self.as_str().hash(state);
    }
}
