//! Prefixes.
ghost use Rattle.std.specs.Prelude.{◌≡◌, IfOk, Some, nat_eq, refl};
ghost use Rattle.std.specs.Cmp.{partial_equiv_from_equiv};
ghost use Rattle.std.specs.Cmp.Lexicographic.{pointwise, slice_cmp, nat_list_eq_equiv, nat_list_cmp_total, texts_ties, texts_po};
ghost use Rattle.std.specs.Cmp.Rules.{hashing};
ghost use Rattle.std.specs.Hash as fed;
ghost use Rattle.std.specs.Ordering.{nat_cmp};
ghost use Rattle.std.proofs.Common.{rules};

use std::alloc::{AllocError, Global};
use std::cmp::Ordering;
use std::hash::{Hash, Hasher};
use std::marker::Model;

/// The part of a name before the colon (DOM standard: namespace prefix).
#[derive(Debug, Drop)]
pub struct Prefix {
    // Boxed, since few names have a prefix: it takes the size of a pointer.
    text: Box<String>,
}

impl Model for Prefix {
    ghost use Rattle.std.specs.Prelude.{List, ℕ};
    ghost use Rattle.std.specs.String.{string_bytes};

    ghost Value = { List ℕ };

    ghost view = { λ name. string_bytes name.text.value };
}

impl Prefix {
    /// Returns the prefix with this text. Fails with `AllocError` if an allocation fails.
    pub fn new(alloc: Global, text: &str) -> Result<Prefix, AllocError>
        ensures { IfOk result (λ name. name ≡ text.now) }
    {
        Ok(Prefix {
            text: Box::new(alloc, String::from_str(alloc, text)?)?,
        })
    }

    /// The text of the prefix.
    pub fn as_str(&self) -> &str
        ensures { result.now ≡ self.now }
    {
        self.text.as_str()
    }

    /// Returns an equal prefix. Fails with `AllocError` if an allocation fails.
    pub fn clone(&self) -> Result<Prefix, AllocError>
        ensures { IfOk result (λ name. name ≡ self.now) }
    {
        Ok(Prefix {
            text: self.text.clone()?,
        })
    }
}

impl PartialEq for Prefix {
    ghost eq = { pointwise nat_eq };

    ghost laws = { partial_equiv_from_equiv nat_list_eq_equiv };

    fn eq(&self, other: &Prefix) -> bool {
        self.as_str() == other.as_str()
    }
}

impl Eq for Prefix {
    ghost laws = { nat_list_eq_equiv };
}

impl PartialOrd for Prefix {
    ghost partial_cmp = { λ x y. Some (slice_cmp nat_cmp x y) };

    ghost laws = { texts_po };

    fn partial_cmp(&self, other: &Prefix) -> Option<Ordering> {
        Some(self.cmp(other))
    }
}

impl Ord for Prefix {
    ghost cmp = { slice_cmp nat_cmp };

    ghost total = { nat_list_cmp_total };

    ghost matches_partial_cmp = { λ x y. refl };

    ghost matches_eq = { texts_ties };

    fn cmp(&self, other: &Prefix) -> Ordering {
        self.as_str().cmp(other.as_str())
    }
}

impl Hash for Prefix {
    ghost hash_input = { fed.str };

    ghost respects_eq = { Prim.search (hashing, rules) };

    fn hash<H: Hasher>(&self, state: &mut H) {
        self.as_str().hash(state);
    }
}
