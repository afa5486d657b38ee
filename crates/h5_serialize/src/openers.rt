//! The open elements of a serializer.
ghost use Rattle.std.specs.Prelude.{◌≡◌, ◌==◌, ◌||◌, ◌∷◌, [], OnOk, OnErr, IfOk, length};
ghost use Rattle.h5_serialize.specs.Openers.{are_hidden, base_of, is_raw, plain, start_of, with_parent, without_last};

use super::names::{is_html, is_raw_name, is_void};
use super::options::TraversalScope;
use h5_names::QualName;
use std::alloc::{AllocError, Global};
use std::marker::Model;

/// The start tag of an open element, or the base entry. It has the flags that calls inside it need, and no name.
#[derive(Clone, Copy, Debug)]
pub struct Opener {
    /// True for a void element; tags inside it are omitted.
    pub is_void: bool,
    /// True if text directly inside is written unescaped.
    pub is_raw: bool,
}

impl Opener {
    /// An opener without flags, as is made for a call without a parent.
    pub fn plain() -> Opener
        ensures { result ≡ plain }
    {
        Opener {
            is_void: false,
            is_raw: false,
        }
    }

    /// The base entry of a scope: it counts as an HTML element with the scope's local name.
    pub fn base(scripting_enabled: bool, traversal_scope: &TraversalScope) -> Opener
        ensures { result ≡ base_of scripting_enabled traversal_scope.now }
    {
        match traversal_scope {
            TraversalScope::ChildrenOnly(Some(name)) => Opener {
                is_void: false,
                is_raw: is_raw_name(scripting_enabled, &name.local),
            },
            TraversalScope::ChildrenOnly(None) | TraversalScope::IncludeNode => Opener::plain(),
        }
    }

    /// The start tag of an element with this name.
    pub fn start(scripting_enabled: bool, name: &QualName) -> Opener
        ensures { result ≡ start_of scripting_enabled name.now }
    {
        Opener {
            is_void: is_void(name),
            is_raw: is_html(name) && is_raw_name(scripting_enabled, &name.local),
        }
    }
}

// Returns true if tags inside are omitted: the opener is void, or tags around it are omitted already.
fn is_hidden_inside(opener: Opener, around: bool) -> bool
    ensures { result ≡ opener.is_void || around }
{
    opener.is_void || around
}

/// An opener, and whether it or one around it is a void element.
#[derive(Clone, Copy, Debug)]
pub struct Entry {
    opener: Opener,
    is_hidden: bool,
}

/// The openers that no end tag has closed.
#[derive(Debug, Drop)]
pub struct Openers {
    // Innermost last.
    entries: Vec<Entry>,
}

impl Model for Openers {
    ghost use Rattle.std.specs.Prelude.{List, map, reverse};
    ghost use Rattle.h5_serialize.specs.declared.openers.Opener.{Opener};

    // Innermost first.
    ghost Value = { List Opener };

    ghost use Rattle.h5_serialize.specs.Entries.{openers_in, AreMarked};

    ghost view = { λ openers. openers_in openers.entries.items };

    ghost invariant = { λ openers. AreMarked openers.entries.items };
}

impl Openers {
    /// Returns this opener alone. Fails with `AllocError` if an allocation fails.
    pub fn new(alloc: Global, base: Opener) -> Result<Openers, AllocError>
        ensures { IfOk result (λ openers. openers ≡ base ∷ []) }
    {
        let mut openers = Openers {
            entries: Vec::new(alloc),
        };
        openers.push(base)?;
        Ok(openers)
    }

    /// Returns true if there is no opener.
    pub fn is_empty(&self) -> bool
        ensures { result ≡ (length self.now == 0) }
    {
        self.entries.is_empty()
    }

    /// Returns true if some opener is a void element.
    pub fn are_hidden(&self) -> bool
        ensures { result ≡ are_hidden self.now }
    {
        match self.entries.last() {
            Some(entry) => entry.is_hidden,
            None => false,
        }
    }

    /// Returns true if text directly inside the innermost opener is written unescaped.
    pub fn is_raw(&self) -> bool
        ensures { result ≡ is_raw self.now }
    {
        match self.entries.last() {
            Some(entry) => entry.opener.is_raw,
            None => false,
        }
    }

    /// Adds an innermost opener. Changes nothing if an allocation fails.
    #[inline(always)]
    pub fn push(&mut self, opener: Opener) -> Result<(), AllocError>
        ensures ok { OnOk result (self.new ≡ opener ∷ self.old) }
        ensures err { OnErr result (self.new ≡ self.old) }
    {
        let is_hidden = is_hidden_inside(opener, self.are_hidden());
        self.entries.push(Entry { opener, is_hidden })?;
        Ok(())
    }

    /// Adds an opener without flags if there is none. Changes nothing if an allocation fails.
    pub fn find_parent(&mut self) -> Result<(), AllocError>
        ensures ok { OnOk result (self.new ≡ with_parent self.old) }
        ensures err { OnErr result (self.new ≡ self.old) }
    {
        if self.is_empty() {
            return self.push(Opener::plain());
        }
        Ok(())
    }

    /// Removes the innermost opener, if any.
    #[inline(always)]
    pub fn pop(&mut self)
        ensures { self.new ≡ without_last self.old }
    {
        let _ = self.entries.pop();
    }
}
