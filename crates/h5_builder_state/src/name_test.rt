//! Tests of the names of elements.
ghost use Rattle.std.specs.Prelude.{◌≡◌, ◌<◌, ◌+◌, Bool, false, length};
ghost use Rattle.h5_names.specs.declared.qualified.QualName.{QualName as NameText};
ghost use Rattle.h5_names.specs.KnownNames.{name_text};
ghost use Rattle.h5_tables.specs.TagSets.{is_html_named};
ghost use Rattle.h5_builder_spec.specs.insertion.Place.{is_foster_parent};
ghost use Rattle.h5_builder_spec.specs.stack.Scope.{first_passes, is_implied_but};
ghost use Rattle.h5_builder_spec.specs.World.{names_of};
ghost use Rattle.h5_builder_state.specs.Newest.{newest_where};
ghost use Rattle.h5_builder_state.specs.Steps.{IsSound, world_of};
ghost use Rattle.h5_builder_state.specs.View.{names_under};

use super::newest::{newest_among, newest_named};
use super::open_elems::{is_named, name_at, open_at};
use super::state::State;
use h5_interface::TreeSink;
use h5_names::{KnownName, LocalName, QualName};
use h5_tables::{cursory_implied_end, is_html_known, is_html_local};

/// A test of the name of an element.
pub trait NameTest {
    // The names that pass.
    ghost holds: { Self → NameText → Bool };

    /// Returns true if a name passes.
    fn test(&self, name: &QualName) -> bool
        ensures { result ≡ holds self.now name.now };

    /// Returns true if the name of the open element at a place passes. Gets the name from the sink only if the summary
    /// of the element doesn't decide.
    fn test_open<S: TreeSink>(&self, sink: &S, state: &State<S::Handle>, place: usize) -> bool
        requires place { place < length (world_of S.TreeSink sink.now state.now).stack }
        requires sound { IsSound S.TreeSink sink.now state.now }
        ensures { result ≡ first_passes (holds self.now) (names_under S.sees S.node sink.now state.now (place + 1)) }
    {
        self.test(name_at(sink, state, place))
    }
}

/// A test of names for which the place of the newest open element that passes is known without a walk.
pub trait NewestTest: NameTest {
    /// Returns one more than the place of the newest open element whose name passes, or 0 if none passes.
    fn newest<S: TreeSink>(&self, sink: &S, state: &State<S::Handle>) -> usize
        requires { IsSound S.TreeSink sink.now state.now }
        ensures { result ≡ newest_where (Self.holds self.now) (names_of (world_of S.TreeSink sink.now state.now)) };
}

/// An HTML element of this known name passes.
#[derive(Clone, Copy)]
pub struct Known(pub KnownName);

impl NameTest for Known {
    ghost holds = { λ t name. is_html_named (name_text t.0) name };

    fn test(&self, name: &QualName) -> bool {
        is_html_known(name, self.0)
    }
}

impl NewestTest for Known {
    fn newest<S: TreeSink>(&self, sink: &S, state: &State<S::Handle>) -> usize {
        newest_named(sink, state, &LocalName::from_known(self.0))
    }
}

/// An HTML element of this local name passes.
#[derive(Clone, Copy)]
pub struct Local<'a>(pub &'a LocalName);

impl NameTest for Local<'_> {
    ghost holds = { λ t name. is_html_named t.0.now name };

    fn test(&self, name: &QualName) -> bool {
        is_html_local(name, self.0)
    }

    // The number of its name is stored with an open element.
    fn test_open<S: TreeSink>(&self, sink: &S, state: &State<S::Handle>, place: usize) -> bool {
        is_named(sink, state, place, self.0)
    }
}

impl NewestTest for Local<'_> {
    fn newest<S: TreeSink>(&self, sink: &S, state: &State<S::Handle>) -> usize {
        newest_named(sink, state, self.0)
    }
}

/// An element with an implied end tag passes, unless it is an HTML element of this local name.
#[derive(Clone, Copy)]
pub struct ImpliedBut<'a>(pub &'a LocalName);

impl NameTest for ImpliedBut<'_> {
    ghost holds = { λ t name. is_implied_but t.0.now name };

    fn test(&self, name: &QualName) -> bool {
        cursory_implied_end(name) && !is_html_local(name, self.0)
    }

    fn test_open<S: TreeSink>(&self, sink: &S, state: &State<S::Handle>, place: usize) -> bool {
        open_at(sink, state, place).summary.implied && !is_named(sink, state, place, self.0)
    }
}

/// An element that decides where content is foster-parented passes.
#[derive(Clone, Copy)]
pub struct FosterParent;

impl NameTest for FosterParent {
    ghost holds = { λ t name. is_foster_parent name };

    fn test(&self, name: &QualName) -> bool {
        is_html_known(name, KnownName::Template) || is_html_known(name, KnownName::Table)
    }
}

impl NewestTest for FosterParent {
    fn newest<S: TreeSink>(&self, sink: &S, state: &State<S::Handle>) -> usize {
        newest_among(sink, state, &[KnownName::Template, KnownName::Table])
    }
}

/// No name passes.
#[derive(Clone, Copy)]
pub struct Nothing;

impl NameTest for Nothing {
    ghost holds = { λ t name. false };

    fn test(&self, _name: &QualName) -> bool {
        false
    }
}

impl NewestTest for Nothing {
    fn newest<S: TreeSink>(&self, _sink: &S, _state: &State<S::Handle>) -> usize {
        0
    }
}
