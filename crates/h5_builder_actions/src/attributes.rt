//! Attributes that are added if they are missing (HTML standard, section 13.2.6.4.7, start tags "html" and "body").
ghost use Rattle.h5_names.specs.AttributeText.{attribute_texts};
ghost use Rattle.h5_builder_spec.specs.Rows.{AddAttrsToHtml, AddAttrsToSecond};
ghost use Rattle.h5_builder_state.specs.Steps.{IsOpen, IsSound, MakesIfOk};

use h5_builder_state::State;
use h5_interface::TreeSink;
use h5_names::Attribute;
use std::alloc::AllocError;

/// Adds the attributes that the root doesn't have. Fails with `AllocError` if an allocation fails.
#[tactic(auto, unfolding(h5_builder_state::specs::View::world, h5_builder_spec::specs::Changes::add_attrs_to_html))]
pub fn add_attrs_to_html<S: TreeSink>(
    sink: &mut S,
    state: &State<S::Handle>,
    attrs: Vec<Attribute>,
) -> Result<(), AllocError>
    requires { IsOpen S.TreeSink sink.old state.now }
    ensures { MakesIfOk S.TreeSink (AddAttrsToHtml (attribute_texts attrs.items)) sink.old state.now sink.new state.now result }
{
    sink.add_attrs_if_missing(&state.open_elems.elements.get(0).handle, attrs)
}

/// Adds the attributes that the second open element, from the root on, doesn't have, if there is one. Fails with
/// `AllocError` if an allocation fails.
#[tactic(auto, unfolding(h5_builder_state::specs::View::world, h5_builder_spec::specs::Changes::add_attrs_to_second))]
pub fn add_attrs_to_second<S: TreeSink>(
    sink: &mut S,
    state: &State<S::Handle>,
    attrs: Vec<Attribute>,
) -> Result<(), AllocError>
    requires { IsSound S.TreeSink sink.old state.now }
    ensures { MakesIfOk S.TreeSink (AddAttrsToSecond (attribute_texts attrs.items)) sink.old state.now sink.new state.now result }
{
    if state.open_elems.elements.len() > 1 {
        sink.add_attrs_if_missing(&state.open_elems.elements.get(1).handle, attrs)
    } else {
        Ok(())
    }
}
