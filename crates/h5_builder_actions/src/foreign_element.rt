//! Inserts elements of SVG and MathML (HTML standard, section 13.2.6.1, "Creating and inserting nodes").
ghost use Rattle.std.specs.Prelude.{◌≡◌, IfOk, if◌then◌else◌, map};
ghost use Rattle.h5_names.specs.AttributeText.{attribute_texts, is_same_text};
ghost use Rattle.h5_tables.specs.TagSets.{mathml_namespace, svg_namespace};
ghost use Rattle.h5_tables.specs.AdjustedNames.{mathml_attributes, renamed, svg_attributes};
ghost use Rattle.h5_builder_actions.specs.ForeignInserts.{inserts_foreign_in};
ghost use Rattle.h5_builder_spec.specs.insertion.Foreign.{adjusted_attributes};
ghost use Rattle.h5_builder_spec.specs.Rows.{InsertAndPopForeignElement, InsertForeignElement};
ghost use Rattle.h5_builder_state.specs.Steps.{IsSound, MakesIfOk};
ghost use Rattle.h5_builder_state.specs.Turn.{TakesTag};

use super::place::current_place;
use super::put::{Notice, insert_new_element};
use h5_builder_state::{State, Turn, push_open};
use h5_interface::TreeSink;
use h5_names::{Attribute, Namespace, QualName};
use h5_tables::{
    ProcessResult, adjust_foreign_attributes, adjust_mathml_attributes, adjust_svg_attributes,
};
use h5_token::Tag;
use std::alloc::{AllocError, Global};

/// Inserts an element of this name at the place of insertion; it becomes the current node (HTML standard, section
/// 13.2.6.1, "insert a foreign element"). Fails with `AllocError` if an allocation fails.
#[tactic(auto, unfolding(h5_builder_state::specs::View::world, h5_builder_spec::specs::insertion::Foreign::insert_foreign_element))]
pub fn insert_foreign_element<S: TreeSink>(
    sink: &mut S,
    state: &mut State<S::Handle>,
    name: QualName,
    attrs: Vec<Attribute>,
    had_duplicate_attributes: bool,
) -> Result<(), AllocError>
    requires { IsSound S.TreeSink sink.old state.old }
    ensures { MakesIfOk S.TreeSink (InsertForeignElement name (attribute_texts attrs.items) had_duplicate_attributes) sink.old state.old sink.new state.new result }
{
    let place = current_place(sink, state);
    let handle = insert_new_element(
        sink,
        &place,
        name,
        attrs,
        had_duplicate_attributes,
        Notice::Nothing,
    )?;
    push_open(sink, state, handle)
}

/// Inserts an element of this name at the place of insertion, without pushing it. Fails with `AllocError` if an
/// allocation fails.
#[tactic(auto, unfolding(h5_builder_state::specs::View::world, h5_builder_spec::specs::insertion::Foreign::insert_and_pop_foreign_element))]
pub fn insert_and_pop_foreign_element<S: TreeSink>(
    sink: &mut S,
    state: &State<S::Handle>,
    name: QualName,
    attrs: Vec<Attribute>,
    had_duplicate_attributes: bool,
) -> Result<(), AllocError>
    requires { IsSound S.TreeSink sink.old state.now }
    ensures { MakesIfOk S.TreeSink (InsertAndPopForeignElement name (attribute_texts attrs.items) had_duplicate_attributes) sink.old state.now sink.new state.now result }
{
    let place = current_place(sink, state);
    insert_new_element(
        sink,
        &place,
        name,
        attrs,
        had_duplicate_attributes,
        Notice::Nothing,
    )?;
    Ok(())
}

// Adjusts the names of attributes for MathML or SVG.
#[tactic(auto, unfolding(h5_tables::specs::TagSets::mathml_namespace, h5_tables::specs::TagSets::svg_namespace))]
fn adjust_own_attributes(
    alloc: Global,
    namespace: &Namespace,
    attrs: Vec<Attribute>,
) -> Result<Vec<Attribute>, AllocError>
    ensures { IfOk result (λ adjusted. attribute_texts adjusted.items
        ≡ (if is_same_text namespace.now mathml_namespace then map (renamed mathml_attributes) (attribute_texts attrs.items)
        else (if is_same_text namespace.now svg_namespace then map (renamed svg_attributes) (attribute_texts attrs.items) else attribute_texts attrs.items))) }
{
    if namespace.is_mathml() {
        adjust_mathml_attributes(alloc, attrs)
    } else if namespace.is_svg() {
        adjust_svg_attributes(alloc, attrs)
    } else {
        Ok(attrs)
    }
}

// Adjusts the attributes of an element in a namespace: those of MathML or SVG, and then foreign ones.
#[tactic(auto, unfolding(h5_builder_spec::specs::insertion::Foreign::adjusted_attributes))]
fn adjust_attributes(
    alloc: Global,
    namespace: &Namespace,
    attrs: Vec<Attribute>,
) -> Result<Vec<Attribute>, AllocError>
    ensures { IfOk result (λ adjusted. attribute_texts adjusted.items ≡ adjusted_attributes namespace.now (attribute_texts attrs.items)) }
{
    let adjusted = adjust_own_attributes(alloc, namespace, attrs)?;
    adjust_foreign_attributes(alloc, adjusted)
}

/// Inserts an element for a tag, in a namespace, with adjusted attributes. It becomes the current node unless the tag
/// is self-closing. Fails with `AllocError` if an allocation fails.
pub fn insert_foreign_for<S: TreeSink>(
    sink: &mut S,
    state: &mut State<S::Handle>,
    namespace: Namespace,
    tag: Tag,
) -> Turn
    requires { IsSound S.TreeSink sink.old state.old }
    ensures { TakesTag S.TreeSink (inserts_foreign_in namespace) tag sink.old state.old sink.new state.new result }
{
    let had_duplicate_attributes = tag.had_duplicate_attributes;
    let attrs = adjust_attributes(state.alloc, &namespace, tag.attrs)?;
    let name = QualName::new(None, namespace, tag.name);
    if tag.self_closing {
        insert_and_pop_foreign_element(sink, state, name, attrs, had_duplicate_attributes)?;
        Ok(ProcessResult::DoneAckSelfClosing)
    } else {
        insert_foreign_element(sink, state, name, attrs, had_duplicate_attributes)?;
        Ok(ProcessResult::Done)
    }
}
