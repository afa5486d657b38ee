//! Adjusts the names of attributes in SVG and MathML.
ghost use Rattle.std.specs.Prelude.{◌≡◌, IfOk, map};
ghost use Rattle.h5_names.specs.AttributeText.{attribute_text, attribute_texts};
ghost use Rattle.h5_tables.specs.AdjustedNames.{foreign_attributes, mathml_attributes, renamed, svg_attributes};
ghost use Rattle.h5_tables.specs.Tables.{names_in};

use super::attribute_names::{FOREIGN_ATTRIBUTES, MATHML_ATTRIBUTES, SVG_ATTRIBUTES};
use super::place::Place;
use super::table::find;
use h5_names::Attribute;
use std::alloc::{AllocError, Global};

// Gives an attribute its name in a table, if the table has one.
fn rename(
    alloc: Global,
    table: &[(&'static str, (Place, &'static str))],
    attribute: &mut Attribute,
) -> Result<(), AllocError>
    ensures { IfOk result (λ _. attribute_text attribute.new
        ≡ renamed (names_in table.now) (attribute_text attribute.old)) }
{
    if let Some((place, local)) = find(table, attribute.name.local.as_str()) {
        attribute.name = place.name(alloc, local)?;
    }
    Ok(())
}

// Renames each of these attributes.
fn rename_all(
    alloc: Global,
    table: &[(&'static str, (Place, &'static str))],
    mut attrs: Vec<Attribute>,
) -> Result<Vec<Attribute>, AllocError>
    ensures { IfOk result (λ adjusted. attribute_texts adjusted.items
        ≡ map (renamed (names_in table.now)) (attribute_texts attrs.items)) }
{
    for attribute in attrs.iter_mut() {
        rename(alloc, table, attribute)?;
    }
    Ok(attrs)
}

/// Returns the attributes of an SVG element with adjusted names, such as `viewBox` for `viewbox`. Other attributes are unchanged. Fails
/// with `AllocError` if an allocation fails; the attributes are dropped then (HTML standard, section 13.2.6.1, "adjust SVG attributes").
pub fn adjust_svg_attributes(
    alloc: Global,
    attrs: Vec<Attribute>,
) -> Result<Vec<Attribute>, AllocError>
    ensures { IfOk result (λ adjusted. attribute_texts adjusted.items
        ≡ map (renamed svg_attributes) (attribute_texts attrs.items)) }
{
    rename_all(alloc, &SVG_ATTRIBUTES, attrs)
}

/// Returns the attributes of a MathML element with `definitionURL` for `definitionurl`. Other attributes are unchanged. Fails with
/// `AllocError` if an allocation fails; the attributes are dropped then (HTML standard, section 13.2.6.1, "adjust MathML attributes").
pub fn adjust_mathml_attributes(
    alloc: Global,
    attrs: Vec<Attribute>,
) -> Result<Vec<Attribute>, AllocError>
    ensures { IfOk result (λ adjusted. attribute_texts adjusted.items
        ≡ map (renamed mathml_attributes) (attribute_texts attrs.items)) }
{
    rename_all(alloc, &MATHML_ATTRIBUTES, attrs)
}

/// Returns the attributes of an SVG or MathML element with those of XLink, XML and XMLNS in their namespaces. Other attributes are
/// unchanged. Fails with `AllocError` if an allocation fails; the attributes are dropped then (HTML standard, section 13.2.6.1, "adjust
/// foreign attributes").
pub fn adjust_foreign_attributes(
    alloc: Global,
    attrs: Vec<Attribute>,
) -> Result<Vec<Attribute>, AllocError>
    ensures { IfOk result (λ adjusted. attribute_texts adjusted.items
        ≡ map (renamed foreign_attributes) (attribute_texts attrs.items)) }
{
    rename_all(alloc, &FOREIGN_ATTRIBUTES, attrs)
}
