//! New elements, with the flags that follow from their names and attributes (HTML standard, section 13.2.6.1, create an element for a
//! token).
ghost use Rattle.std.specs.Prelude.{◌≡◌, ◌&&◌, ℕ, List, false, IfOk, OnOk, OnErr};
ghost use Rattle.std.specs.List.{list_any};
ghost use Rattle.h5_names.specs.AttributeText.{attribute_text, attribute_texts};
ghost use Rattle.h5_interface.specs.Forest.{IsElement};
ghost use Rattle.h5_interface.specs.NewElement.{flags_of, is_annotation_xml, is_expanded, is_html_encoding, is_html_template};
ghost use Rattle.h5_interface.specs.Seen.{after_create_element};

use super::marks::ElementFlags;
use super::sink::TreeSink;
use h5_names::{Attribute, KnownName, QualName, namespaces};
use std::alloc::AllocError;

/// Makes an element without a parent, and returns its handle. It is a template if its name is HTML's `template`. It is an HTML integration
/// point if its name is MathML's `annotation-xml`, and an attribute `encoding` without a namespace is an ASCII case-insensitive match for
/// `text/html` or `application/xhtml+xml`. Fails with `AllocError` if an allocation fails; then nothing that the sink shows has changed.
pub fn create_element<S: TreeSink>(
    sink: &mut S,
    name: QualName,
    attrs: Vec<Attribute>,
) -> Result<S::Handle, AllocError>
    ensures handle { IfOk result (λ handle. S.node handle ≡ S.choices.fresh (S.sees sink.old).forest) }
    ensures element { IfOk result (λ handle. IsElement (S.sees sink.new).forest (S.node handle)) }
    ensures ok { OnOk result
        (S.sees sink.new ≡ after_create_element S.choices name (attribute_texts attrs.items) (flags_of name (attribute_texts attrs.items) false) (S.sees sink.old)) }
    ensures err { OnErr result (S.sees sink.new ≡ S.sees sink.old) }
{
    create_element_with_flags(sink, name, attrs, false)
}

/// As `create_element`, but also takes the flag that says whether the tokenizer dropped a duplicate attribute of the tag.
#[inline(always)]
pub fn create_element_with_flags<S: TreeSink>(
    sink: &mut S,
    name: QualName,
    attrs: Vec<Attribute>,
    had_duplicate_attributes: bool,
) -> Result<S::Handle, AllocError>
    ensures handle { IfOk result (λ handle. S.node handle ≡ S.choices.fresh (S.sees sink.old).forest) }
    ensures element { IfOk result (λ handle. IsElement (S.sees sink.new).forest (S.node handle)) }
    ensures ok { OnOk result
        (S.sees sink.new ≡ after_create_element S.choices name (attribute_texts attrs.items) (flags_of name (attribute_texts attrs.items) had_duplicate_attributes) (S.sees sink.old)) }
    ensures err { OnErr result (S.sees sink.new ≡ S.sees sink.old) }
{
    let _document = sink.get_document();
    let flags = flags_for(&name, attrs.as_slice(), had_duplicate_attributes);
    sink.create_element(name, attrs, flags)
}

#[inline(always)]
fn flags_for(name: &QualName, attrs: &[Attribute], had_duplicate_attributes: bool) -> ElementFlags
    ensures { result ≡ flags_of name.now (attribute_texts attrs.now) had_duplicate_attributes }
{
    ElementFlags {
        template: is_template(name),
        mathml_annotation_xml_integration_point: is_holder_of_html(name, attrs),
        had_duplicate_attributes,
    }
}

// Returns true for an `annotation-xml` whose `encoding` names HTML.
#[tactic(auto, using(crate::proofs::ElementLemmas::any_of_texts))]
#[inline(always)]
fn is_holder_of_html(name: &QualName, attrs: &[Attribute]) -> bool
    ensures { result ≡ (is_annotation_xml name.now && list_any is_html_encoding (attribute_texts attrs.now)) }
{
    is_annotation(name) && has_html_encoding(attrs)
}

#[inline(always)]
fn is_template(name: &QualName) -> bool
    ensures { result ≡ is_html_template name.now }
{
    name.ns.is_html() && name.local.is(KnownName::Template)
}

#[inline(always)]
fn is_annotation(name: &QualName) -> bool
    ensures { result ≡ is_annotation_xml name.now }
{
    name.ns.is_mathml() && name.local.is(KnownName::AnnotationXml)
}

fn has_html_encoding(attrs: &[Attribute]) -> bool
    ensures { result ≡ list_any (λ a. is_html_encoding (attribute_text a)) attrs.now }
{
    attrs.iter().any(|attribute| names_html(attribute))
}

// Returns true for an `encoding` that names HTML.
fn names_html(attribute: &Attribute) -> bool
    ensures { result ≡ is_html_encoding (attribute_text attribute.now) }
{
    let name = &attribute.name;
    let is_encoding = name.ns.as_str() == namespaces::NONE && name.local.as_str() == "encoding";
    is_encoding && is_html_type(attribute.value.as_str())
}

ghost use Rattle.std.specs.Prelude.{◌||◌, codes};
ghost use Rattle.std.specs.Str.{str_eq_ignore_ascii_case};

fn is_html_type(value: &str) -> bool
    ensures { result ≡ (str_eq_ignore_ascii_case value.now (codes "text/html")
        || str_eq_ignore_ascii_case value.now (codes "application/xhtml+xml")) }
{
    value.eq_ignore_ascii_case("text/html") || value.eq_ignore_ascii_case("application/xhtml+xml")
}
