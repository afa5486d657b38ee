//! A caller over any sink: it builds a small tree.
ghost use Rattle.std.specs.Prelude.{◌≡◌, ◌≢◌, [], IfOk, string_bytes};
ghost use Rattle.h5_names.specs.AttributeText.{attribute_texts};
ghost use Rattle.h5_interface.specs.SmallTree.{IsSmallTree};

use super::marks::ElementFlags;
use super::sink::{NodeOrText, TreeSink};
use h5_names::{Attribute, QualName};
use std::alloc::AllocError;

/// Appends a new element with a text and a comment to the document, and returns its handle. Changes nothing else in the forest. Fails with
/// `AllocError` if an allocation fails; then the forest may have a part of the tree. `text` must not be empty.
pub fn build_small_tree<S: TreeSink>(
    sink: &mut S,
    name: QualName,
    attrs: Vec<Attribute>,
    text: String,
    comment: String,
) -> Result<S::Handle, AllocError>
    requires { string_bytes text ≢ [] }
    ensures { IfOk result (λ root. IsSmallTree (S.sees sink.old).forest (S.sees sink.new).forest (S.node root) name (attribute_texts attrs.items) (string_bytes text) (string_bytes comment)) }
{
    let document = sink.get_document();
    let flags = ElementFlags {
        template: false,
        mathml_annotation_xml_integration_point: false,
        had_duplicate_attributes: false,
    };
    let root = sink.create_element(name, attrs, flags)?;
    sink.append(&root, NodeOrText::AppendText(text))?;
    let note = sink.create_comment(comment)?;
    sink.append(&root, NodeOrText::AppendNode(note))?;
    let same_root = sink.clone_handle(&root);
    sink.append(&document, NodeOrText::AppendNode(same_root))?;
    Ok(root)
}
