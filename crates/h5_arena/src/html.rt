//! A node as HTML (HTML standard, section 13.3, "Serializing HTML fragments").
ghost use Rattle.std.specs.Prelude.{◌≡◌, IfOk, string_bytes};
ghost use Rattle.std.specs.Option.{option_and_then};
ghost use Rattle.h5_interface.specs.Forest.{kind_of};
ghost use Rattle.h5_arena.specs.ArenaModel.{IsHeld, forest_seen, name_of_kind};
ghost use Rattle.h5_arena.specs.Html.{html_of, inner_html, outer_html};

use super::nodes::NodeId;
use super::tree::Arena;
use h5_names::QualName;
use h5_serialize::{SerializeFault, SerializeOpts, TraversalScope, serialize};
use std::alloc::AllocError;

// The HTML of a node, as bytes.
fn html_bytes(
    arena: &Arena,
    id: NodeId,
    traversal_scope: TraversalScope,
    scripting_enabled: bool,
) -> Result<Vec<u8>, SerializeFault>
    requires { IsHeld arena.now id }
    ensures { IfOk result (λ html. html.items ≡ html_of (forest_seen arena.now) id.index traversal_scope scripting_enabled) }
{
    let opts = SerializeOpts {
        scripting_enabled,
        traversal_scope,
        create_missing_parent: false,
    };
    let html = serialize(arena.alloc, Vec::new(arena.alloc), &arena.at(id), opts)?;
    Ok(html)
}

// The HTML of a node, as a text. Writing to a vector fails only if an allocation fails, and the HTML of texts is valid UTF-8.
fn html_text(
    arena: &Arena,
    id: NodeId,
    traversal_scope: TraversalScope,
    scripting_enabled: bool,
) -> Result<String, AllocError>
    requires { IsHeld arena.now id }
    ensures { IfOk result (λ html. string_bytes html ≡ html_of (forest_seen arena.now) id.index traversal_scope scripting_enabled) }
{
    match html_bytes(arena, id, traversal_scope, scripting_enabled) {
        Ok(bytes) => match String::from_utf8(bytes) {
            Ok(html) => Ok(html),
            Err(_) => Err(AllocError),
        },
        Err(_) => Err(AllocError),
    }
}

// A copy of the name of an element; `None` for any other node.
fn name_copy(arena: &Arena, id: NodeId) -> Result<Option<QualName>, AllocError>
    requires { IsHeld arena.now id }
    ensures { IfOk result (λ name. name ≡ option_and_then name_of_kind (kind_of (forest_seen arena.now) id.index)) }
{
    match arena.name(id) {
        Some(name) => {
            let copy = name.clone()?;
            Ok(Some(copy))
        }
        None => Ok(None),
    }
}

impl Arena {
    /// Returns the HTML of a node with its content; for a document or a fragment, of the content only; for a template, its contents are
    /// written as its content (HTML standard, section 13.3). `scripting_enabled` must be the option that the tree was parsed with, since a
    /// `noscript` parsed with scripting contains one text, which is written unescaped, and otherwise elements and texts. Fails with
    /// `AllocError` if an allocation fails. `id` must be a node of this arena.
    pub fn outer_html(&self, id: NodeId, scripting_enabled: bool) -> Result<String, AllocError>
        requires { IsHeld self.now id }
        ensures { IfOk result (λ html. string_bytes html ≡ outer_html (forest_seen self.now) id.index scripting_enabled) }
    {
        html_text(self, id, TraversalScope::IncludeNode, scripting_enabled)
    }

    /// Returns the HTML of the content of a node: texts directly inside elements such as `style` are unescaped, all others escaped. For a
    /// template, it is the content of its contents. `scripting_enabled` is that of `outer_html`. Fails with `AllocError` if an allocation
    /// fails. `id` must be a node of this arena.
    pub fn inner_html(&self, id: NodeId, scripting_enabled: bool) -> Result<String, AllocError>
        requires { IsHeld self.now id }
        ensures { IfOk result (λ html. string_bytes html ≡ inner_html (forest_seen self.now) id.index scripting_enabled) }
    {
        let name = name_copy(self, id)?;
        html_text(
            self,
            id,
            TraversalScope::ChildrenOnly(name),
            scripting_enabled,
        )
    }
}
