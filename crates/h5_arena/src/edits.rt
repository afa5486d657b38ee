//! The calls that edit a tree.
ghost use Rattle.std.specs.Prelude.{◌≡◌, ◌≢◌, ◌≤◌, ℕ, Bool, IfErr, IfOk, List, None, OnErr, OnOk, Some, is_some, length};
ghost use Rattle.h5_interface.specs.Forest.{DocumentNode, IsElement, IsNode, attrs_of, children_of, kind_of, parent_of};
ghost use Rattle.h5_interface.specs.Seen.{CanAppend, CanInsertBefore, after_append, after_append_before, changed, child_of};
ghost use Rattle.h5_arena.specs.ArenaModel.{IsHeld, IsNoChild, KeepsErrors, forest_seen, place, seen_of, value_of};
ghost use Rattle.h5_arena.specs.Copy.{AreBelowFirst, IsCopyOf, KeepsFromCopy};
ghost use Rattle.h5_arena.specs.Edits.{KeepsFromAppend, KeepsFromInsert, edit_attrs, take_out, text_alone, with_text, with_value, without_named};
ghost use Rattle.h5_arena.specs.Html.{outer_html};
ghost use Rattle.h5_arena.specs.declared.fault.EditError.TheVariants.{Memory};

use super::fault::EditError;
use super::nodes::{Kind, NodeId};
use super::tree::Arena;
use super::{copies, edit_attributes, edit_text, links, standing};
use h5_interface::{NodeOrText, TreeSink};
use std::alloc::AllocError;

impl Arena {
    /// Sets an attribute of an element: the first one with this local name and no namespace. If there is none, adds one at the end. Changes
    /// nothing else. Fails with `AllocError` if an allocation fails; then the arena is unchanged. `id` must be an element.
    pub fn set_attr(&mut self, id: NodeId, name: &str, value: &str) -> Result<(), AllocError>
        requires { IsElement (forest_seen self.old) id.index }
        ensures ok { OnOk result
            (seen_of self.new ≡ changed (edit_attrs id.index (with_value name.now value.now)) (seen_of self.old)) }
        ensures value { OnOk result (value_of name.now (attrs_of (forest_seen self.new) id.index) ≡ Some value.now) }
        ensures others { (other : List ℕ) → other ≢ name.now →
            value_of other (attrs_of (forest_seen self.new) id.index) ≡ value_of other (attrs_of (forest_seen self.old) id.index) }
        ensures err { OnErr result (self.new ≡ self.old) }
        ensures errors { KeepsErrors self.old self.new }
        ensures held { length self.new.nodes ≡ length self.old.nodes }
        ensures elements { (n : ℕ) → IsElement (forest_seen self.old) n → IsElement (forest_seen self.new) n }
    {
        self.names.forget(id.index);
        edit_attributes::set_attr(&mut self.nodes, id, name, value)?;
        Ok(())
    }

    /// Removes all attributes with this local name and no namespace from a node, and returns true if there was one. Changes nothing else.
    /// Doesn't allocate. `id` must be a node of this arena.
    pub fn remove_attr(&mut self, id: NodeId, name: &str) -> bool
        requires { IsHeld self.old id }
        ensures changed { seen_of self.new ≡ changed (edit_attrs id.index (without_named name.now)) (seen_of self.old) }
        ensures none { value_of name.now (attrs_of (forest_seen self.new) id.index) ≡ None }
        ensures others { (other : List ℕ) → other ≢ name.now →
            value_of other (attrs_of (forest_seen self.new) id.index) ≡ value_of other (attrs_of (forest_seen self.old) id.index) }
        ensures had { result ≡ is_some (value_of name.now (attrs_of (forest_seen self.old) id.index)) }
        ensures errors { KeepsErrors self.old self.new }
        ensures held { length self.new.nodes ≡ length self.old.nodes }
        ensures elements { (n : ℕ) → IsElement (forest_seen self.old) n → IsElement (forest_seen self.new) n }
    {
        self.names.forget(id.index);
        edit_attributes::remove_attr(&mut self.nodes, id, name)
    }

    /// Removes a node from its parent, with its subtree, so that it can be inserted elsewhere. Texts that become neighbours are joined.
    /// Changes nothing if the node is not a child: for the document, a node without a parent, and the contents of a template, which stay
    /// with the template. Fails with `AllocError` if an allocation fails; then the arena is unchanged. `id` must be a node of this arena.
    pub fn detach(&mut self, id: NodeId) -> Result<(), AllocError>
        requires { IsHeld self.old id }
        ensures ok { OnOk result (seen_of self.new ≡ changed (take_out id.index) (seen_of self.old)) }
        ensures free { OnOk result (IsNoChild (forest_seen self.new) id.index) }
        ensures err { OnErr result (self.new ≡ self.old) }
        ensures errors { KeepsErrors self.old self.new }
        ensures held { length self.new.nodes ≡ length self.old.nodes }
        ensures elements { (n : ℕ) → IsElement (forest_seen self.old) n → IsElement (forest_seen self.new) n }
    {
        match self.parent(id) {
            None => Ok(()),
            Some(_) => {
                links::detach(&mut self.nodes, id)?;
                Ok(())
            }
        }
    }

    /// Replaces the children of a node with a text, or with nothing if the text is empty. The children stay in the arena, without a parent.
    /// The contents of a template aren't among its children. Fails with `AllocError` if an allocation fails; then the arena is unchanged.
    /// `id` must be a node of this arena.
    pub fn set_text(&mut self, id: NodeId, text: &str) -> Result<(), AllocError>
        requires { IsHeld self.old id }
        ensures ok { OnOk result (seen_of self.new ≡ changed (with_text id.index text.now) (seen_of self.old)) }
        ensures text { OnOk result (children_of (forest_seen self.new) id.index ≡ text_alone text.now) }
        ensures err { OnErr result (self.new ≡ self.old) }
        ensures errors { KeepsErrors self.old self.new }
        ensures held { length self.new.nodes ≡ length self.old.nodes }
        ensures elements { (n : ℕ) → IsElement (forest_seen self.old) n → IsElement (forest_seen self.new) n }
    {
        edit_text::set_text(&mut self.nodes, id, text)?;
        Ok(())
    }

    /// Copies a node with its subtree, including the contents of templates (DOM standard, section 4.4, "clone a node", with its subtree),
    /// and returns the copy, which has no parent. Existing nodes are unchanged. A copy has the kind, name, attributes and flags of its
    /// original, and is a started script if the original is one; it has no form owner. The cost is that of what is copied, regardless of
    /// its depth. Fails with `IsDocument` for the document, and with `Memory` if an allocation fails; then the arena is unchanged. `id`
    /// must be a node of this arena.
    pub fn copy(&mut self, id: NodeId) -> Result<NodeId, EditError>
        requires { IsHeld self.old id }
        ensures new { IfOk result (λ copy. copy.index ≡ length self.old.nodes) }
        ensures held { IfOk result (λ copy. IsHeld self.new copy) }
        ensures free { IfOk result (λ copy. parent_of (forest_seen self.new) copy.index ≡ None) }
        ensures copy { IfOk result (λ copy. IsCopyOf (forest_seen self.old) (forest_seen self.new) id.index copy.index) }
        ensures html { IfOk result (λ copy. (scripting_enabled : Bool)
            → outer_html (forest_seen self.new) copy.index scripting_enabled ≡ outer_html (forest_seen self.old) id.index scripting_enabled) }
        ensures others { (n : ℕ) → IsNode (forest_seen self.old) n → (forest_seen self.new).node n ≡ (forest_seen self.old).node n }
        ensures told { IfErr result (KeepsFromCopy (forest_seen self.old) id.index) }
        ensures may { OnOk result (kind_of (forest_seen self.old) id.index ≢ Some DocumentNode) }
        ensures err { OnErr result (self.new ≡ self.old) }
        ensures quirks { self.new.quirks ≡ self.old.quirks }
        ensures errors { KeepsErrors self.old self.new }
        ensures grows { length self.old.nodes ≤ length self.new.nodes }
        // Each node that was made is the copy, or below it.
        ensures inside { OnOk result (AreBelowFirst (forest_seen self.new) (length self.old.nodes) (length self.new.nodes)) }
        ensures elements { (n : ℕ) → IsElement (forest_seen self.old) n → IsElement (forest_seen self.new) n }
    {
        if matches!(self.kind(id), Kind::Document) {
            return Err(EditError::IsDocument);
        }
        let index = self.nodes.len();
        let mut copies = copies::copies(self.alloc, self.nodes.as_slice(), id)?;
        self.nodes.append(&mut copies)?;
        Ok(NodeId { index })
    }

    /// Appends a child to a node, as `append` does; a text is joined with a text before it. Fails with the reason if the child isn't
    /// allowed there, and with `Memory` if an allocation fails; then the arena is unchanged. A cycle is found by walking up from the node.
    pub fn try_append(&mut self, parent: NodeId, child: NodeOrText<NodeId>) -> Result<(), EditError>
        ensures ok { OnOk result (seen_of self.new ≡ after_append parent.index (child_of place child) (seen_of self.old)) }
        ensures may { OnOk result (CanAppend (forest_seen self.old) parent.index (child_of place child)) }
        ensures told { IfErr result (λ fault. KeepsFromAppend (forest_seen self.old) parent.index (child_of place child) fault) }
        ensures refused { IfErr result (λ fault. fault ≢ Memory → ¬ (CanAppend (forest_seen self.old) parent.index (child_of place child))) }
        ensures err { OnErr result (self.new ≡ self.old) }
        ensures errors { KeepsErrors self.old self.new }
        ensures held { length self.new.nodes ≡ length self.old.nodes }
        ensures elements { (n : ℕ) → IsElement (forest_seen self.old) n → IsElement (forest_seen self.new) n }
    {
        standing::check_append(self.nodes.as_slice(), parent, &child)?;
        self.append(&parent, child)?;
        Ok(())
    }

    /// Inserts a child before a sibling, as `append_before_sibling` does; a text is joined with a text before it. Fails with the reason if
    /// the child isn't allowed there, and with `Memory` if an allocation fails; then the arena is unchanged.
    pub fn try_insert_before(
        &mut self,
        sibling: NodeId,
        child: NodeOrText<NodeId>,
    ) -> Result<(), EditError>
        ensures ok { OnOk result
            (seen_of self.new ≡ after_append_before sibling.index (child_of place child) (seen_of self.old)) }
        ensures may { OnOk result (CanInsertBefore (forest_seen self.old) sibling.index (child_of place child)) }
        ensures told { IfErr result (λ fault. KeepsFromInsert (forest_seen self.old) sibling.index (child_of place child) fault) }
        ensures refused { IfErr result (λ fault. fault ≢ Memory → ¬ (CanInsertBefore (forest_seen self.old) sibling.index (child_of place child))) }
        ensures err { OnErr result (self.new ≡ self.old) }
        ensures errors { KeepsErrors self.old self.new }
        ensures held { length self.new.nodes ≡ length self.old.nodes }
        ensures elements { (n : ℕ) → IsElement (forest_seen self.old) n → IsElement (forest_seen self.new) n }
    {
        standing::check_insert(self.nodes.as_slice(), sibling, &child)?;
        self.append_before_sibling(&sibling, child)?;
        Ok(())
    }
}
