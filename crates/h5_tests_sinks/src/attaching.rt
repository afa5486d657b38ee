//! Lawful sinks that report every shadow root as attached.
ghost use Rattle.std.specs.Prelude.{◌≡◌, OnOk, OnErr};
ghost use Rattle.h5_interface.specs.Seen.{CanAppend, CanAppendBasedOnParent, CanInsertBefore, after_append, after_append_before, after_append_by, child_of};
ghost use Rattle.h5_arena.specs.ArenaModel.{place, seen_of};
ghost use Rattle.h5_tests_sinks.specs.Attaching.{attaching_choices};

use h5_arena::{Arena, NodeId};
use h5_interface::{ElementFlags, NodeOrText, QuirksMode, TreeSink};
use h5_names::{Attribute, QualName};
use std::alloc::{AllocError, Global};

/// An arena that reports every shadow root as attached. When it does, it removes the template from its parent, or changes nothing. It also
/// counts the options that it is asked to copy.
#[derive(Drop)]
pub struct Attaching<const DETACHES: bool> {
    arena: Arena,
    pub copies: usize,
}

/// The sink that changes nothing.
pub type Agreeing = Attaching<false>;

/// The sink that removes the template from its parent.
pub type Detaching = Attaching<true>;

impl<const DETACHES: bool> Attaching<DETACHES> {
    /// Returns a sink over an empty arena. Fails with `AllocError` if an allocation fails.
    pub fn new(alloc: Global) -> Result<Attaching<DETACHES>, AllocError> {
        Ok(Attaching {
            arena: Arena::new(alloc)?,
            copies: 0,
        })
    }
}

impl<const DETACHES: bool> TreeSink for Attaching<DETACHES> {
    type Handle = NodeId;

    type Output = Arena;

    ghost sees = { λ s. seen_of s.arena };

    ghost node = { place };

    ghost choices = { attaching_choices DETACHES };

    ghost told = { seen_of };

    fn finish(self) -> Arena {
        self.arena
    }

    fn parse_error(&mut self, message: &str) {
        self.arena.parse_error(message)
    }

    fn get_document(&self) -> NodeId {
        self.arena.get_document()
    }

    fn elem_name<'a>(&'a self, target: &'a NodeId) -> &'a QualName {
        self.arena.elem_name(target)
    }

    fn same_node(&self, x: &NodeId, y: &NodeId) -> bool {
        self.arena.same_node(x, y)
    }

    fn clone_handle(&self, handle: &NodeId) -> NodeId {
        self.arena.clone_handle(handle)
    }

    fn get_template_contents(&self, target: &NodeId) -> NodeId {
        self.arena.get_template_contents(target)
    }

    fn create_element(
        &mut self,
        name: QualName,
        attrs: Vec<Attribute>,
        flags: ElementFlags,
    ) -> Result<NodeId, AllocError> {
        self.arena.create_element(name, attrs, flags)
    }

    fn create_comment(&mut self, text: String) -> Result<NodeId, AllocError> {
        self.arena.create_comment(text)
    }

    fn create_pi(&mut self, target: String, data: String) -> Result<NodeId, AllocError> {
        self.arena.create_pi(target, data)
    }

    fn append(&mut self, parent: &NodeId, child: NodeOrText<NodeId>) -> Result<(), AllocError>
        requires { CanAppend (seen_of self.old.arena).forest parent.now.index (child_of place child) }
        ensures ok { OnOk result
            (seen_of self.new.arena ≡ after_append parent.now.index (child_of place child) (seen_of self.old.arena)) }
        ensures err { OnErr result (seen_of self.new.arena ≡ seen_of self.old.arena) }
    {
        self.arena.append(parent, child)
    }

    fn append_before_sibling(
        &mut self,
        sibling: &NodeId,
        child: NodeOrText<NodeId>,
    ) -> Result<(), AllocError>
        requires { CanInsertBefore (seen_of self.old.arena).forest sibling.now.index (child_of place child) }
        ensures ok { OnOk result
            (seen_of self.new.arena ≡ after_append_before sibling.now.index (child_of place child) (seen_of self.old.arena)) }
        ensures err { OnErr result (seen_of self.new.arena ≡ seen_of self.old.arena) }
    {
        self.arena.append_before_sibling(sibling, child)
    }

    fn append_based_on_parent_node(
        &mut self,
        element: &NodeId,
        prev: &NodeId,
        child: NodeOrText<NodeId>,
    ) -> Result<(), AllocError>
        requires { CanAppendBasedOnParent (seen_of self.old.arena).forest element.now.index prev.now.index (child_of place child) }
        ensures ok { OnOk result
            (seen_of self.new.arena ≡ after_append_by element.now.index prev.now.index (child_of place child) (seen_of self.old.arena)) }
        ensures err { OnErr result (seen_of self.new.arena ≡ seen_of self.old.arena) }
    {
        self.arena.append_based_on_parent_node(element, prev, child)
    }

    fn append_doctype_to_document(
        &mut self,
        name: String,
        public_id: String,
        system_id: String,
    ) -> Result<(), AllocError> {
        self.arena
            .append_doctype_to_document(name, public_id, system_id)
    }

    fn add_attrs_if_missing(
        &mut self,
        target: &NodeId,
        attrs: Vec<Attribute>,
    ) -> Result<(), AllocError> {
        self.arena.add_attrs_if_missing(target, attrs)
    }

    fn remove_from_parent(&mut self, target: &NodeId) -> Result<(), AllocError> {
        self.arena.remove_from_parent(target)
    }

    fn reparent_children(&mut self, from: &NodeId, to: &NodeId) -> Result<(), AllocError> {
        self.arena.reparent_children(from, to)
    }

    fn mark_script_already_started(&mut self, script: &NodeId) {
        self.arena.mark_script_already_started(script)
    }

    fn pop(&mut self, element: &NodeId) {
        self.arena.pop(element)
    }

    fn associate_with_form(
        &mut self,
        target: &NodeId,
        form: &NodeId,
        nodes: (&NodeId, Option<&NodeId>),
    ) {
        self.arena.associate_with_form(target, form, nodes)
    }

    fn set_quirks_mode(&mut self, mode: QuirksMode) {
        self.arena.set_quirks_mode(mode)
    }

    fn set_current_line(&mut self, line: u64) {
        self.arena.set_current_line(line)
    }

    fn is_mathml_annotation_xml_integration_point(&self, target: &NodeId) -> bool {
        self.arena
            .is_mathml_annotation_xml_integration_point(target)
    }

    fn allow_declarative_shadow_roots(&self, parent: &NodeId) -> bool {
        self.arena.allow_declarative_shadow_roots(parent)
    }

    fn attach_declarative_shadow(
        &mut self,
        host: &NodeId,
        template: &NodeId,
        attrs: &[Attribute],
    ) -> Result<bool, AllocError> {
        let _ = host;
        let _ = attrs;
        // The contents of a template aren't a child.
        if DETACHES && self.arena.parent(*template).is_some() {
            self.arena.remove_from_parent(template)?;
        }
        Ok(true)
    }

    fn maybe_clone_an_option_into_selectedcontent(
        &mut self,
        option: &NodeId,
    ) -> Result<(), AllocError> {
        self.copies = self.copies.saturating_add(1);
        self.arena
            .maybe_clone_an_option_into_selectedcontent(option)
    }
}
