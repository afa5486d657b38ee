//! The arena as a sink of a tree builder.
ghost use Rattle.std.specs.Prelude.{◌≡◌, ◌≤◌, ◌<◌, ◌⊎◌, ◌++◌, ◌∷◌, [], IfOk, MatchOption, OnOk, OnErr, string_bytes, false, true};
ghost use Rattle.std.specs.Option.{option_map};
ghost use Rattle.h5_names.specs.AttributeText.{attribute_texts};
ghost use Rattle.h5_interface.specs.Forest.{CommentNode, InstructionNode, IsElement, IsNode};
ghost use Rattle.h5_interface.specs.Seen.{CanAppend, CanAppendBasedOnParent, CanDetach, CanInsertBefore, CanReparent, after_add_attrs, after_append, after_append_before, after_append_by, after_append_doctype, after_associate, after_attach, after_create, after_create_element, after_option_copy, after_quirks, after_remove, after_reparent, after_started, child_of};
ghost use Rattle.h5_arena.specs.ArenaModel.{ArenaView, KeepsErrors, arena_choices, forest_seen, place, seen_of};

use super::link::Link;
use super::nodes::{Kind, NodeId};
use super::tree::Arena;
use super::{links, makes, moves};
use h5_interface::{ElementFlags, NodeOrText, QuirksMode, TreeSink};
use h5_names::{Attribute, QualName};
use std::alloc::AllocError;

impl TreeSink for Arena {
    type Handle = NodeId;

    type Output = Arena;

    ghost sees = { seen_of };

    ghost node = { place };

    ghost choices = { arena_choices };

    ghost told = { seen_of };

    /// Returns the arena, unchanged.
    fn finish(self) -> Arena
        ensures { result ≡ self }
    {
        self
    }

    /// Stores the text of the error, unless the arena stores none. If the text is not stored, `errors_lost` is set.
    fn parse_error(&mut self, message: &str)
        ensures forest { (seen_of self.new).forest ≡ (seen_of self.old).forest }
        ensures quirks { (seen_of self.new).quirks ≡ (seen_of self.old).quirks }
        ensures grows { (seen_of self.old).errors ≤ (seen_of self.new).errors }
        ensures noted { 0 < (seen_of self.new).errors }
        ensures kept { (self.new ≡ record self.old { errors = self.old.errors ++ message.now ∷ [] })
            ⊎ (self.new ≡ record self.old { errors_lost = true }) }
        ensures silent { self.old.keeps_errors ≡ false → self.new ≡ record self.old { errors_lost = true } }
    {
        if !self.keeps_errors {
            self.errors_lost = true;
            return;
        }
        match String::from_str(self.alloc, message) {
            Ok(text) => {
                if self.errors.push(text).is_err() {
                    self.errors_lost = true;
                }
            }
            Err(_) => {
                self.errors_lost = true;
            }
        }
    }

    fn get_document(&self) -> NodeId {
        let _nodes = &self.nodes;
        NodeId { index: 0 }
    }

    fn elem_name<'a>(&'a self, target: &'a NodeId) -> &'a QualName {
        match &*self.nodes[target.index].kind {
            Kind::Element(name) => name,
            _ => unreachable!(),
        }
    }

    fn same_node(&self, x: &NodeId, y: &NodeId) -> bool {
        x.index == y.index
    }

    fn clone_handle(&self, handle: &NodeId) -> NodeId {
        *handle
    }

    fn get_template_contents(&self, target: &NodeId) -> NodeId {
        match self.nodes[target.index].contents.node() {
            Some(contents) => contents,
            None => unreachable!(),
        }
    }

    /// As in `TreeSink`. The node is an element of the arena.
    fn create_element(
        &mut self,
        name: QualName,
        attrs: Vec<Attribute>,
        flags: ElementFlags,
    ) -> Result<NodeId, AllocError>
        ensures handle { IfOk result (λ handle. handle.index ≡ arena_choices.fresh (seen_of self.old).forest) }
        ensures element { IfOk result (λ handle. IsElement (forest_seen self.new) handle.index) }
        ensures ok { OnOk result
            (seen_of self.new ≡ after_create_element arena_choices name (attribute_texts attrs.items) flags (seen_of self.old)) }
        ensures err { OnErr result (seen_of self.new ≡ seen_of self.old) }
        ensures errors { KeepsErrors self.old self.new }
    {
        let index = self.nodes.len();
        let (nodes, shared) = (&mut self.nodes, &mut self.shared);
        makes::push_element(nodes, shared, self.alloc, name, attrs, flags)?;
        Ok(NodeId { index })
    }

    fn create_comment(&mut self, text: String) -> Result<NodeId, AllocError>
        ensures handle { IfOk result (λ handle. handle.index ≡ arena_choices.fresh (seen_of self.old).forest) }
        ensures ok { OnOk result
            (seen_of self.new ≡ after_create arena_choices (CommentNode (string_bytes text)) (seen_of self.old)) }
        ensures err { OnErr result (seen_of self.new ≡ seen_of self.old) }
        ensures errors { KeepsErrors self.old self.new }
    {
        let index = self.nodes.len();
        makes::push_plain(&mut self.nodes, self.alloc, Kind::Comment(text))?;
        Ok(NodeId { index })
    }

    fn create_pi(&mut self, target: String, data: String) -> Result<NodeId, AllocError>
        ensures handle { IfOk result (λ handle. handle.index ≡ arena_choices.fresh (seen_of self.old).forest) }
        ensures ok { OnOk result
            (seen_of self.new ≡ after_create arena_choices (InstructionNode (string_bytes target) (string_bytes «data»)) (seen_of self.old)) }
        ensures err { OnErr result (seen_of self.new ≡ seen_of self.old) }
        ensures errors { KeepsErrors self.old self.new }
    {
        let index = self.nodes.len();
        let kind = Kind::Instruction { target, text: data };
        makes::push_plain(&mut self.nodes, self.alloc, kind)?;
        Ok(NodeId { index })
    }

    #[inline(always)]
    fn append(&mut self, parent: &NodeId, child: NodeOrText<NodeId>) -> Result<(), AllocError>
        requires { CanAppend (seen_of self.old).forest parent.now.index (child_of place child) }
        ensures ok { OnOk result (seen_of self.new ≡ after_append parent.now.index (child_of place child) (seen_of self.old)) }
        ensures err { OnErr result (seen_of self.new ≡ seen_of self.old) }
        ensures errors { KeepsErrors self.old self.new }
    {
        match child {
            NodeOrText::AppendNode(id) => {
                links::append_node(&mut self.nodes, *parent, id)?;
                Ok(())
            }
            NodeOrText::AppendText(text) => {
                links::append_text(&mut self.nodes, *parent, text)?;
                Ok(())
            }
        }
    }

    fn append_before_sibling(
        &mut self,
        sibling: &NodeId,
        child: NodeOrText<NodeId>,
    ) -> Result<(), AllocError>
        requires { CanInsertBefore (seen_of self.old).forest sibling.now.index (child_of place child) }
        ensures ok { OnOk result
            (seen_of self.new ≡ after_append_before sibling.now.index (child_of place child) (seen_of self.old)) }
        ensures err { OnErr result (seen_of self.new ≡ seen_of self.old) }
        ensures errors { KeepsErrors self.old self.new }
    {
        match child {
            NodeOrText::AppendNode(id) => {
                links::insert_node_before(&mut self.nodes, *sibling, id)?;
                Ok(())
            }
            NodeOrText::AppendText(text) => {
                links::insert_text_before(&mut self.nodes, *sibling, text)?;
                Ok(())
            }
        }
    }

    fn append_based_on_parent_node(
        &mut self,
        element: &NodeId,
        prev: &NodeId,
        child: NodeOrText<NodeId>,
    ) -> Result<(), AllocError>
        requires { CanAppendBasedOnParent (seen_of self.old).forest element.now.index prev.now.index (child_of place child) }
        ensures ok { OnOk result
            (seen_of self.new ≡ after_append_by element.now.index prev.now.index (child_of place child) (seen_of self.old)) }
        ensures err { OnErr result (seen_of self.new ≡ seen_of self.old) }
        ensures errors { KeepsErrors self.old self.new }
    {
        match self.nodes[element.index].parent.node() {
            Some(_) => {
                self.append_before_sibling(element, child)?;
                Ok(())
            }
            None => {
                self.append(prev, child)?;
                Ok(())
            }
        }
    }

    fn append_doctype_to_document(
        &mut self,
        name: String,
        public_id: String,
        system_id: String,
    ) -> Result<(), AllocError>
        ensures ok { OnOk result
            (seen_of self.new ≡ after_append_doctype arena_choices (string_bytes name) (string_bytes public_id) (string_bytes system_id) (seen_of self.old)) }
        ensures err { OnErr result (seen_of self.new ≡ seen_of self.old) }
        ensures errors { KeepsErrors self.old self.new }
    {
        let kind = Kind::Doctype {
            name,
            public_id,
            system_id,
        };
        makes::push_child(&mut self.nodes, self.alloc, NodeId { index: 0 }, kind)?;
        Ok(())
    }

    fn add_attrs_if_missing(
        &mut self,
        target: &NodeId,
        attrs: Vec<Attribute>,
    ) -> Result<(), AllocError>
        requires { IsElement (seen_of self.old).forest target.now.index }
        ensures ok { OnOk result
            (seen_of self.new ≡ after_add_attrs target.now.index (attribute_texts attrs.items) (seen_of self.old)) }
        ensures err { OnErr result (seen_of self.new ≡ seen_of self.old) }
        ensures errors { KeepsErrors self.old self.new }
    {
        let node = &mut self.nodes[target.index];
        self.names
            .add_missing(self.alloc, target.index, &mut node.attrs, attrs)?;
        Ok(())
    }

    fn remove_from_parent(&mut self, target: &NodeId) -> Result<(), AllocError>
        requires { CanDetach (seen_of self.old).forest target.now.index }
        ensures ok { OnOk result (seen_of self.new ≡ after_remove target.now.index (seen_of self.old)) }
        ensures err { OnErr result (seen_of self.new ≡ seen_of self.old) }
        ensures errors { KeepsErrors self.old self.new }
    {
        links::detach(&mut self.nodes, *target)?;
        Ok(())
    }

    fn reparent_children(&mut self, from: &NodeId, to: &NodeId) -> Result<(), AllocError>
        requires { CanReparent (seen_of self.old).forest from.now.index to.now.index }
        ensures ok { OnOk result (seen_of self.new ≡ after_reparent from.now.index to.now.index (seen_of self.old)) }
        ensures err { OnErr result (seen_of self.new ≡ seen_of self.old) }
        ensures errors { KeepsErrors self.old self.new }
    {
        moves::reparent(&mut self.nodes, self.alloc, *from, *to)?;
        Ok(())
    }

    fn mark_script_already_started(&mut self, script: &NodeId)
        requires { IsElement (seen_of self.old).forest script.now.index }
        ensures started { seen_of self.new ≡ after_started arena_choices script.now.index (seen_of self.old) }
        ensures errors { KeepsErrors self.old self.new }
    {
        let node = &mut self.nodes[script.index];
        node.started = true;
    }

    /// Changes nothing.
    fn pop(&mut self, element: &NodeId)
        ensures { self.new ≡ self.old }
    {
        let _ = element;
    }

    fn associate_with_form(
        &mut self,
        target: &NodeId,
        form: &NodeId,
        nodes: (&NodeId, Option<&NodeId>),
    )
        requires target { IsElement (seen_of self.old).forest target.now.index }
        requires form { IsNode (seen_of self.old).forest form.now.index }
        requires place { IsNode (seen_of self.old).forest nodes.0.now.index }
        requires outer { MatchOption nodes.1 (Unit {0}) (λ outer. IsNode (seen_of self.old).forest outer.now.index) }
        ensures associated { seen_of self.new ≡ after_associate arena_choices target.now.index form.now.index nodes.entry.0.now.index
            (option_map (λ outer. outer.now.index) nodes.entry.1) (seen_of self.old) }
        ensures errors { KeepsErrors self.old self.new }
    {
        let _ = nodes;
        let node = &mut self.nodes[target.index];
        node.form = Link::to(*form);
    }

    fn set_quirks_mode(&mut self, mode: QuirksMode)
        ensures quirks { seen_of self.new ≡ after_quirks mode (seen_of self.old) }
        ensures errors { KeepsErrors self.old self.new }
    {
        self.quirks = mode;
    }

    /// Changes nothing.
    fn set_current_line(&mut self, line: u64)
        ensures { self.new ≡ self.old }
    {
        let _ = line;
    }

    fn is_mathml_annotation_xml_integration_point(&self, target: &NodeId) -> bool {
        self.nodes[target.index]
            .flags
            .mathml_annotation_xml_integration_point
    }

    fn allow_declarative_shadow_roots(&self, parent: &NodeId) -> bool {
        let _ = parent;
        true
    }

    fn attach_declarative_shadow(
        &mut self,
        host: &NodeId,
        template: &NodeId,
        attrs: &[Attribute],
    ) -> Result<bool, AllocError>
        requires host { IsNode (seen_of self.old).forest host.now.index }
        requires template { IsNode (seen_of self.old).forest template.now.index }
        ensures answer { IfOk result (λ attached. attached ≡ arena_choices.attaches (seen_of self.old).forest host.now.index template.now.index (attribute_texts attrs.now)) }
        ensures ok { OnOk result
            (seen_of self.new ≡ after_attach arena_choices host.now.index template.now.index (attribute_texts attrs.now) (seen_of self.old)) }
        ensures err { OnErr result (seen_of self.new ≡ seen_of self.old) }
        ensures errors { KeepsErrors self.old self.new }
    {
        let _ = host;
        let _ = template;
        let _ = attrs;
        Ok(false)
    }

    fn maybe_clone_an_option_into_selectedcontent(
        &mut self,
        option: &NodeId,
    ) -> Result<(), AllocError>
        requires { IsElement (seen_of self.old).forest option.now.index }
        ensures ok { OnOk result (seen_of self.new ≡ after_option_copy arena_choices option.now.index (seen_of self.old)) }
        ensures err { OnErr result (seen_of self.new ≡ seen_of self.old) }
        ensures errors { KeepsErrors self.old self.new }
    {
        let _ = option;
        Ok(())
    }
}
