//! The trait of the trees that a tree builder builds.
ghost use Rattle.std.specs.Prelude.{◌≡◌, ◌≤◌, ◌<◌, ◌==◌, ℕ, List, Option, IfOk, MatchOption, OnOk, OnErr, string_bytes};
ghost use Rattle.std.specs.Option.{option_map};
ghost use Rattle.h5_names.specs.AttributeText.{attribute_texts};
ghost use Rattle.h5_interface.specs.Forest.{CommentNode, ElementNode, HasContents, InstructionNode, IsElement, IsForest, IsNode, contents_of, kind_of};
ghost use Rattle.h5_interface.specs.Seen.{CanAppend, CanAppendBasedOnParent, CanDetach, CanInsertBefore, CanReparent, Seen, after_add_attrs, after_append, after_append_before, after_append_by, after_append_doctype, after_associate, after_attach, after_create, after_create_element, after_option_copy, after_pop, after_quirks, after_remove, after_reparent, after_started, child_of, is_integration_point};
ghost use Rattle.h5_interface.specs.SinkChoices.{SinkChoices};

use super::marks::{ElementFlags, QuirksMode};
use h5_names::{Attribute, QualName};
use std::alloc::AllocError;

/// A child to insert into a tree.
#[derive(Drop)]
pub enum NodeOrText<Handle> {
    /// This node, which must not have a parent.
    AppendNode(Handle),
    /// This text, which must not be empty. It is joined with the texts that it is next to.
    AppendText(String),
}

/// A tree that a tree builder builds. The builder only holds handles of its nodes.
///
/// The tree is a forest of nodes (DOM standard, section 4, "Nodes"). Results of calls, and their changes of the forest, are functions of
/// the forest; what a sink may choose about them is in its `choices`. Texts that become neighbours are joined. After an `AllocError` the
/// forest, the quirks mode and the mark of errors are unchanged.
///
/// The caller must ensure: handles name nodes of this sink; an appended text isn't empty; an appended node isn't a document, has no parent,
/// and is neither the new parent nor an ancestor of it. Names, marks and attributes are only for elements, and contents only for templates.
pub trait TreeSink {
    type Handle: Drop;

    type Output;

    // The state that contracts see: the forest, the quirks mode and the mark of errors.
    ghost sees: { Self → Seen };

    // The node that a handle names.
    ghost node: { Self.Handle → ℕ };

    // The choices of the sink.
    ghost choices: { SinkChoices };

    // The state that the result shows.
    ghost told: { Self.Output → Seen };

    /// Returns the result, which shows what the sink showed.
    fn finish(self) -> Self::Output
        ensures { told result ≡ sees self };

    /// Records a parse error. Doesn't change the forest and the quirks mode.
    fn parse_error(&mut self, message: &str)
        ensures forest { (sees self.new).forest ≡ (sees self.old).forest }
        ensures quirks { (sees self.new).quirks ≡ (sees self.old).quirks }
        ensures grows { (sees self.old).errors ≤ (sees self.new).errors }
        ensures noted { 0 < (sees self.new).errors };

    /// The document. The nodes of the sink are a forest.
    fn get_document(&self) -> Self::Handle
        ensures is_forest { IsForest (sees self.now).forest }
        ensures document { node result ≡ (sees self.now).forest.document };

    /// The name of an element.
    fn elem_name<'a>(&'a self, target: &'a Self::Handle) -> &'a QualName
        requires { IsElement (sees self.now).forest (node target.now) }
        ensures { kind_of (sees self.now).forest (node target.now) ≡ Some (ElementNode result.now) };

    /// Returns true if two handles name the same node.
    fn same_node(&self, x: &Self::Handle, y: &Self::Handle) -> bool
        requires x { IsNode (sees self.now).forest (node x.now) }
        requires y { IsNode (sees self.now).forest (node y.now) }
        ensures { result ≡ (node x.now == node y.now) };

    /// Returns another handle of the same node.
    fn clone_handle(&self, handle: &Self::Handle) -> Self::Handle
        requires { IsNode (sees self.now).forest (node handle.now) }
        ensures { node result ≡ node handle.now };

    /// The template contents of a template (HTML standard, section 4.12.3, "The template element").
    fn get_template_contents(&self, target: &Self::Handle) -> Self::Handle
        requires { HasContents (sees self.now).forest (node target.now) }
        ensures { contents_of (sees self.now).forest (node target.now) ≡ Some (node result) };

    /// Makes an element without a parent and, if `flags.template` is set, its template contents. Fails with `AllocError` if an allocation
    /// fails; then nothing that the sink shows has changed.
    fn create_element(
        &mut self,
        name: QualName,
        attrs: Vec<Attribute>,
        flags: ElementFlags,
    ) -> Result<Self::Handle, AllocError>
        ensures handle { IfOk result (λ handle. node handle ≡ choices.fresh (sees self.old).forest) }
        ensures ok { OnOk result
            (sees self.new ≡ after_create_element choices name (attribute_texts attrs.items) flags (sees self.old)) }
        ensures err { OnErr result (sees self.new ≡ sees self.old) };

    /// Makes a comment without a parent. Fails with `AllocError` if an allocation fails; then nothing that the sink shows has changed.
    fn create_comment(&mut self, text: String) -> Result<Self::Handle, AllocError>
        ensures handle { IfOk result (λ handle. node handle ≡ choices.fresh (sees self.old).forest) }
        ensures ok { OnOk result (sees self.new ≡ after_create choices (CommentNode (string_bytes text)) (sees self.old)) }
        ensures err { OnErr result (sees self.new ≡ sees self.old) };

    /// Makes a processing instruction without a parent. Fails with `AllocError` if an allocation fails; then nothing that the sink shows
    /// has changed.
    fn create_pi(&mut self, target: String, data: String) -> Result<Self::Handle, AllocError>
        ensures handle { IfOk result (λ handle. node handle ≡ choices.fresh (sees self.old).forest) }
        ensures ok { OnOk result
            (sees self.new ≡ after_create choices (InstructionNode (string_bytes target) (string_bytes «data»)) (sees self.old)) }
        ensures err { OnErr result (sees self.new ≡ sees self.old) };

    /// Appends a last child. Fails with `AllocError` if an allocation fails; then nothing that the sink shows has changed.
    fn append(
        &mut self,
        parent: &Self::Handle,
        child: NodeOrText<Self::Handle>,
    ) -> Result<(), AllocError>
        requires { CanAppend (sees self.old).forest (node parent.now) (child_of node child) }
        ensures ok { OnOk result (sees self.new ≡ after_append (node parent.now) (child_of node child) (sees self.old)) }
        ensures err { OnErr result (sees self.new ≡ sees self.old) };

    /// Inserts a child before a sibling, which must have a parent and must not be a fragment. Fails with `AllocError` if an allocation
    /// fails; then nothing that the sink shows has changed.
    fn append_before_sibling(
        &mut self,
        sibling: &Self::Handle,
        child: NodeOrText<Self::Handle>,
    ) -> Result<(), AllocError>
        requires { CanInsertBefore (sees self.old).forest (node sibling.now) (child_of node child) }
        ensures ok { OnOk result
            (sees self.new ≡ after_append_before (node sibling.now) (child_of node child) (sees self.old)) }
        ensures err { OnErr result (sees self.new ≡ sees self.old) };

    /// Inserts a child before `element` if that has a parent, and else appends it to `prev`. Fails with `AllocError` if an allocation
    /// fails; then nothing that the sink shows has changed.
    fn append_based_on_parent_node(
        &mut self,
        element: &Self::Handle,
        prev: &Self::Handle,
        child: NodeOrText<Self::Handle>,
    ) -> Result<(), AllocError>
        requires { CanAppendBasedOnParent (sees self.old).forest (node element.now) (node prev.now) (child_of node child) }
        ensures ok { OnOk result
            (sees self.new ≡ after_append_by (node element.now) (node prev.now) (child_of node child) (sees self.old)) }
        ensures err { OnErr result (sees self.new ≡ sees self.old) };

    /// Appends a new doctype to the document. Fails with `AllocError` if an allocation fails; then nothing that the sink shows has changed.
    fn append_doctype_to_document(
        &mut self,
        name: String,
        public_id: String,
        system_id: String,
    ) -> Result<(), AllocError>
        ensures ok { OnOk result
            (sees self.new ≡ after_append_doctype choices (string_bytes name) (string_bytes public_id) (string_bytes system_id) (sees self.old)) }
        ensures err { OnErr result (sees self.new ≡ sees self.old) };

    /// Adds those attributes to an element whose names it doesn't have. Fails with `AllocError` if an allocation fails; then nothing that
    /// the sink shows has changed.
    fn add_attrs_if_missing(
        &mut self,
        target: &Self::Handle,
        attrs: Vec<Attribute>,
    ) -> Result<(), AllocError>
        requires { IsElement (sees self.old).forest (node target.now) }
        ensures ok { OnOk result
            (sees self.new ≡ after_add_attrs (node target.now) (attribute_texts attrs.items) (sees self.old)) }
        ensures err { OnErr result (sees self.new ≡ sees self.old) };

    /// Removes a node from its parent, if it has one. The node must not be a fragment. Fails with `AllocError` if an allocation fails; then
    /// nothing that the sink shows has changed.
    fn remove_from_parent(&mut self, target: &Self::Handle) -> Result<(), AllocError>
        requires { CanDetach (sees self.old).forest (node target.now) }
        ensures ok { OnOk result (sees self.new ≡ after_remove (node target.now) (sees self.old)) }
        ensures err { OnErr result (sees self.new ≡ sees self.old) };

    /// Moves all children of `from`, in order, to the end of the children of `to`, which must be neither `from` nor a descendant of it.
    /// Fails with `AllocError` if an allocation fails; then nothing that the sink shows has changed.
    fn reparent_children(
        &mut self,
        from: &Self::Handle,
        to: &Self::Handle,
    ) -> Result<(), AllocError>
        requires { CanReparent (sees self.old).forest (node from.now) (node to.now) }
        ensures ok { OnOk result (sees self.new ≡ after_reparent (node from.now) (node to.now) (sees self.old)) }
        ensures err { OnErr result (sees self.new ≡ sees self.old) };

    /// Records that a script has started (HTML standard, section 4.12.1, already started).
    fn mark_script_already_started(&mut self, script: &Self::Handle)
        requires { IsElement (sees self.old).forest (node script.now) }
        ensures { sees self.new ≡ after_started choices (node script.now) (sees self.old) };

    /// Records that an element was popped off the stack of open elements.
    fn pop(&mut self, element: &Self::Handle)
        requires { IsElement (sees self.old).forest (node element.now) }
        ensures { sees self.new ≡ after_pop choices (node element.now) (sees self.old) };

    /// Associates an element with a form (HTML standard, section 13.2.6.1, create an element for a token). `nodes` is the place where the
    /// tree builder will insert the element: in the first node; or, if there is a second one, before the first, or in the second if the
    /// first has no parent.
    fn associate_with_form(
        &mut self,
        target: &Self::Handle,
        form: &Self::Handle,
        nodes: (&Self::Handle, Option<&Self::Handle>),
    )
        requires target { IsElement (sees self.old).forest (node target.now) }
        requires form { IsNode (sees self.old).forest (node form.now) }
        requires place { IsNode (sees self.old).forest (node nodes.0.now) }
        requires outer { MatchOption nodes.1 (Unit {0}) (λ outer. IsNode (sees self.old).forest (node outer.now)) }
        ensures { sees self.new ≡ after_associate choices (node target.now) (node form.now) (node nodes.entry.0.now)
            (option_map (λ outer. node outer.now) nodes.entry.1) (sees self.old) };

    /// Sets the quirks mode. Doesn't change the forest.
    fn set_quirks_mode(&mut self, mode: QuirksMode)
        ensures { sees self.new ≡ after_quirks mode (sees self.old) };

    /// Receives the line of the next token. Changes nothing that the sink shows.
    fn set_current_line(&mut self, line: u64)
        ensures { sees self.new ≡ sees self.old };

    /// Returns true if a MathML `annotation-xml` is an HTML integration point (HTML standard, section 13.2.6, "Tree construction"). Its
    /// name, attributes and marks decide this.
    fn is_mathml_annotation_xml_integration_point(&self, target: &Self::Handle) -> bool
        requires { IsElement (sees self.now).forest (node target.now) }
        ensures { result ≡ is_integration_point choices (sees self.now).forest (node target.now) };

    /// Returns true if declarative shadow roots are allowed below this parent (HTML standard, section 13.2.6.4.4, start tag "template").
    fn allow_declarative_shadow_roots(&self, parent: &Self::Handle) -> bool
        requires { IsNode (sees self.now).forest (node parent.now) }
        ensures { result ≡ choices.allows_shadow (sees self.now).forest (node parent.now) };

    /// Attaches the contents of a template as the shadow root of its host, and returns true if it did. If it returns false, nothing that
    /// the sink shows has changed. Fails with `AllocError` if an allocation fails; then nothing that the sink shows has changed either.
    fn attach_declarative_shadow(
        &mut self,
        host: &Self::Handle,
        template: &Self::Handle,
        attrs: &[Attribute],
    ) -> Result<bool, AllocError>
        requires host { IsNode (sees self.old).forest (node host.now) }
        requires template { IsNode (sees self.old).forest (node template.now) }
        ensures answer { IfOk result (λ attached. attached ≡ choices.attaches (sees self.old).forest (node host.now) (node template.now) (attribute_texts attrs.now)) }
        ensures ok { OnOk result
            (sees self.new ≡ after_attach choices (node host.now) (node template.now) (attribute_texts attrs.now) (sees self.old)) }
        ensures err { OnErr result (sees self.new ≡ sees self.old) };

    /// Copies an option into `selectedcontent` elements (HTML standard, section 4.10.10, "The option element"). Fails with `AllocError` if
    /// an allocation fails; then nothing that the sink shows has changed.
    fn maybe_clone_an_option_into_selectedcontent(
        &mut self,
        option: &Self::Handle,
    ) -> Result<(), AllocError>
        requires { IsElement (sees self.old).forest (node option.now) }
        ensures ok { OnOk result (sees self.new ≡ after_option_copy choices (node option.now) (sees self.old)) }
        ensures err { OnErr result (sees self.new ≡ sees self.old) };
}
