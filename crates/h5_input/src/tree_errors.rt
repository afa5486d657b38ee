//! Parse errors of tree construction: counted, and the first of them kept.
ghost use Rattle.std.specs.Prelude.{◌≡◌, OnOk, OnErr};
ghost use Rattle.html_tree_builder.specs.Seen.{CanAppend, CanAppendBasedOnParent, CanInsertBefore, after_append, after_append_before, after_append_by, child_of};

use html_tree_builder::interface::{ElementFlags, NodeOrText, QuirksMode, TreeSink};
use html_tree_builder::{Attribute, QualName};
use std::alloc::{AllocError, Global};

/// An error of tree construction: the line of its token, its name, and the rest of the message.
#[derive(Drop)]
pub struct TreeMessage {
    pub line: u64,
    pub name: String,
    pub text: String,
}

/// A sink over another one that keeps the first parse errors, with their lines, and counts all. All calls are those of the sink below.
#[derive(Drop)]
pub struct FirstErrors<S: TreeSink + Drop> {
    sink: S,
    // The line of the current token. A tree builder reports it only from the second line on.
    line: u64,
    // No more than this number is kept.
    limit: usize,
    first: Vec<TreeMessage>,
    count: u64,
    // Set if an allocation failed for an error.
    is_lost: bool,
    alloc: Global,
}

impl<S: TreeSink + Drop> FirstErrors<S> {
    /// A sink over this one that keeps at most `limit` errors.
    pub fn new(alloc: Global, sink: S, limit: usize) -> FirstErrors<S> {
        FirstErrors {
            sink,
            line: 1,
            limit,
            first: Vec::new(alloc),
            count: 0,
            is_lost: false,
            alloc,
        }
    }

    /// The first errors, and the number of all; `None` if an allocation failed for one of the first.
    pub fn into_errors(self) -> Option<(Vec<TreeMessage>, u64)> {
        if self.is_lost {
            return None;
        }
        Some((self.first, self.count))
    }

    // Keeps an error, whose message begins with its name.
    fn keep(&mut self, message: &str) -> Result<(), AllocError>
        ensures { self.new.sink ≡ self.old.sink }
    {
        let (name, text) = message.split_once(": ").unwrap_or((message, ""));
        let name = String::from_str(self.alloc, name)?;
        let text = String::from_str(self.alloc, text)?;
        let line = self.line;
        self.first.push(TreeMessage { line, name, text })?;
        Ok(())
    }

    // Counts an error, and keeps it if it is one of the first.
    fn note(&mut self, message: &str)
        ensures { self.new.sink ≡ self.old.sink }
    {
        self.count = self.count.saturating_add(1);
        if self.first.len() < self.limit && self.keep(message).is_err() {
            self.is_lost = true;
        }
    }
}

impl<S: TreeSink + Drop> TreeSink for FirstErrors<S> {
    type Handle = S::Handle;

    type Output = S::Output;

    ghost sees = { λ s. S.sees s.sink };

    ghost node = { S.node };

    ghost choices = { S.choices };

    ghost told = { S.told };

    fn finish(self) -> S::Output {
        self.sink.finish()
    }

    fn parse_error(&mut self, message: &str) {
        self.note(message);
        self.sink.parse_error(message)
    }

    fn get_document(&self) -> S::Handle {
        self.sink.get_document()
    }

    fn elem_name<'a>(&'a self, target: &'a S::Handle) -> &'a QualName {
        self.sink.elem_name(target)
    }

    fn same_node(&self, x: &S::Handle, y: &S::Handle) -> bool {
        self.sink.same_node(x, y)
    }

    fn clone_handle(&self, handle: &S::Handle) -> S::Handle {
        self.sink.clone_handle(handle)
    }

    fn get_template_contents(&self, target: &S::Handle) -> S::Handle {
        self.sink.get_template_contents(target)
    }

    fn create_element(
        &mut self,
        name: QualName,
        attrs: Vec<Attribute>,
        flags: ElementFlags,
    ) -> Result<S::Handle, AllocError> {
        self.sink.create_element(name, attrs, flags)
    }

    fn create_comment(&mut self, text: String) -> Result<S::Handle, AllocError> {
        self.sink.create_comment(text)
    }

    fn create_pi(&mut self, target: String, data: String) -> Result<S::Handle, AllocError> {
        self.sink.create_pi(target, data)
    }

    fn append(&mut self, parent: &S::Handle, child: NodeOrText<S::Handle>) -> Result<(), AllocError>
        requires { CanAppend (S.sees self.old.sink).forest (S.node parent.now) (child_of S.node child) }
        ensures ok { OnOk result
            (S.sees self.new.sink ≡ after_append (S.node parent.now) (child_of S.node child) (S.sees self.old.sink)) }
        ensures err { OnErr result (S.sees self.new.sink ≡ S.sees self.old.sink) }
    {
        self.sink.append(parent, child)
    }

    fn append_before_sibling(
        &mut self,
        sibling: &S::Handle,
        child: NodeOrText<S::Handle>,
    ) -> Result<(), AllocError>
        requires { CanInsertBefore (S.sees self.old.sink).forest (S.node sibling.now) (child_of S.node child) }
        ensures ok { OnOk result
            (S.sees self.new.sink ≡ after_append_before (S.node sibling.now) (child_of S.node child) (S.sees self.old.sink)) }
        ensures err { OnErr result (S.sees self.new.sink ≡ S.sees self.old.sink) }
    {
        self.sink.append_before_sibling(sibling, child)
    }

    fn append_based_on_parent_node(
        &mut self,
        element: &S::Handle,
        prev: &S::Handle,
        child: NodeOrText<S::Handle>,
    ) -> Result<(), AllocError>
        requires { CanAppendBasedOnParent (S.sees self.old.sink).forest (S.node element.now) (S.node prev.now) (child_of S.node child) }
        ensures ok { OnOk result
            (S.sees self.new.sink ≡ after_append_by (S.node element.now) (S.node prev.now) (child_of S.node child) (S.sees self.old.sink)) }
        ensures err { OnErr result (S.sees self.new.sink ≡ S.sees self.old.sink) }
    {
        self.sink.append_based_on_parent_node(element, prev, child)
    }

    fn append_doctype_to_document(
        &mut self,
        name: String,
        public_id: String,
        system_id: String,
    ) -> Result<(), AllocError> {
        self.sink
            .append_doctype_to_document(name, public_id, system_id)
    }

    fn add_attrs_if_missing(
        &mut self,
        target: &S::Handle,
        attrs: Vec<Attribute>,
    ) -> Result<(), AllocError> {
        self.sink.add_attrs_if_missing(target, attrs)
    }

    fn remove_from_parent(&mut self, target: &S::Handle) -> Result<(), AllocError> {
        self.sink.remove_from_parent(target)
    }

    fn reparent_children(&mut self, from: &S::Handle, to: &S::Handle) -> Result<(), AllocError> {
        self.sink.reparent_children(from, to)
    }

    fn mark_script_already_started(&mut self, script: &S::Handle) {
        self.sink.mark_script_already_started(script)
    }

    fn pop(&mut self, element: &S::Handle) {
        self.sink.pop(element)
    }

    fn associate_with_form(
        &mut self,
        target: &S::Handle,
        form: &S::Handle,
        nodes: (&S::Handle, Option<&S::Handle>),
    ) {
        self.sink.associate_with_form(target, form, nodes)
    }

    fn set_quirks_mode(&mut self, mode: QuirksMode) {
        self.sink.set_quirks_mode(mode)
    }

    fn set_current_line(&mut self, line: u64) {
        self.line = line;
        self.sink.set_current_line(line)
    }

    fn is_mathml_annotation_xml_integration_point(&self, target: &S::Handle) -> bool {
        self.sink.is_mathml_annotation_xml_integration_point(target)
    }

    fn allow_declarative_shadow_roots(&self, parent: &S::Handle) -> bool {
        self.sink.allow_declarative_shadow_roots(parent)
    }

    fn attach_declarative_shadow(
        &mut self,
        host: &S::Handle,
        template: &S::Handle,
        attrs: &[Attribute],
    ) -> Result<bool, AllocError> {
        self.sink.attach_declarative_shadow(host, template, attrs)
    }

    fn maybe_clone_an_option_into_selectedcontent(
        &mut self,
        option: &S::Handle,
    ) -> Result<(), AllocError> {
        self.sink.maybe_clone_an_option_into_selectedcontent(option)
    }
}
