//! A lawful sink with one failing allocation.
ghost use Rattle.std.specs.Prelude.{◌≡◌, IfOk, OnOk, OnErr};
ghost use Rattle.h5_interface.specs.Seen.{CanAppend, CanAppendBasedOnParent, CanInsertBefore, after_append, after_append_before, after_append_by, child_of};

use h5_interface::{ElementFlags, NodeOrText, QuirksMode, TreeSink};
use h5_names::{Attribute, QualName};
use std::alloc::AllocError;

/// A sink over another, one call of which fails with `AllocError`: the call that returns a `Result` after the given number of others. This
/// call changes nothing. All other calls, also later ones, are those of the sink below.
///
/// It also counts the calls of `pop`.
#[derive(Drop)]
pub struct Starved<S: TreeSink + Drop> {
    sink: S,
    before: usize,
    refused: bool,
    pops: usize,
}

impl<S: TreeSink + Drop> Starved<S> {
    /// A sink over this one. Its call after `before` others that return a `Result` fails.
    pub fn new(sink: S, before: usize) -> Starved<S>
        ensures { result.sink ≡ sink }
    {
        Starved {
            sink,
            before,
            refused: false,
            pops: 0,
        }
    }

    /// The sink below.
    pub fn below(&self) -> &S
        ensures { result.now ≡ self.now.sink }
    {
        &self.sink
    }

    /// Returns true if a call has failed.
    pub fn was_refused(&self) -> bool
        ensures { result ≡ self.now.refused }
    {
        self.refused
    }

    /// The number of calls of `pop`.
    pub fn pops(&self) -> usize
        ensures { result ≡ self.now.pops }
    {
        self.pops
    }

    // Returns true if the current call is the one that fails.
    fn refuses(&mut self) -> bool
        ensures { self.new.sink ≡ self.old.sink }
    {
        if self.before == 0 && !self.refused {
            self.refused = true;
            return true;
        }
        self.before = self.before.saturating_sub(1);
        false
    }
}

impl<S: TreeSink + Drop> TreeSink for Starved<S> {
    type Handle = S::Handle;

    type Output = S::Output;

    ghost sees = { λ s. S.sees s.sink };

    ghost node = { S.node };

    ghost choices = { S.choices };

    ghost told = { S.told };

    fn finish(self) -> S::Output {
        self.sink.finish()
    }

    fn parse_error(&mut self, message: &str) {
        self.sink.parse_error(message)
    }

    fn get_document(&self) -> S::Handle {
        self.sink.get_document()
    }

    fn elem_name<'a>(&'a self, target: &'a S::Handle) -> &'a QualName {
        self.sink.elem_name(target)
    }

    fn same_node(&self, x: &S::Handle, y: &S::Handle) -> bool {
        self.sink.same_node(x, y)
    }

    fn clone_handle(&self, handle: &S::Handle) -> S::Handle {
        self.sink.clone_handle(handle)
    }

    fn get_template_contents(&self, target: &S::Handle) -> S::Handle {
        self.sink.get_template_contents(target)
    }

    fn create_element(
        &mut self,
        name: QualName,
        attrs: Vec<Attribute>,
        flags: ElementFlags,
    ) -> Result<S::Handle, AllocError> {
        if self.refuses() {
            return Err(AllocError);
        }
        self.sink.create_element(name, attrs, flags)
    }

    fn create_comment(&mut self, text: String) -> Result<S::Handle, AllocError> {
        if self.refuses() {
            return Err(AllocError);
        }
        self.sink.create_comment(text)
    }

    fn create_pi(&mut self, target: String, data: String) -> Result<S::Handle, AllocError> {
        if self.refuses() {
            return Err(AllocError);
        }
        self.sink.create_pi(target, data)
    }

    fn append(&mut self, parent: &S::Handle, child: NodeOrText<S::Handle>) -> Result<(), AllocError>
        requires { CanAppend (S.sees self.old.sink).forest (S.node parent.now) (child_of S.node child) }
        ensures ok { OnOk result
            (S.sees self.new.sink ≡ after_append (S.node parent.now) (child_of S.node child) (S.sees self.old.sink)) }
        ensures err { OnErr result (S.sees self.new.sink ≡ S.sees self.old.sink) }
    {
        if self.refuses() {
            return Err(AllocError);
        }
        self.sink.append(parent, child)
    }

    fn append_before_sibling(
        &mut self,
        sibling: &S::Handle,
        child: NodeOrText<S::Handle>,
    ) -> Result<(), AllocError>
        requires { CanInsertBefore (S.sees self.old.sink).forest (S.node sibling.now) (child_of S.node child) }
        ensures ok { OnOk result
            (S.sees self.new.sink ≡ after_append_before (S.node sibling.now) (child_of S.node child) (S.sees self.old.sink)) }
        ensures err { OnErr result (S.sees self.new.sink ≡ S.sees self.old.sink) }
    {
        if self.refuses() {
            return Err(AllocError);
        }
        self.sink.append_before_sibling(sibling, child)
    }

    fn append_based_on_parent_node(
        &mut self,
        element: &S::Handle,
        prev: &S::Handle,
        child: NodeOrText<S::Handle>,
    ) -> Result<(), AllocError>
        requires { CanAppendBasedOnParent (S.sees self.old.sink).forest (S.node element.now) (S.node prev.now) (child_of S.node child) }
        ensures ok { OnOk result
            (S.sees self.new.sink ≡ after_append_by (S.node element.now) (S.node prev.now) (child_of S.node child) (S.sees self.old.sink)) }
        ensures err { OnErr result (S.sees self.new.sink ≡ S.sees self.old.sink) }
    {
        if self.refuses() {
            return Err(AllocError);
        }
        self.sink.append_based_on_parent_node(element, prev, child)
    }

    fn append_doctype_to_document(
        &mut self,
        name: String,
        public_id: String,
        system_id: String,
    ) -> Result<(), AllocError> {
        if self.refuses() {
            return Err(AllocError);
        }
        self.sink
            .append_doctype_to_document(name, public_id, system_id)
    }

    fn add_attrs_if_missing(
        &mut self,
        target: &S::Handle,
        attrs: Vec<Attribute>,
    ) -> Result<(), AllocError> {
        if self.refuses() {
            return Err(AllocError);
        }
        self.sink.add_attrs_if_missing(target, attrs)
    }

    fn remove_from_parent(&mut self, target: &S::Handle) -> Result<(), AllocError> {
        if self.refuses() {
            return Err(AllocError);
        }
        self.sink.remove_from_parent(target)
    }

    fn reparent_children(&mut self, from: &S::Handle, to: &S::Handle) -> Result<(), AllocError> {
        if self.refuses() {
            return Err(AllocError);
        }
        self.sink.reparent_children(from, to)
    }

    fn mark_script_already_started(&mut self, script: &S::Handle) {
        self.sink.mark_script_already_started(script)
    }

    fn pop(&mut self, element: &S::Handle) {
        self.pops = self.pops.saturating_add(1);
        self.sink.pop(element)
    }

    fn associate_with_form(
        &mut self,
        target: &S::Handle,
        form: &S::Handle,
        nodes: (&S::Handle, Option<&S::Handle>),
    ) {
        self.sink.associate_with_form(target, form, nodes)
    }

    fn set_quirks_mode(&mut self, mode: QuirksMode) {
        self.sink.set_quirks_mode(mode)
    }

    fn set_current_line(&mut self, line: u64) {
        self.sink.set_current_line(line)
    }

    fn is_mathml_annotation_xml_integration_point(&self, target: &S::Handle) -> bool {
        self.sink.is_mathml_annotation_xml_integration_point(target)
    }

    fn allow_declarative_shadow_roots(&self, parent: &S::Handle) -> bool {
        self.sink.allow_declarative_shadow_roots(parent)
    }

    fn attach_declarative_shadow(
        &mut self,
        host: &S::Handle,
        template: &S::Handle,
        attrs: &[Attribute],
    ) -> Result<bool, AllocError> {
        if self.refuses() {
            return Err(AllocError);
        }
        self.sink.attach_declarative_shadow(host, template, attrs)
    }

    fn maybe_clone_an_option_into_selectedcontent(
        &mut self,
        option: &S::Handle,
    ) -> Result<(), AllocError> {
        if self.refuses() {
            return Err(AllocError);
        }
        self.sink.maybe_clone_an_option_into_selectedcontent(option)
    }
}
