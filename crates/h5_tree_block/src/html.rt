//! Serializes a node of a block as HTML.
ghost use Rattle.std.specs.Prelude.{◌≡◌, ◌≤◌, [], ◌∷◌, IfOk, OnOk, reverse};
ghost use Rattle.h5_names.specs.AttributeText.{attribute_text, attribute_texts};
ghost use Rattle.h5_serialize.specs.Call.{StartOf};
ghost use Rattle.h5_arena.specs.Html.{opts_for};
ghost use Rattle.h5_tree_block.specs.Block as b;
ghost use Rattle.h5_tree_block.specs.Html as h;
ghost use Rattle.h5_tree_block.specs.Read as r;

use super::numbers::{
    COMMENT, DOCTYPE, ELEMENT, INSTRUCTION, NOTHING, TEXT, namespace_url, prefix_text,
};
use super::view::View;
use h5_names::{Attribute, LocalName, Namespace, Prefix, QualName};
use h5_serialize::{HtmlSerializer, SerializeFault, SerializeOpts, Serializer, TraversalScope};
use std::alloc::{AllocError, Global};

type Html = HtmlSerializer<Vec<u8>>;

impl<'a> View<'a> {
    /// The text of a text node, or the text below another node.
    #[tactic(auto, unfolding(crate::specs::Read::text_of))]
    pub(crate) fn text_of(&self, node: u32) -> &'a str
        ensures { result.now ≡ r.text_of self.now.block.now node }
    {
        match self.text(node) {
            Some(span) => self.str_at(span),
            None => "",
        }
    }

    /// The value of a row.
    #[tactic(auto, unfolding(crate::specs::Read::value_of))]
    pub(crate) fn value_of(&self, node: u32, index: u32) -> &'a str
        ensures { result.now ≡ r.value_of self.now.block.now node index }
    {
        match self.row(node, index) {
            Some(row) => self.str_at(row.value),
            None => "",
        }
    }

    fn prefix_of(&self, alloc: Global, name: u32) -> Result<Option<Prefix>, AllocError>
        ensures { IfOk result (λ prefix. prefix ≡ r.prefix_named (b.prefix_in self.now.block.now name)) }
    {
        match prefix_text(self.prefix(name)) {
            Some(text) => Ok(Some(Prefix::new(alloc, text)?)),
            None => Ok(None),
        }
    }

    // The local name of a name.
    pub(crate) fn local_of(&self, name: u32) -> &'a str
        ensures { result.now ≡ r.local_of self.now.block.now name }
    {
        match self.name_text(name) {
            Some(span) => self.str_at(span),
            None => "",
        }
    }

    /// The name with this number.
    #[tactic(auto, unfolding(crate::specs::Read::name_of))]
    pub(crate) fn qual_name(&self, alloc: Global, name: u32) -> Result<QualName, AllocError>
        ensures { IfOk result (λ result. result ≡ r.name_of self.now.block.now name) }
    {
        let prefix = self.prefix_of(alloc, name)?;
        let ns = Namespace::new(alloc, namespace_url(self.namespace(name)))?;
        let local = LocalName::new(alloc, self.local_of(name))?;
        Ok(QualName::new(prefix, ns, local))
    }

    // The number of a row's name.
    pub(crate) fn row_name(&self, node: u32, index: u32) -> u32
        ensures { result ≡ r.row_name_of self.now.block.now node index }
    {
        match self.row(node, index) {
            Some(row) => row.name,
            None => NOTHING,
        }
    }

    #[tactic(auto, unfolding(crate::specs::Read::attribute_of))]
    fn attribute(&self, alloc: Global, node: u32, index: u32) -> Result<Attribute, AllocError>
        ensures { IfOk result (λ attribute. attribute_text attribute ≡ r.attribute_of self.now.block.now node index) }
    {
        Ok(Attribute {
            name: self.qual_name(alloc, self.row_name(node, index))?,
            value: String::from_str(alloc, self.value_of(node, index))?,
        })
    }

    /// The attributes of an element.
    pub(crate) fn attributes(&self, alloc: Global, node: u32) -> Result<Vec<Attribute>, AllocError>
        ensures { IfOk result (λ attrs. attribute_texts attrs.items ≡ r.attributes_of self.now.block.now node) }
    {
        let mut attrs = Vec::new(alloc);
        for index in 0..self.row_count(node) {
            attrs.push(self.attribute(alloc, node, index)?)?;
        }
        Ok(attrs)
    }

    fn start(&self, alloc: Global, node: u32, html: &mut Html) -> Result<(), SerializeFault>
        ensures { OnOk result (h.AreTold (StartOf (r.name_of self.now.block.now (b.name_in self.now.block.now node)) (r.attributes_of self.now.block.now node) ∷ []) html.old html.new) }
    {
        let attrs = self.attributes(alloc, node)?;
        html.start_elem(self.qual_name(alloc, self.name(node))?, attrs.iter())
    }

    // Writes the start of an element, or all of another node.
    fn begin(&self, alloc: Global, node: u32, html: &mut Html) -> Result<(), SerializeFault>
        ensures { OnOk result (h.AreTold (h.begin_calls self.now.block.now node) html.old html.new) }
    {
        match self.kind(node) {
            ELEMENT => self.start(alloc, node, html),
            TEXT => html.write_text(self.text_of(node)),
            COMMENT => html.write_comment(self.value_of(node, 0)),
            DOCTYPE => html.write_doctype(self.value_of(node, 0)),
            INSTRUCTION => {
                html.write_processing_instruction(self.value_of(node, 0), self.value_of(node, 1))
            }
            _ => Ok(()),
        }
    }

    fn close(&self, alloc: Global, node: u32, html: &mut Html) -> Result<(), SerializeFault>
        ensures { OnOk result (h.AreTold (h.end_calls self.now.block.now node) html.old html.new) }
    {
        if self.kind(node) == ELEMENT {
            return html.end_elem(self.qual_name(alloc, self.name(node))?);
        }
        Ok(())
    }

    // Ends the open nodes that end before a node.
    fn close_before(
        &self,
        alloc: Global,
        begun: &mut Vec<u32>,
        node: u32,
        html: &mut Html,
    ) -> Result<(), SerializeFault>
        ensures told { OnOk result (h.AreTold (h.ends_before self.now.block.now node (reverse begun.old.items)) html.old html.new) }
        ensures left { OnOk result (reverse begun.new.items ≡ h.open_at self.now.block.now node (reverse begun.old.items)) }
    {
        for _step in 0..begun.len() {
            let Some(last) = begun.pop() else {
                return Ok(());
            };
            if self.end(last) > node {
                begun.push(last)?;
                return Ok(());
            }
            self.close(alloc, last, html)?;
        }
        Ok(())
    }

    // Writes the nodes from one up to another.
    fn write(
        &self,
        alloc: Global,
        from: u32,
        to: u32,
        html: &mut Html,
    ) -> Result<(), SerializeFault>
        requires { from ≤ to }
        ensures { OnOk result (h.AreTold (h.calls_of self.now.block.now from to) html.old html.new) }
    {
        let mut begun: Vec<u32> = Vec::new(alloc);
        for node in from..to {
            self.close_before(alloc, &mut begun, node, html)?;
            self.begin(alloc, node, html)?;
            begun.push(node)?;
        }
        self.close_before(alloc, &mut begun, to, html)
    }

    // Writes a node with its subtree, or only its subtree.
    #[tactic(auto, unfolding(crate::specs::Html::calls_in))]
    fn write_node(
        &self,
        alloc: Global,
        node: u32,
        is_outer: bool,
        html: &mut Html,
    ) -> Result<(), SerializeFault>
        ensures { OnOk result (h.AreTold (h.calls_in self.now.block.now node is_outer) html.old html.new) }
    {
        if node >= self.node_count() {
            return Ok(());
        }
        let from = if is_outer { node } else { node + 1 };
        self.write(alloc, from, self.end(node), html)
    }

    // The options for a node, or for its subtree only.
    #[tactic(auto, unfolding(crate::specs::Html::scope_in))]
    fn options(&self, alloc: Global, node: u32, is_outer: bool) -> Result<SerializeOpts, AllocError>
        ensures { IfOk result (λ opts. opts ≡ opts_for (h.scope_in self.now.block.now node is_outer) (b.is_scripting_in self.now.block.now)) }
    {
        let mut opts = SerializeOpts {
            scripting_enabled: self.is_scripting(),
            ..SerializeOpts::default()
        };
        if !is_outer && self.kind(node) == ELEMENT {
            let parent = self.qual_name(alloc, self.name(node))?;
            opts.traversal_scope = TraversalScope::ChildrenOnly(Some(parent));
        }
        Ok(opts)
    }

    fn html(&self, alloc: Global, node: u32, is_outer: bool) -> Result<Vec<u8>, SerializeFault>
        ensures { IfOk result (λ html. html.items ≡ h.html_of self.now.block.now node is_outer) }
    {
        let opts = self.options(alloc, node, is_outer)?;
        let mut html = HtmlSerializer::new(alloc, Vec::new(alloc), opts)?;
        self.write_node(alloc, node, is_outer, &mut html)?;
        Ok(html.writer)
    }
}

/// Returns the HTML of a node, or only of its content (HTML standard, section 13.3, "Serializing HTML fragments"); nothing if there is no
/// such node. Fails with `AllocError` if an allocation fails.
pub fn html_of(
    alloc: Global,
    view: &View<'_>,
    node: u32,
    is_outer: bool,
) -> Result<Vec<u8>, AllocError>
    ensures { IfOk result (λ html. html.items ≡ h.html_of view.now.block.now node is_outer) }
{
    match view.html(alloc, node, is_outer) {
        Ok(html) => Ok(html),
        Err(_) => Err(AllocError),
    }
}
