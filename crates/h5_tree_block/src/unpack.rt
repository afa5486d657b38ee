//! Makes an arena from a block.
ghost use Rattle.std.specs.Prelude.{◌≡◌, IfOk, IfSome, Some, map};
ghost use Rattle.h5_tree_block.specs.SameTree.{IsTreeOf, quirks_named};
ghost use Rattle.h5_tree_block.specs.Unpacked.{id_of};

use super::numbers::{COMMENT, DOCTYPE, DOCUMENT, ELEMENT, FRAGMENT, INSTRUCTION, TEXT, short};
use super::view::View;
use h5_arena::{Arena, Child, EditError, NodeId};
use h5_interface::{NodeOrText, QuirksMode, TreeSink, create_element};
use h5_names::{LocalName, Namespace, QualName, namespaces};
use std::alloc::{AllocError, Global};

/// A tree made from a block. In a fragment, the nodes below node 0 are below an `html` element, as a parser makes it.
#[derive(Drop)]
pub struct Unpacked {
    pub arena: Arena,
    // For each number, the node of the arena. A text has none.
    ids: Vec<Option<NodeId>>,
}

fn quirks_of(number: u32) -> QuirksMode
    ensures { result ≡ quirks_named number }
{
    match number {
        1 => QuirksMode::LimitedQuirks,
        2 => QuirksMode::Quirks,
        _ => QuirksMode::NoQuirks,
    }
}

impl Unpacked {
    /// The node with this number. `None` for a text, and if there is no such node.
    pub fn id(&self, node: u32) -> Option<NodeId>
        ensures { result ≡ id_of self.now node }
    {
        self.ids.as_slice().get(node as usize).copied().flatten()
    }

    /// Returns the numbers of nodes, or `None` if one of them has no number, or if they aren't in tree order.
    pub fn numbers(&self, alloc: Global, found: &[NodeId]) -> Result<Option<Vec<u32>>, AllocError>
        ensures { IfOk result (λ numbers. IfSome numbers (λ numbers. map (id_of self.now) numbers.items ≡ map Some found.now)) }
    {
        let mut numbers = Vec::new(alloc);
        let mut left = found;
        for at in 0..self.ids.len() {
            if let Some((first, rest)) = left.split_first() {
                let number = short(at)?;
                if self.id(number) == Some(*first) {
                    numbers.push(number)?;
                    left = rest;
                }
            }
        }
        Ok(left.is_empty().then_some(numbers))
    }

    // Makes the root element of a fragment.
    fn make_root(&mut self, alloc: Global) -> Result<NodeId, AllocError> {
        let ns = Namespace::new(alloc, namespaces::HTML)?;
        let name = QualName::new(None, ns, LocalName::new(alloc, "html")?);
        create_element(&mut self.arena, name, Vec::new(alloc))
    }

    // The contents of the template that a fragment belongs to, or a root if it belongs to none.
    fn make_fragment(
        &mut self,
        alloc: Global,
        parent: Option<NodeId>,
    ) -> Result<Option<NodeId>, AllocError> {
        match parent {
            Some(parent) if self.arena.holds(parent) => Ok(self.arena.contents(parent)),
            _ => Ok(Some(self.make_root(alloc)?)),
        }
    }

    fn make_element(
        &mut self,
        alloc: Global,
        view: &View<'_>,
        node: u32,
    ) -> Result<NodeId, AllocError> {
        let name = view.qual_name(alloc, view.name(node))?;
        let attrs = view.attributes(alloc, node)?;
        create_element(&mut self.arena, name, attrs)
    }

    fn make_instruction(
        &mut self,
        alloc: Global,
        view: &View<'_>,
        node: u32,
    ) -> Result<NodeId, AllocError> {
        let target = String::from_str(alloc, view.value_of(node, 0))?;
        let text = String::from_str(alloc, view.value_of(node, 1))?;
        self.arena.create_pi(target, text)
    }

    // Makes a doctype, which is then the document's last child.
    fn make_doctype(
        &mut self,
        alloc: Global,
        view: &View<'_>,
        node: u32,
    ) -> Result<Option<NodeId>, AllocError> {
        let name = String::from_str(alloc, view.value_of(node, 0))?;
        let public_id = String::from_str(alloc, view.value_of(node, 1))?;
        let system_id = String::from_str(alloc, view.value_of(node, 2))?;
        self.arena
            .append_doctype_to_document(name, public_id, system_id)?;
        match self.arena.last_child(self.arena.document()) {
            Some(Child::Node(id)) => Ok(Some(*id)),
            _ => Ok(None),
        }
    }

    // Makes the node of a number. A text is inserted where it belongs, and has no node.
    fn make(
        &mut self,
        alloc: Global,
        view: &View<'_>,
        node: u32,
    ) -> Result<Option<NodeId>, AllocError> {
        let parent = self.id(view.parent(node));
        match view.kind(node) {
            DOCUMENT => Ok(Some(self.arena.document())),
            FRAGMENT => self.make_fragment(alloc, parent),
            ELEMENT => Ok(Some(self.make_element(alloc, view, node)?)),
            INSTRUCTION => Ok(Some(self.make_instruction(alloc, view, node)?)),
            COMMENT => {
                let text = String::from_str(alloc, view.value_of(node, 0))?;
                Ok(Some(self.arena.create_comment(text)?))
            }
            DOCTYPE => self.make_doctype(alloc, view, node),
            TEXT => {
                let text = String::from_str(alloc, view.text_of(node))?;
                self.append(parent, NodeOrText::AppendText(text))?;
                Ok(None)
            }
            _ => Ok(None),
        }
    }

    // Appends a child to its parent, if it is allowed there.
    fn append(
        &mut self,
        parent: Option<NodeId>,
        child: NodeOrText<NodeId>,
    ) -> Result<(), AllocError> {
        let Some(parent) = parent else {
            return Ok(());
        };
        match self.arena.try_append(parent, child) {
            Err(EditError::Memory) => Err(AllocError),
            _ => Ok(()),
        }
    }

    // Appends the node of a number to its parent, except a doctype, which is there already. Its subtree is complete, and its parent isn't
    // attached yet, so each walk up is short.
    fn attach(&mut self, view: &View<'_>, node: u32) -> Result<(), AllocError> {
        let Some(child) = self.id(node) else {
            return Ok(());
        };
        if view.kind(node) == DOCTYPE {
            return Ok(());
        }
        if node == 0 {
            let document = self.arena.document();
            return self.append(Some(document), NodeOrText::AppendNode(child));
        }
        self.append(self.id(view.parent(node)), NodeOrText::AppendNode(child))
    }

    // Attaches the open nodes that end before a node.
    fn attach_before(
        &mut self,
        view: &View<'_>,
        open: &mut Vec<u32>,
        node: u32,
    ) -> Result<(), AllocError> {
        for _ in 0..open.len() {
            match open.pop() {
                Some(last) if view.end(last) <= node => self.attach(view, last)?,
                Some(last) => {
                    open.push(last)?;
                    return Ok(());
                }
                None => return Ok(()),
            }
        }
        Ok(())
    }

    fn add_all(&mut self, alloc: Global, view: &View<'_>) -> Result<(), AllocError> {
        let mut open: Vec<u32> = Vec::new(alloc);
        for node in 0..view.node_count() {
            self.attach_before(view, &mut open, node)?;
            let id = self.make(alloc, view, node)?;
            self.ids.push(id)?;
            open.push(node)?;
        }
        self.attach_before(view, &mut open, view.node_count())
    }
}

/// Returns the tree of a block in an arena, or `None` if the block has no tree. Fails with `AllocError` if an allocation fails.
///
/// The tree is made and then compared with the block, so a tree that is returned is that of the block, for any bytes.
pub fn arena_of(alloc: Global, view: &View<'_>) -> Result<Option<Unpacked>, AllocError>
    ensures { IfOk result (λ made. IfSome made (IsTreeOf view.now.block.now)) }
{
    let mut unpacked = Unpacked {
        arena: Arena::without_errors(alloc)?,
        ids: Vec::new(alloc),
    };
    unpacked.add_all(alloc, view)?;
    unpacked.arena.set_quirks_mode(quirks_of(view.quirks()));
    if unpacked.are_nodes_same(view) && unpacked.is_root_right(view) {
        Ok(Some(unpacked))
    } else {
        Ok(None)
    }
}
