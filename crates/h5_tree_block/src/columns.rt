//! A serializer that stores the nodes of a walk in columns.
ghost use Rattle.std.specs.Prelude.{◌≡◌, List, IfOk, OnOk, length, map};
ghost use Rattle.std.specs.Iterator.{Drains, IsFinite};
ghost use Rattle.h5_serialize.specs.Call.{StartOf};
ghost use Rattle.h5_tree_block.specs.Block as b;
ghost use Rattle.h5_tree_block.specs.Columns as c;
ghost use Rattle.h5_tree_block.specs.Columns.{held};
ghost use Rattle.h5_tree_block.specs.Packed.{ended_word, word_of};

use super::names::Names;
use super::numbers::{
    COMMENT, DOCTYPE, ELEMENT, FRAGMENT, INSTRUCTION, KINDS, NOTHING, TEXT, short,
};
use h5_names::QualName;
use h5_serialize::{AttrRef, SerializeFault, Serializer};
use std::alloc::{AllocError, Global};

/// A node of a tree, as words.
#[derive(Clone, Copy)]
pub(crate) struct FlatNode {
    // The kind, with the number of an element's name in the upper bits.
    pub(crate) kind: u32,
    pub(crate) parent: u32,
    // The first node after the subtree.
    pub(crate) end: u32,
    // The offset of the texts from this node on, and the index of its first row.
    pub(crate) text: u32,
    pub(crate) row: u32,
}

/// A word of a node.
#[derive(Clone, Copy)]
pub(crate) enum NodeWord {
    Kind,
    Parent,
    End,
    Text,
    Row,
}

impl FlatNode {
    pub(crate) fn word(&self, which: NodeWord) -> u32
        ensures { result ≡ word_of which self.now }
    {
        match which {
            NodeWord::Kind => self.kind,
            NodeWord::Parent => self.parent,
            NodeWord::End => self.end,
            NodeWord::Text => self.text,
            NodeWord::Row => self.row,
        }
    }
}

/// A row or a name: a word about it, and the end of its bytes.
#[derive(Clone, Copy)]
pub(crate) struct Ended {
    pub(crate) word: u32,
    pub(crate) end: u32,
}

/// A word of a row or a name.
#[derive(Clone, Copy)]
pub(crate) enum EndedWord {
    About,
    End,
}

impl Ended {
    pub(crate) fn get(&self, which: EndedWord) -> u32
        ensures { result ≡ ended_word which self.now }
    {
        match which {
            EndedWord::About => self.word,
            EndedWord::End => self.end,
        }
    }
}

/// The nodes of a tree, in tree order.
#[derive(Drop)]
pub struct Columns {
    // The quirks mode, and whether the tree was parsed with scripting.
    pub(crate) mode: u32,
    pub(crate) nodes: Vec<FlatNode>,
    // For each row, the number of its name, and the end of its value.
    pub(crate) rows: Vec<Ended>,
    pub(crate) names: Names,
    pub(crate) values: Vec<u8>,
    pub(crate) text: Vec<u8>,
    // The parent of the next nodes.
    current: u32,
    // The identifiers of the next doctype, which the calls don't have.
    public_id: Vec<u8>,
    system_id: Vec<u8>,
}

// Returns true if the children of an element are in its template contents.
fn is_template(name: &QualName) -> bool
    ensures { result ≡ c.is_template name.now }
{
    name.ns.is_html() && name.local.as_str() == "template"
}

impl Columns {
    /// Empty columns, with the identifiers of the next doctype.
    #[tactic(auto, unfolding(crate::specs::Columns::held))]
    pub(crate) fn new(
        alloc: Global,
        mode: u32,
        public_id: &str,
        system_id: &str,
    ) -> Result<Columns, AllocError>
        ensures { IfOk result (λ columns. held columns ≡ c.nothing_held mode (record { public_id = public_id.now; system_id = system_id.now })) }
    {
        Ok(Columns {
            mode,
            nodes: Vec::new(alloc),
            rows: Vec::new(alloc),
            names: Names::new(alloc)?,
            values: Vec::new(alloc),
            text: Vec::new(alloc),
            current: NOTHING,
            public_id: Vec::from_slice(alloc, public_id.as_bytes())?,
            system_id: Vec::from_slice(alloc, system_id.as_bytes())?,
        })
    }

    // The number of a name. A new name gets the next number.
    #[tactic(auto, unfolding(crate::specs::Columns::held, crate::specs::Columns::named))]
    fn number(&mut self, name: &QualName) -> Result<u32, AllocError>
        ensures number { IfOk result (λ number. number ≡ c.number_of (held self.old).names.met name.now) }
        ensures named { OnOk result (held self.new ≡ c.named name.now (held self.old)) }
    {
        self.names.number(name)
    }

    // Adds a node below the current one, with nothing below it.
    #[tactic(auto, unfolding(crate::specs::Columns::held, crate::specs::Columns::with_node))]
    fn add(&mut self, kind: u32) -> Result<u32, AllocError>
        ensures index { IfOk result (λ index. index ≡ length self.old.nodes.items) }
        ensures node { OnOk result (held self.new ≡ c.with_node kind (held self.old)) }
    {
        let index = short(self.nodes.len())?;
        self.nodes.push(FlatNode {
            kind,
            parent: self.current,
            end: index + 1,
            text: short(self.text.len())?,
            row: short(self.rows.len())?,
        })?;
        Ok(index)
    }

    /// Adds a node that becomes the parent of the next ones.
    #[tactic(auto, unfolding(crate::specs::Columns::held, crate::specs::Columns::opened))]
    pub(crate) fn open(&mut self, kind: u32) -> Result<(), AllocError>
        ensures { OnOk result (held self.new ≡ c.opened kind (held self.old)) }
    {
        self.current = self.add(kind)?;
        Ok(())
    }

    /// Ends the current node.
    #[tactic(auto, unfolding(crate::specs::Columns::held, crate::specs::Columns::closed))]
    pub(crate) fn close(&mut self) -> Result<(), AllocError>
        ensures { OnOk result (held self.new ≡ c.closed (held self.old)) }
    {
        let end = short(self.nodes.len())?;
        let current = self.current as usize;
        if current < self.nodes.len() {
            self.nodes[current].end = end;
            self.current = self.nodes[current].parent;
        }
        Ok(())
    }

    // Adds a row to the newest node.
    #[tactic(auto, unfolding(crate::specs::Columns::held, crate::specs::Columns::with_row, crate::specs::Columns::with_text))]
    fn add_row(&mut self, name: u32, value: &[u8]) -> Result<(), AllocError>
        ensures { OnOk result (held self.new ≡ c.with_row name value.now (held self.old)) }
    {
        self.values.extend_from_slice(value)?;
        let end = short(self.values.len())?;
        self.rows.push(Ended { word: name, end })?;
        Ok(())
    }

    #[tactic(auto, unfolding(crate::specs::Columns::element_opened))]
    fn open_element(&mut self, name: &QualName) -> Result<(), AllocError>
        ensures { OnOk result (held self.new ≡ c.element_opened name.now (held self.old)) }
    {
        let number = self.number(name)?;
        if number >= NOTHING / KINDS {
            return Err(AllocError);
        }
        self.open(number * KINDS + ELEMENT)
    }

    #[tactic(auto, unfolding(crate::specs::Columns::with_attribute))]
    fn add_attribute<T: AttrRef>(&mut self, attr: &T) -> Result<(), AllocError>
        ensures { OnOk result (held self.new ≡ c.with_attribute (held self.old) (T.attribute attr.now)) }
    {
        let number = self.number(attr.name())?;
        self.add_row(number, attr.value().as_bytes())
    }

    fn add_attributes<T: AttrRef, I: Iterator<Item = T> + Drop>(
        &mut self,
        attrs: I,
    ) -> Result<(), AllocError>
        requires can { I.can_next attrs }
        requires ends { IsFinite (I.remaining attrs) }
        ensures { OnOk result ((all : List _) × Drains I.next_gives attrs all
            × (held self.new ≡ c.with_attributes (held self.old) (map T.attribute all))) }
    {
        for attr in attrs {
            self.add_attribute(&attr)?;
        }
        Ok(())
    }

    // The content of a template is below its contents.
    #[tactic(auto, unfolding(crate::specs::Columns::contents_opened))]
    fn open_contents(&mut self, name: &QualName) -> Result<(), AllocError>
        ensures { OnOk result (held self.new ≡ c.contents_opened name.now (held self.old)) }
    {
        if is_template(name) {
            self.open(FRAGMENT)?;
        }
        Ok(())
    }

    // Adds the start of an element.
    fn start<T: AttrRef, I: Iterator<Item = T> + Drop>(
        &mut self,
        name: &QualName,
        attrs: I,
    ) -> Result<(), AllocError>
        requires can { I.can_next attrs }
        requires ends { IsFinite (I.remaining attrs) }
        ensures { OnOk result ((all : List _) × Drains I.next_gives attrs all
            × (held self.new ≡ c.after_call (held self.old) (StartOf name.now (map T.attribute all)))) }
    {
        self.open_element(name)?;
        self.add_attributes(attrs)?;
        self.open_contents(name)
    }

    #[tactic(auto, unfolding(crate::specs::Columns::element_closed))]
    fn close_element(&mut self, name: &QualName) -> Result<(), AllocError>
        ensures { OnOk result (held self.new ≡ c.element_closed name.now (held self.old)) }
    {
        if is_template(name) {
            self.close()?;
        }
        self.close()
    }

    // Takes the identifiers of the next doctype. Any other doctype has none.
    #[tactic(auto, unfolding(crate::specs::Columns::held))]
    fn take_ids(&mut self) -> (Vec<u8>, Vec<u8>)
        ensures public_id { result.0.items ≡ (held self.old).ids.public_id }
        ensures system_id { result.1.items ≡ (held self.old).ids.system_id }
        ensures rest { held self.new ≡ record (held self.old) { ids = c.no_ids } }
    {
        let alloc = *self.values.allocator();
        let public_id = std::mem::replace(&mut self.public_id, Vec::new(alloc));
        let system_id = std::mem::replace(&mut self.system_id, Vec::new(alloc));
        (public_id, system_id)
    }

    // Adds the identifiers of the doctype as rows.
    #[tactic(auto, unfolding(crate::specs::Columns::with_ids))]
    fn add_ids(&mut self) -> Result<(), AllocError>
        ensures { OnOk result (held self.new ≡ c.with_ids (held self.old)) }
    {
        let (public_id, system_id) = self.take_ids();
        self.add_row(NOTHING, public_id.as_slice())?;
        self.add_row(NOTHING, system_id.as_slice())
    }

    // Adds a node without a name, with its first row.
    fn add_with_row(&mut self, kind: u32, row: &str) -> Result<(), AllocError>
        ensures { OnOk result (held self.new ≡ c.with_row b.nothing row.now (c.with_node kind (held self.old))) }
    {
        let _node = self.add(kind)?;
        self.add_row(NOTHING, row.as_bytes())
    }

    // Adds the text of the newest node.
    #[tactic(auto, unfolding(crate::specs::Columns::held, crate::specs::Columns::with_bytes))]
    fn add_bytes(&mut self, text: &str) -> Result<(), AllocError>
        ensures { OnOk result (held self.new ≡ c.with_bytes text.now (held self.old)) }
    {
        self.text.extend_from_slice(text.as_bytes())
    }
}

impl Serializer for Columns {
    ghost use Rattle.std.specs.Prelude.{[], None, Ok};
    ghost use Rattle.h5_serialize.specs.declared.fault.SerializeFault.TheVariants.{Memory};
    ghost use Rattle.h5_tree_block.specs.Columns.{Held, after_call, held};

    ghost Meaning = { Held };

    ghost meaning = { held };

    ghost contents = { λ columns. None };

    ghost answer = { λ columns call. Ok tt };

    ghost after = { after_call };

    ghost writes = { λ columns call. [] };

    ghost breaks = { λ before text call fault after written. fault ≡ Memory };

    fn start_elem<T: AttrRef, I: Iterator<Item = T> + Drop>(
        &mut self,
        name: QualName,
        attrs: I,
    ) -> Result<(), SerializeFault> {
        self.start(&name, attrs)?;
        Ok(())
    }

    fn end_elem(&mut self, name: QualName) -> Result<(), SerializeFault> {
        self.close_element(&name)?;
        Ok(())
    }

    fn write_text(&mut self, text: &str) -> Result<(), SerializeFault> {
        let _node = self.add(TEXT)?;
        self.add_bytes(text)?;
        Ok(())
    }

    fn write_comment(&mut self, text: &str) -> Result<(), SerializeFault> {
        self.add_with_row(COMMENT, text)?;
        Ok(())
    }

    fn write_doctype(&mut self, name: &str) -> Result<(), SerializeFault> {
        self.add_with_row(DOCTYPE, name)?;
        self.add_ids()?;
        Ok(())
    }

    fn write_processing_instruction(
        &mut self,
        target: &str,
        content: &str,
    ) -> Result<(), SerializeFault> {
        self.add_with_row(INSTRUCTION, target)?;
        self.add_row(NOTHING, content.as_bytes())?;
        Ok(())
    }
}
