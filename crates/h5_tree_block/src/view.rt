//! Reads a block as a tree. Each read is checked, so any bytes may be a block.
ghost use Rattle.std.specs.Prelude.{◌≡◌, ◌≤◌, ◌<◌, ◌⊎◌, ◌+◌, ◌^◌, IfSome, is_some, length};
ghost use Rattle.h5_tree_block.specs.Block as b;
ghost use Rattle.h5_tree_block.specs.Read as r;

use super::numbers::{ELEMENT, FRAGMENT, KINDS, NOTHING};
use super::pack::{FRONT, MAGIC};

/// The word with this index, or 0 if the block ends before it.
pub(crate) fn word_at(block: &[u8], index: usize) -> u32
    requires { index < 2 ^ 60 }
    ensures { result ≡ b.word_in block.now index }
{
    let at = index * 4;
    if block.len() < at + 4 {
        return 0;
    }
    u32::from_le_bytes([block[at], block[at + 1], block[at + 2], block[at + 3]])
}

/// Bytes of a block: their offset and their number.
#[derive(Clone, Copy, Debug, PartialEq, Eq)]
pub struct Span {
    pub at: usize,
    pub count: usize,
}

/// A row of a node.
#[derive(Clone, Copy, Debug, PartialEq, Eq)]
pub struct Row {
    /// The number of an attribute's name, or `NOTHING`.
    pub name: u32,
    pub value: Span,
}

/// A block whose first words agree with its length.
#[derive(Clone, Copy)]
pub struct View<'a> {
    pub(crate) block: &'a [u8],
    pub(crate) nodes: u32,
    pub(crate) rows: u32,
    pub(crate) names: u32,
    // The offsets of the bytes of names, of values and of texts.
    pub(crate) names_begin: usize,
    pub(crate) values_begin: usize,
    pub(crate) texts_begin: usize,
    ghost counted: { (nodes ≡ b.nodes_in block.now) × (rows ≡ b.rows_in block.now) × (names ≡ b.names_in block.now) },
    ghost placed: { (names_begin ≡ b.names_begin block.now) × (values_begin ≡ b.values_begin block.now) × (texts_begin ≡ b.texts_begin block.now) },
    ghost near: { (names_begin < 2 ^ 60) × (values_begin < 2 ^ 60) × (texts_begin < 2 ^ 60) },
}

// The bytes between two offsets, which count from `begin`.
fn between(block: &[u8], begin: usize, from: u32, to: u32) -> Option<Span>
    requires { begin < 2 ^ 60 }
    ensures { result ≡ b.between block.now begin from to }
{
    if from > to {
        return None;
    }
    let at = begin + from as usize;
    let count = (to - from) as usize;
    if at + count > block.len() {
        return None;
    }
    Some(Span { at, count })
}

impl<'a> View<'a> {
    /// The view of a block. `None` if it doesn't begin as one, or if its first words give another length.
    pub fn of(block: &'a [u8]) -> Option<View<'a>>
        ensures block { IfSome result (λ view. view.block.now ≡ block.now) }
        ensures is { is_some result ≡ b.is_block block.now }
    {
        if word_at(block, 0) != MAGIC || word_at(block, 1) as usize != block.len() {
            return None;
        }
        let (nodes, rows, names) = (word_at(block, 3), word_at(block, 4), word_at(block, 5));
        let words = FRONT + 2 + 5 * nodes as usize + 2 * rows as usize + 2 * names as usize;
        let names_begin = words * 4;
        let values_begin = names_begin + word_at(block, 6) as usize;
        let texts_begin = values_begin + word_at(block, 7) as usize;
        if texts_begin + word_at(block, 8) as usize != block.len() {
            return None;
        }
        Some(View {
            block,
            nodes,
            rows,
            names,
            names_begin,
            values_begin,
            texts_begin,
        })
    }

    /// The quirks mode: 0 none, 1 limited, 2 quirks; 3 only in bytes that weren't packed.
    pub fn quirks(&self) -> u32
        ensures { result ≡ b.quirks_in self.now.block.now }
    {
        word_at(self.block, 2) % 4
    }

    /// Returns true if the tree was parsed with scripting, so the content of a `noscript` is one text, which is written unescaped.
    pub fn is_scripting(&self) -> bool
        ensures { result ≡ b.is_scripting_in self.now.block.now }
    {
        word_at(self.block, 2) / 4 % 2 == 1
    }

    /// The number of nodes.
    pub fn node_count(&self) -> u32
        ensures { result ≡ b.nodes_in self.now.block.now }
    {
        self.nodes
    }

    fn kind_word(&self, node: u32) -> u32
        ensures { result ≡ b.kind_word_in self.now.block.now node }
    {
        if node < self.nodes {
            word_at(self.block, FRONT + node as usize)
        } else {
            0
        }
    }

    /// The kind of a node, or 0 if there is no such node.
    pub fn kind(&self, node: u32) -> u32
        ensures { result ≡ b.kind_in self.now.block.now node }
    {
        self.kind_word(node) % KINDS
    }

    /// The number of an element's name. `NOTHING` for another node, and if there is no such node.
    pub fn name(&self, node: u32) -> u32
        ensures { result ≡ b.name_in self.now.block.now node }
    {
        let word = self.kind_word(node);
        if word % KINDS == ELEMENT {
            word / KINDS
        } else {
            NOTHING
        }
    }

    /// The parent of a node as stored.
    pub(crate) fn parent_word(&self, node: u32) -> u32
        ensures { result ≡ b.word_in self.now.block.now (b.parents_at (b.nodes_in self.now.block.now) + node) }
    {
        word_at(self.block, FRONT + self.nodes as usize + node as usize)
    }

    /// The parent of a node: a smaller number, or `NOTHING`.
    pub fn parent(&self, node: u32) -> u32
        ensures parent { result ≡ b.parent_in self.now.block.now node }
        ensures before { (result < node) ⊎ (result ≡ 4294967295) }
    {
        if node >= self.nodes {
            return NOTHING;
        }
        let parent = self.parent_word(node);
        if parent < node { parent } else { NOTHING }
    }

    /// The end of a node as stored.
    pub(crate) fn end_word(&self, node: u32) -> u32
        ensures { result ≡ b.word_in self.now.block.now (b.ends_at (b.nodes_in self.now.block.now) + node) }
    {
        word_at(self.block, FRONT + 2 * self.nodes as usize + node as usize)
    }

    /// The first node after the subtree of a node: a greater number, or `NOTHING`.
    pub fn end(&self, node: u32) -> u32
        ensures end { result ≡ b.end_in self.now.block.now node }
        ensures behind { (node < result) ⊎ (result ≡ 4294967295) }
    {
        if node >= self.nodes {
            return NOTHING;
        }
        let end = self.end_word(node);
        if node < end && end <= self.nodes {
            end
        } else {
            node + 1
        }
    }

    /// The first child of a node: a greater number, or `NOTHING`.
    pub fn first_child(&self, node: u32) -> u32
        ensures child { result ≡ b.first_child_in self.now.block.now node }
        ensures behind { (node < result) ⊎ (result ≡ 4294967295) }
    {
        if node < self.nodes && node + 1 < self.end(node) {
            node + 1
        } else {
            NOTHING
        }
    }

    /// The next sibling of a node: a greater number, or `NOTHING`.
    pub fn next(&self, node: u32) -> u32
        ensures sibling { result ≡ b.next_in self.now.block.now node }
        ensures behind { (node < result) ⊎ (result ≡ 4294967295) }
    {
        let next = self.end(node);
        if next < self.nodes && self.parent(next) == self.parent(node) {
            next
        } else {
            NOTHING
        }
    }

    /// The fragment that is the contents of a template, or `NOTHING`.
    pub fn contents(&self, node: u32) -> u32
        ensures { result ≡ b.contents_in self.now.block.now node }
    {
        let child = self.first_child(node);
        if self.kind(node) == ELEMENT && self.kind(child) == FRAGMENT {
            child
        } else {
            NOTHING
        }
    }

    /// The offset of the texts from a node on.
    pub(crate) fn text_place(&self, node: u32) -> u32
        ensures { result ≡ b.word_in self.now.block.now (b.texts_at (b.nodes_in self.now.block.now) + node) }
    {
        word_at(self.block, FRONT + 3 * self.nodes as usize + node as usize)
    }

    /// The text of a text node; for another node the texts below it, including the contents of templates. `None` if there is no such node.
    pub fn text(&self, node: u32) -> Option<Span>
        ensures { result ≡ b.text_in self.now.block.now node }
    {
        if node >= self.nodes {
            return None;
        }
        let (from, to) = (self.text_place(node), self.text_place(self.end(node)));
        between(self.block, self.texts_begin, from, to)
    }

    /// The index of the first row from a node on. The column of texts has one word more than there are nodes.
    pub(crate) fn first_row(&self, node: u32) -> u32
        ensures { result ≡ b.first_row_in self.now.block.now node }
    {
        word_at(
            self.block,
            FRONT + 1 + 4 * self.nodes as usize + node as usize,
        )
    }

    /// The number of rows of a node: an element has its attributes, a doctype three rows, a comment one, a processing instruction two.
    pub fn row_count(&self, node: u32) -> u32
        ensures { result ≡ b.row_count_in self.now.block.now node }
    {
        if node >= self.nodes {
            return 0;
        }
        let behind = self.first_row(node + 1).min(self.rows);
        behind.saturating_sub(self.first_row(node))
    }

    // The indices of the columns of rows, and of those of names.
    fn row_names_at(&self) -> usize
        ensures { result ≡ b.row_names_at (b.nodes_in self.now.block.now) }
    {
        FRONT + 2 + 5 * self.nodes as usize
    }

    fn spaces_at(&self) -> usize
        ensures { result ≡ b.spaces_at (b.nodes_in self.now.block.now) (b.rows_in self.now.block.now) }
    {
        self.row_names_at() + 2 * self.rows as usize
    }

    /// The end of a row's value.
    pub(crate) fn value_end(&self, row: u32) -> u32
        ensures { result ≡ b.word_in self.now.block.now (b.row_ends_at (b.nodes_in self.now.block.now) (b.rows_in self.now.block.now) + row) }
    {
        word_at(
            self.block,
            self.row_names_at() + self.rows as usize + row as usize,
        )
    }

    /// The start of a row's value.
    pub(crate) fn value_begin(&self, row: u32) -> u32
        ensures { result ≡ b.end_before self.now.block.now (b.row_ends_at (b.nodes_in self.now.block.now) (b.rows_in self.now.block.now)) row }
    {
        if row == 0 { 0 } else { self.value_end(row - 1) }
    }

    fn value(&self, row: u32) -> Option<Span>
        ensures { result ≡ b.value_in self.now.block.now row }
    {
        let (from, to) = (self.value_begin(row), self.value_end(row));
        between(self.block, self.values_begin, from, to)
    }

    /// A row of a node. `None` if there is no such row.
    pub fn row(&self, node: u32, index: u32) -> Option<Row>
        ensures { result ≡ b.row_in self.now.block.now node index }
    {
        if index >= self.row_count(node) {
            return None;
        }
        let row = self.first_row(node) + index;
        let name = word_at(self.block, self.row_names_at() + row as usize);
        match self.value(row) {
            Some(value) => Some(Row { name, value }),
            None => None,
        }
    }

    fn space_word(&self, name: u32) -> u32
        ensures { result ≡ b.space_word_in self.now.block.now name }
    {
        if name < self.names {
            word_at(self.block, self.spaces_at() + name as usize)
        } else {
            0
        }
    }

    /// The number of the namespace of a name, or 0.
    pub fn namespace(&self, name: u32) -> u32
        ensures { result ≡ b.namespace_in self.now.block.now name }
    {
        self.space_word(name) % 256
    }

    /// The number of the prefix of a name, or 0.
    pub fn prefix(&self, name: u32) -> u32
        ensures { result ≡ b.prefix_in self.now.block.now name }
    {
        self.space_word(name) / 256
    }

    /// The end of a name's text.
    pub(crate) fn name_end(&self, name: u32) -> u32
        ensures { result ≡ b.word_in self.now.block.now (b.name_ends_at self.now.block.now + name) }
    {
        word_at(
            self.block,
            self.spaces_at() + self.names as usize + name as usize,
        )
    }

    /// The start of a name's text.
    pub(crate) fn name_begin(&self, name: u32) -> u32
        ensures { result ≡ b.end_before self.now.block.now (b.name_ends_at self.now.block.now) name }
    {
        if name == 0 {
            0
        } else {
            self.name_end(name - 1)
        }
    }

    /// The local name of a name. `None` if there is no such name.
    pub fn name_text(&self, name: u32) -> Option<Span>
        ensures { result ≡ b.name_text_in self.now.block.now name }
    {
        if name >= self.names {
            return None;
        }
        let (from, to) = (self.name_begin(name), self.name_end(name));
        between(self.block, self.names_begin, from, to)
    }

    // The bytes of a span; none if it isn't within the block.
    #[tactic(auto, unfolding(crate::specs::Read::bytes_in))]
    fn bytes_at(&self, span: Span) -> &'a [u8]
        ensures { result.now ≡ r.bytes_in self.now.block.now span }
    {
        let block = self.block;
        if span.at > block.len() || span.count > block.len() - span.at {
            return &[];
        }
        &block[span.at..span.at + span.count]
    }

    /// The text of a span; empty if the span isn't within the block, or isn't UTF-8.
    pub fn str_at(&self, span: Span) -> &'a str
        ensures { result.now ≡ r.str_in self.now.block.now span }
    {
        match std::str::from_utf8(self.bytes_at(span)) {
            Ok(text) => text,
            Err(_) => "",
        }
    }
}
