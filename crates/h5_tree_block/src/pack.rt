//! The block of a tree.
ghost use Rattle.std.specs.Prelude.{◌≡◌, ◌<◌, ◌≤◌, ◌^◌, ◌++◌, ◌∷◌, [], IfErr, IfOk, OnOk, length};
ghost use Rattle.std.specs.Int.{w32, to_le_bytes};
ghost use Rattle.h5_tree_block.specs.Packed.{AreWords, AreWordsOf, IsReadAs, block_of, bytes_of_words, column, column_bytes, column_words, ended_column, ends_in, front_words, length_of, node_words, place_words, words_in, words_of};

use super::columns::{Columns, Ended, EndedWord, FlatNode, NodeWord};
use super::numbers::{NOTHING, short};
use std::alloc::{AllocError, Global};

/// The number of words before the columns.
pub(crate) const FRONT: usize = 9;

/// The first word: the letters HGT1.
pub(crate) const MAGIC: u32 = 0x3154_4748;

fn put(block: &mut Vec<u8>, word: u32) -> Result<(), AllocError>
    ensures bytes { OnOk result (block.new.items ≡ block.old.items ++ to_le_bytes w32 word) }
    ensures word { word < 2 ^ 32 }
{
    block.extend_from_slice(&word.to_le_bytes())
}

// The length that follows a column of offsets.
fn put_length(block: &mut Vec<u8>, length: usize) -> Result<(), AllocError>
    ensures bytes { OnOk result (block.new.items ≡ block.old.items ++ bytes_of_words (length ∷ [])) }
    ensures words { OnOk result (AreWords (length ∷ [])) }
{
    put(block, short(length)?)
}

fn put_all(block: &mut Vec<u8>, words: &[u32]) -> Result<(), AllocError>
    ensures bytes { OnOk result (block.new.items ≡ block.old.items ++ bytes_of_words words.now) }
    ensures words { AreWords words.now }
{
    for word in words {
        put(block, *word)?;
    }
    Ok(())
}

// One word of each node.
fn put_column(block: &mut Vec<u8>, nodes: &[FlatNode], which: NodeWord) -> Result<(), AllocError>
    ensures bytes { OnOk result (block.new.items ≡ block.old.items ++ bytes_of_words (column which nodes.now)) }
    ensures words { OnOk result (AreWords (column which nodes.now)) }
{
    for node in nodes {
        put(block, node.word(which))?;
    }
    Ok(())
}

// One word of each row or name.
fn put_ended(block: &mut Vec<u8>, list: &[Ended], which: EndedWord) -> Result<(), AllocError>
    ensures bytes { OnOk result (block.new.items ≡ block.old.items ++ bytes_of_words (ended_column which list.now)) }
    ensures words { OnOk result (AreWords (ended_column which list.now)) }
{
    for one in list {
        put(block, one.get(which))?;
    }
    Ok(())
}

impl Columns {
    // The length of the block in bytes.
    fn block_length(&self) -> Result<u32, AllocError>
        ensures length { IfOk result (λ n. n ≡ length_of self.now) }
        ensures too_long { IfErr result (λ _. 4294967295 ≤ length_of self.now) }
    {
        let nodes = 5 * self.nodes.len() as u128;
        let rows = 2 * self.rows.len() as u128;
        let names = 2 * self.names.list.len() as u128;
        let words = (FRONT as u128 + 2 + nodes + rows + names) * 4;
        let values = self.names.text.len() as u128 + self.values.len() as u128;
        let length = words + values + self.text.len() as u128;
        if length < NOTHING as u128 {
            Ok(length as u32)
        } else {
            Err(AllocError)
        }
    }

    fn front(&self, length: u32) -> Result<[u32; FRONT], AllocError>
        requires { length ≡ length_of self.now }
        ensures { IfOk result (λ words. words ≡ front_words self.now) }
    {
        Ok([
            MAGIC,
            length,
            self.mode,
            short(self.nodes.len())?,
            short(self.rows.len())?,
            short(self.names.list.len())?,
            short(self.names.text.len())?,
            short(self.values.len())?,
            short(self.text.len())?,
        ])
    }

    fn put_front(&self, block: &mut Vec<u8>, length: u32) -> Result<(), AllocError>
        requires { length ≡ length_of self.now }
        ensures bytes { OnOk result (block.new.items ≡ block.old.items ++ bytes_of_words (front_words self.now)) }
        ensures words { OnOk result (AreWords (front_words self.now)) }
    {
        let words = self.front(length)?;
        put_all(block, &words)
    }

    #[tactic(auto, using(crate::proofs::PackLaws::bytes_of_three, crate::proofs::PackLaws::words_append))]
    fn put_nodes(&self, block: &mut Vec<u8>) -> Result<(), AllocError>
        ensures bytes { OnOk result (block.new.items ≡ block.old.items ++ bytes_of_words (node_words self.now)) }
        ensures words { OnOk result (AreWords (node_words self.now)) }
    {
        put_column(block, self.nodes.as_slice(), NodeWord::Kind)?;
        put_column(block, self.nodes.as_slice(), NodeWord::Parent)?;
        put_column(block, self.nodes.as_slice(), NodeWord::End)
    }

    #[tactic(auto, using(crate::proofs::PackLaws::bytes_of_four, crate::proofs::PackLaws::words_append))]
    fn put_places(&self, block: &mut Vec<u8>) -> Result<(), AllocError>
        ensures bytes { OnOk result (block.new.items ≡ block.old.items ++ bytes_of_words (place_words self.now)) }
        ensures words { OnOk result (AreWords (place_words self.now)) }
    {
        put_column(block, self.nodes.as_slice(), NodeWord::Text)?;
        put_length(block, self.text.len())?;
        put_column(block, self.nodes.as_slice(), NodeWord::Row)?;
        put_length(block, self.rows.len())
    }

    #[tactic(auto, using(crate::proofs::PackLaws::bytes_append, crate::proofs::PackLaws::words_append))]
    fn put_list(block: &mut Vec<u8>, list: &[Ended]) -> Result<(), AllocError>
        ensures bytes { OnOk result (block.new.items ≡ block.old.items ++ bytes_of_words (words_in list.now ++ ends_in list.now)) }
        ensures words { OnOk result (AreWords (words_in list.now ++ ends_in list.now)) }
    {
        put_ended(block, list, EndedWord::About)?;
        put_ended(block, list, EndedWord::End)
    }

    #[tactic(auto, using(crate::proofs::PackLaws::bytes_of_four, crate::proofs::PackLaws::words_of_four))]
    fn put_columns(&self, block: &mut Vec<u8>) -> Result<(), AllocError>
        ensures bytes { OnOk result (block.new.items ≡ block.old.items ++ bytes_of_words (column_words self.now)) }
        ensures words { OnOk result (AreWords (column_words self.now)) }
    {
        self.put_nodes(block)?;
        self.put_places(block)?;
        Columns::put_list(block, self.rows.as_slice())?;
        Columns::put_list(block, self.names.list.as_slice())
    }

    fn put_bytes(&self, block: &mut Vec<u8>) -> Result<(), AllocError>
        ensures { OnOk result (block.new.items ≡ block.old.items ++ column_bytes self.now) }
    {
        block.extend_from_slice(self.names.text.as_slice())?;
        block.extend_from_slice(self.values.as_slice())?;
        block.extend_from_slice(self.text.as_slice())
    }

    /// Returns the tree as one block. Fails with `AllocError` if an allocation fails, or if the block has more than 4,294,967,294 bytes.
    #[tactic(auto, using(crate::proofs::PackLaws::bytes_append))]
    pub fn pack(&self, alloc: Global) -> Result<Vec<u8>, AllocError>
        ensures block { IfOk result (λ block. block.items ≡ block_of self.now) }
        ensures words { IfOk result (λ block. AreWordsOf block.items (words_of self.now)) }
        ensures read { IfOk result (λ block. IsReadAs block.items self.now) }
    {
        let length = self.block_length()?;
        let mut block = Vec::with_capacity(alloc, length as usize + 1)?;
        self.put_front(&mut block, length)?;
        self.put_columns(&mut block)?;
        self.put_bytes(&mut block)?;
        Ok(block)
    }
}
