//! A sound block is a forest in tree order, and a block that a tree was packed into is sound and has the calls of the tree's walk.
ghost use Rattle.std.specs.Prelude.{◌≡◌, ◌≢◌, ◌+◌, ◌<◌, ℕ, Bool, List, [], None, false, true};
ghost use Rattle.h5_interface.specs.Forest.{IsForest};
ghost use Rattle.h5_serialize.specs.Standing.{new_standing, walk_text};
ghost use Rattle.h5_serialize.specs.declared.options.TraversalScope.TheVariants.{ChildrenOnly};
ghost use Rattle.h5_arena.specs.ArenaModel.{ArenaView, forest_seen};
ghost use Rattle.h5_arena.specs.Html.{opts_for};
ghost use Rattle.h5_arena.specs.NodeCalls.{walk_of};
ghost use Rattle.h5_tree_block.specs.Block.{end_in, kind_in, next_in, nodes_in, parent_in};
ghost use Rattle.h5_tree_block.specs.Columns.{document_columns, fragment_columns, held};
ghost use Rattle.h5_tree_block.specs.Html.{calls_in, html_of};
ghost use Rattle.h5_tree_block.specs.Packed.{AreWordsOf, IsReadAs, block_of, words_of};
ghost use Rattle.h5_tree_block.specs.Read.{text_of};
ghost use Rattle.h5_tree_block.specs.Sound.{is_sound};
ghost use Rattle.h5_tree_block.specs.declared.columns.Columns.{Columns};
ghost use Rattle.h5_tree.specs.BlockForest.{forest_in};
ghost use Rattle.h5_tree.specs.ElementNumbers.{elements_between};
ghost use Rattle.h5_tree.specs.Elements.{below};
ghost use Rattle.h5_tree.specs.KnownCalls.{AreKnownCalls, fragment_walk};
ghost use Rattle.h5_tree.specs.Order.{IsOrder};
ghost use Rattle.h5_tree.specs.Shape.{IsShaped};

/// If a block is sound, its nodes are a tree in tree order, and its forest has the shape of a forest. The elements below a node are those
/// from the next number up to the node's end, in this order, except those in the contents of templates. If node 0 is a document, no text is
/// empty and no two texts are neighbours, it is a forest.
pub fn sound_blocks_are_forests()
    ensures order { (block : List ℕ) → is_sound block ≡ true → nodes_in block < 4294967296 → IsOrder (nodes_in block) (parent_in block) (end_in block) }
    ensures shape { (block : List ℕ) → is_sound block ≡ true → nodes_in block < 4294967296 → IsShaped (forest_in block) }
    ensures descendants { (block : List ℕ) → is_sound block ≡ true → nodes_in block < 4294967296
        → (n : ℕ) → n < nodes_in block → below (forest_in block) n ≡ elements_between block (n + 1) (end_in block n) }
    ensures forest { (block : List ℕ) → is_sound block ≡ true → nodes_in block < 4294967296 → kind_in block 0 ≡ 9
        → ((n : ℕ) → n < nodes_in block → kind_in block n ≡ 3 → text_of block n ≢ [])
        → ((n : ℕ) → n < nodes_in block → kind_in block n ≡ 3 → kind_in block (next_in block n) ≢ 3)
        → IsForest (forest_in block) }
{}

/// If the columns of a document or of a fragment were packed into a block, the block is sound.
pub fn packed_blocks_are_sound()
    ensures document { (a : ArenaView) (scripting : Bool) (columns : Columns) (block : List ℕ)
        → held columns ≡ document_columns a scripting → IsReadAs block columns → AreWordsOf block (words_of columns) → is_sound block ≡ true }
    ensures fragment { (a : ArenaView) (scripting : Bool) (columns : Columns) (block : List ℕ)
        → held columns ≡ fragment_columns a scripting → IsReadAs block columns → AreWordsOf block (words_of columns) → is_sound block ≡ true }
{}

/// If the columns of a document were packed into a block, and all names in the calls of the document's walk are known and all texts UTF-8,
/// the block has these calls below its root, and its HTML is the document's. For a fragment they are the calls below its root.
pub fn packed_blocks_have_the_calls_of_their_tree()
    ensures document { (a : ArenaView) (scripting : Bool) (columns : Columns) (block : List ℕ)
        → held columns ≡ document_columns a scripting → block ≡ block_of columns → AreWordsOf block (words_of columns) → IsReadAs block columns
        → AreKnownCalls (walk_of (forest_seen a) 0 (ChildrenOnly None)) → calls_in block 0 false ≡ walk_of (forest_seen a) 0 (ChildrenOnly None) }
    ensures document_html { (a : ArenaView) (scripting : Bool) (columns : Columns) (block : List ℕ)
        → held columns ≡ document_columns a scripting → block ≡ block_of columns → AreWordsOf block (words_of columns) → IsReadAs block columns
        → AreKnownCalls (walk_of (forest_seen a) 0 (ChildrenOnly None))
        → html_of block 0 false ≡ walk_text (new_standing (opts_for (ChildrenOnly None) scripting)) (walk_of (forest_seen a) 0 (ChildrenOnly None)) }
    ensures fragment { (a : ArenaView) (scripting : Bool) (columns : Columns) (block : List ℕ)
        → held columns ≡ fragment_columns a scripting → block ≡ block_of columns → AreWordsOf block (words_of columns) → IsReadAs block columns
        → AreKnownCalls (fragment_walk a) → calls_in block 0 false ≡ fragment_walk a }
    ensures fragment_html { (a : ArenaView) (scripting : Bool) (columns : Columns) (block : List ℕ)
        → held columns ≡ fragment_columns a scripting → block ≡ block_of columns → AreWordsOf block (words_of columns) → IsReadAs block columns
        → AreKnownCalls (fragment_walk a)
        → html_of block 0 false ≡ walk_text (new_standing (opts_for (ChildrenOnly None) scripting)) (fragment_walk a) }
{}
