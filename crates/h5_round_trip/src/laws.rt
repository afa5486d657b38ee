//! The laws of writing and reading, each the contract of a function that does nothing.
ghost use Rattle.std.specs.Prelude.{◌≡◌, ℕ, true, false, None, List};
ghost use Rattle.h5_token.specs.Joins.{join};
ghost use Rattle.h5_interface.specs.Forest.{Forest, IsForest};
ghost use Rattle.h5_interface.specs.SinkChoices.{SinkChoices};
ghost use Rattle.h5_markup.specs.Text.{text_of};
ghost use Rattle.h5_tokenizer_input.specs.Options.{default_options};
ghost use Rattle.h5_plain_tokenizer.specs.Options.{first_place};
ghost use Rattle.h5_plain_tokenizer.specs.Whole.{ReadsToEnd};
ghost use Rattle.h5_standard_tokenizer.specs.Mark.{behind_mark};
ghost use Rattle.h5_serialize.specs.Escape.{escape};
ghost use Rattle.h5_serialize.specs.Standing.{new_standing, walk_text};
ghost use Rattle.h5_serialize.specs.declared.options.SerializeOpts.{SerializeOpts};
ghost use Rattle.h5_serialize.specs.declared.options.TraversalScope.TheVariants.{ChildrenOnly};
ghost use Rattle.h5_arena.specs.NodeCalls.{walk_of};
ghost use Rattle.h5_builder_laws.specs.Plain.{Flow, IsPlain, Nodes, PlainDocument, document_tokens, fragment_tokens, nothing_open, root_of};
ghost use Rattle.h5_builder_laws.specs.Rebuilding.{DocumentStands};
ghost use Rattle.h5_round_trip.specs.Answers.{Answers};
ghost use Rattle.h5_round_trip.specs.Inside.{PlainTextsStay};
ghost use Rattle.h5_round_trip.specs.Readable.{CanBeRead, IsReadable, IsReadableDocument};
ghost use Rattle.h5_round_trip.specs.Written.{KeepsNewlines, serialized_of, written_fragment, written_of};

pub mod standard;

use h5_arena::laws::calls_stand_around_those_of_children;
use h5_token::TokenSink;

/// If a value is UTF-8 with neither NUL nor CR, it is read back after it was escaped.
pub fn values_are_read_back()
    ensures { (value : List ℕ) → IsReadable value → text_of true (escape true value) ≡ value }
{}

/// The tokens of a plain document have no two adjacent texts.
pub fn texts_of_documents_stand_apart()
    ensures { (d : PlainDocument) → join (document_tokens d) ≡ document_tokens d }
{}

/// If a forest's document is a plain document, a serializer writes its children as they are. If no `pre` begins with a
/// newline, that is the document's text: a tree builder drops one newline there, and a serializer writes it once.
pub fn documents_are_written()
    ensures as_they_stand { (f : Forest) (d : PlainDocument) (opts : SerializeOpts) → IsForest f → DocumentStands f d
        → opts.traversal_scope ≡ ChildrenOnly None → opts.create_missing_parent ≡ false
        → walk_text (new_standing opts) (walk_of f f.document opts.traversal_scope) ≡ serialized_of d }
    ensures as_their_text { (f : Forest) (d : PlainDocument) (opts : SerializeOpts) → IsForest f → DocumentStands f d → KeepsNewlines d
        → opts.traversal_scope ≡ ChildrenOnly None → opts.create_missing_parent ≡ false
        → walk_text (new_standing opts) (walk_of f f.document opts.traversal_scope) ≡ written_of d }
{
    calls_stand_around_those_of_children();
}

/// If two documents can be read and have one text, they have the same nodes.
pub fn different_documents_have_different_texts()
    ensures { (d e : PlainDocument) → IsReadableDocument d → IsReadableDocument e → written_of d ≡ written_of e → root_of d ≡ root_of e }
{}

/// If a plain document can be read, its text is read to its end, as its tokens, over any token sink that replies as a
/// builder does: "go on", and at the start tag of a title the switch to its text.
pub fn documents_are_read<S: TokenSink>()
    ensures { (d : PlainDocument) (m : S.Meaning) → IsReadableDocument d → Answers S.reply_to S.after m (document_tokens d)
        → (n : S.Meaning) × ReadsToEnd S.reply_to S.after S.is_foreign S.ended (first_place default_options) m (written_of d) (document_tokens d) n }
{}

/// As above for the text of a fragment, unless it begins with U+FEFF, which a tokenizer drops there.
pub fn fragments_are_read<S: TokenSink>()
    ensures { (nodes : Nodes) (m : S.Meaning) → IsPlain true (Flow false nothing_open) nodes → CanBeRead nodes
        → behind_mark true (written_fragment nodes) ≡ written_fragment nodes → Answers S.reply_to S.after m (fragment_tokens nodes)
        → (n : S.Meaning) × ReadsToEnd S.reply_to S.after S.is_foreign S.ended (first_place default_options) m (written_fragment nodes) (fragment_tokens nodes) n }
{}

/// If the plain tokenizer is in the data state, over a builder in the middle of a page at an element that takes nodes of
/// flow, it reads the text of nodes that fit there up to the remainder, which must not be empty. It is then in the data
/// state, and the builder is as before, except that the nodes follow that element's children.
pub fn texts_stay_in_their_box()
    ensures { (choices : SinkChoices) → PlainTextsStay choices }
{}
