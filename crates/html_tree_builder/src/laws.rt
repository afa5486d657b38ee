//! The laws of whole runs. Each is the contract of a function that does nothing.
ghost use Rattle.std.specs.Prelude.{◌≡◌, ℕ, false, None, List};
ghost use Rattle.h5_interface.specs.Forest.{Forest, IsForest};
ghost use Rattle.h5_interface.specs.Seen.{Seen};
ghost use Rattle.h5_serialize.specs.Standing.{new_standing, walk_text};
ghost use Rattle.h5_serialize.specs.declared.options.SerializeOpts.{SerializeOpts};
ghost use Rattle.h5_serialize.specs.declared.options.TraversalScope.TheVariants.{ChildrenOnly};
ghost use Rattle.h5_arena.specs.NodeCalls.{walk_of};
ghost use Rattle.h5_builder_laws.specs.Plain.{PlainDocument};
ghost use Rattle.h5_builder_laws.specs.Rebuilding.{DocumentStands, HoldsDocument};
ghost use Rattle.h5_round_trip.specs.Readable.{IsReadableDocument};
ghost use Rattle.h5_round_trip.specs.Written.{KeepsNewlines};
ghost use Rattle.h5_driver.specs.Parsing.{Parsing, ProcessedAll, joined, text_of, view_of};
ghost use Rattle.h5_driver.specs.PlainDocuments.{ComesBack, IsNew};
ghost use Rattle.h5_driver.specs.Reading.{Parses};

pub use h5_builder_laws::laws::documents_are_rebuilt;
pub use h5_builder_laws::mode_laws::{
    a_token_has_one_chain, cuts_agree, cuts_of_one_list_agree, reconstructed_elements_are_open,
    runs_join, turns_are_few, what_is_kept_stays,
};
use h5_driver::Reader;
pub use h5_driver::laws::{
    a_text_has_one_list_of_errors, a_text_has_one_tree, chunks_then_finish, documents_come_back,
    documents_have_no_errors, fragments_come_back, fragments_come_back_over, pieces_then_finish,
    reporting_builds_the_same_tree,
};
pub use h5_round_trip::laws::standard::{
    documents_are_read, documents_are_read_without_errors, documents_tell_no_errors,
    markup_is_read_alike,
};
pub use h5_round_trip::laws::{
    different_documents_have_different_texts,
    documents_are_read as documents_are_read_by_the_plain_reader, documents_are_written,
    values_are_read_back,
};
pub use h5_serialize::laws::calls_are_taken_in_turn;
pub use h5_tokenizer_spec::laws::{
    cuts_tell_the_same_errors, tellings_join, told_pieces_join, what_tells_errors_reads,
};

/// If a forest holds a readable plain document in which no `pre` begins with a newline, and a serializer that writes the
/// document's children without creating missing parents writes a text, and a new parser of documents with default options, with
/// or without scripting, over any tokenizer and over a sink that holds only its document, takes this text in any chunks by
/// `process`, and `finish` follows, then the sink shows that document, in no-quirks mode, and the serializer writes the same text
/// of its tree.
///
/// The condition on `pre` is needed because a parser drops a newline at the start of a `pre`, and a serializer writes only one.
pub fn written_documents_come_back<R: Reader>()
    ensures { (f : Forest) (d : PlainDocument) (opts : SerializeOpts) (pieces : List (List ℕ)) (first last : Parsing R) (seen told : Seen) →
        IsForest f → DocumentStands f d → KeepsNewlines d → IsReadableDocument d
        → opts.traversal_scope ≡ ChildrenOnly None → opts.create_missing_parent ≡ false
        → joined pieces ≡ walk_text (new_standing opts) (walk_of f f.document opts.traversal_scope)
        → IsNew R.first (text_of R.Reader first) (view_of R.Reader first) first.waiting seen → HoldsDocument seen.forest
        → ProcessedAll R.Reader pieces first last
        → Parses R.Reads R.Sink.choices (text_of R.Reader last) (view_of R.Reader last) last.waiting told
        → ComesBack told d
        × (walk_text (new_standing opts) (walk_of told.forest told.forest.document opts.traversal_scope) ≡ joined pieces) }
{
    documents_are_written();
    documents_come_back::<R>();
}
