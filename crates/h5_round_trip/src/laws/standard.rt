//! The laws of reading by the standard's states, each the contract of a function that does nothing.
ghost use Rattle.std.specs.Prelude.{◌≡◌, List, [], false, true};
ghost use Rattle.h5_token.specs.TokenText.{TokenText};
ghost use Rattle.h5_token.specs.Joins.{join};
ghost use Rattle.h5_round_trip.specs.Fragment.{AnswersCuts};
ghost use Rattle.h5_tokenizer_input.specs.Blindness.{IsBlindToCuts};
ghost use Rattle.h5_tokenizer_input.specs.Options.{default_options};
ghost use Rattle.h5_plain_tokenizer.specs.Options as plain;
ghost use Rattle.h5_plain_tokenizer.specs.Whole as plain_reader;
ghost use Rattle.h5_tokenizer_spec.specs.ReferenceTable.{references};
ghost use Rattle.h5_tokenizer_spec.specs.Whole.{ReadsToEnd};
ghost use Rattle.h5_tokenizer_spec.specs.WithoutErrors.{HasNoInputErrors, ReadsWithoutErrors};
ghost use Rattle.h5_tokenizer_spec.specs.WholeTelling.{TellsToEnd};
ghost use Rattle.h5_tokenizer_spec.specs.declared.position.Spot.{Spot};
ghost use Rattle.h5_tokenizer_spec.specs.declared.position.LocatedError.{LocatedError};
ghost use Rattle.h5_standard_tokenizer.specs.Options.{first_place};
ghost use Rattle.h5_builder_laws.specs.Plain.{Flow, IsPlain, Nodes, PlainDocument, document_tokens, fragment_tokens, nothing_open};
ghost use Rattle.h5_interface.specs.SinkChoices.{SinkChoices};
ghost use Rattle.h5_round_trip.specs.Answers.{Answers};
ghost use Rattle.h5_round_trip.specs.Inside.{TextsStay};
ghost use Rattle.h5_round_trip.specs.Readable.{CanBeRead, IsReadableDocument};
ghost use Rattle.h5_round_trip.specs.Written.{written_fragment, written_of};
ghost use Rattle.h5_round_trip.specs.Markup.{AreMarks, Mark, page_tokens, written_page};

use h5_token::TokenSink;
use h5_tokenizer_input::Likeness;

/// If a plain document can be read (its texts and values are UTF-8 with neither NUL nor CR, and its attributes have
/// names that are read back), the standard's states read its text as its tokens, over a token sink that replies as a
/// builder does that rebuilds the document.
pub fn documents_are_read<S: TokenSink>()
    ensures { (d : PlainDocument) (m : S.Meaning) → IsReadableDocument d → Answers S.reply_to S.after m (document_tokens d)
        → (n : S.Meaning) × ReadsToEnd references S.reply_to S.after S.is_foreign S.ended (first_place default_options) m (written_of d) (document_tokens d) n }
{}

/// If no character of that text is an error of the input stream, it is read without a parse error, and there is none at
/// its end.
pub fn documents_are_read_without_errors<S: TokenSink>()
    ensures { (d : PlainDocument) (m : S.Meaning) (s : Spot) → IsReadableDocument d → Answers S.reply_to S.after m (document_tokens d)
        → HasNoInputErrors (written_of d)
        → ReadsWithoutErrors references S.reply_to S.after S.is_foreign (first_place default_options) s m (written_of d) }
{}

/// If no character of that text is an error of the input stream, no parse error is reported for it, however it is split
/// and read to its end, over a token sink for which the split of texts doesn't matter.
pub fn documents_tell_no_errors<S: TokenSink, L: Likeness>()
    ensures { (see : S.Meaning → L.Seen) → IsBlindToCuts S.reply_to S.after S.is_foreign S.ended (λ m n. L.alike (see m) (see n))
        → (d : PlainDocument) (m : S.Meaning) (s : Spot) (told : List LocatedError) → IsReadableDocument d → Answers S.reply_to S.after m (document_tokens d)
        → HasNoInputErrors (written_of d)
        → TellsToEnd references S.reply_to S.after S.is_foreign (first_place default_options) s m (written_of d) told
        → told ≡ [] }
{}

/// If markup is written as a serializer writes it, the plain tokenizer and the standard's states read its text as the
/// same tokens, over a token sink that goes on, and switches to the text of a title after its start tag. Elements may
/// be nested in any way.
pub fn markup_is_read_alike<S: TokenSink>()
    ensures { (marks : List Mark) (m : S.Meaning) → AreMarks marks → Answers S.reply_to S.after m (page_tokens marks)
        → ((n : S.Meaning) × plain_reader.ReadsToEnd S.reply_to S.after S.is_foreign S.ended (plain.first_place default_options) m (written_page marks) (page_tokens marks) n)
        × ((n : S.Meaning) × ReadsToEnd references S.reply_to S.after S.is_foreign S.ended (first_place default_options) m (written_page marks) (page_tokens marks) n) }
{}

/// If a fragment can be read, the standard's states read its text as its tokens, over a token sink that replies as a
/// builder does, and that goes on after each prefix of a text after which it goes on. Only a text at the end may come
/// in two parts.
pub fn fragments_are_read<S: TokenSink>()
    ensures { (nodes : Nodes) (m : S.Meaning) → IsPlain true (Flow false nothing_open) nodes → CanBeRead nodes → AnswersCuts S.reply_to → Answers S.reply_to S.after m (fragment_tokens nodes)
        → (tokens : List TokenText) × ((join tokens ≡ join (fragment_tokens nodes))
        × ((n : S.Meaning) × ReadsToEnd references S.reply_to S.after S.is_foreign S.ended (first_place default_options) m (written_fragment nodes) tokens n)) }
{}

/// If the standard's tokenizer is in the data state, over a builder in the middle of a page at an element that takes
/// nodes of flow, it reads the text of nodes that fit there up to the remainder, which must not be empty. It is then in
/// the data state, and the builder is as before, except that the nodes follow that element's children.
pub fn texts_stay_in_their_box()
    ensures { (choices : SinkChoices) → TextsStay choices }
{}
