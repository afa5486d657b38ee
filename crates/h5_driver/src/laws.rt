//! The laws of parsing texts. Each is the contract of a function that does nothing.
ghost use Rattle.std.specs.Prelude.{◌≡◌, ℕ, List, ◌++◌};
ghost use Rattle.std.specs.Str.Lossy.{utf8_lossy};
ghost use Rattle.h5_interface.specs.Seen.{Seen};
ghost use Rattle.h5_interface.specs.SinkChoices.{SinkChoices};
ghost use Rattle.h5_builder_spec.specs.Run.{View};
ghost use Rattle.h5_driver.specs.Boxes.{PagesKeepBoxes};
ghost use Rattle.h5_driver.specs.Bytes.{ParsingBytes, ProcessedAllBytes};
ghost use Rattle.h5_driver.specs.ErrorReports.{BuildsTheSame, DocumentsHaveNone, TextsHaveOneList};
ghost use Rattle.h5_driver.specs.Parsing.{Parsing, ProcessedAll, joined, text_of, view_of};
ghost use Rattle.h5_driver.specs.PlainDocuments.{BringsBack};
ghost use Rattle.h5_driver.specs.PlainFragments.{FragmentsComeBack, FragmentsComeBackBy};
ghost use Rattle.h5_driver.specs.Reading.{Parses};

use super::reader::Reader;

/// If `process` takes chunks one after another, and `finish` follows, the sink shows what it shows for the joined text, from
/// the parser's state before the first chunk. So its forest and quirks mode are those of the run of a list of tokens that reads
/// the whole text, and of any such list.
pub fn pieces_then_finish<R: Reader>()
    ensures { (pieces : List (List ℕ)) (first last : Parsing R) (told : Seen) →
        ProcessedAll R.Reader pieces first last
        → Parses R.Reads R.Sink.choices (text_of R.Reader last) (view_of R.Reader last) last.waiting told
        → Parses R.Reads R.Sink.choices (text_of R.Reader first) (view_of R.Reader first) (first.waiting ++ joined pieces) told }
{}

/// If a parser of bytes takes chunks of UTF-8 by `process` one after another, and `finish` follows, the sink shows what it
/// shows for the text of all bytes together, with U+FFFD for each error in them.
pub fn chunks_then_finish<R: Reader>()
    ensures { (chunks : List (List ℕ)) (first last : ParsingBytes R) (told : Seen) →
        ProcessedAllBytes R.Reader chunks first last
        → Parses R.Reads R.Sink.choices (text_of R.Reader last.parser) (view_of R.Reader last.parser) (last.parser.waiting ++ utf8_lossy last.unfinished) told
        → Parses R.Reads R.Sink.choices (text_of R.Reader first.parser) (view_of R.Reader first.parser) (first.parser.waiting ++ utf8_lossy (first.unfinished ++ joined chunks)) told }
{}

/// From one state of the tokenizer and one view of the builder, a text makes one forest and one quirks mode. So two parsers of
/// documents, or of fragments, that begin equal make the same from a text, however it is split for each.
pub fn a_text_has_one_tree<R: Reader>()
    ensures { (reader : R.Text) (view : View) (text : List ℕ) (one other : Seen) →
        Parses R.Reads R.Sink.choices reader view text one → Parses R.Reads R.Sink.choices reader view text other
        → (one.forest ≡ other.forest) × (one.quirks ≡ other.quirks) }
{}

/// If a new parser of documents with default options, with or without scripting, over a sink that holds only its document,
/// takes the text of a readable plain document in any chunks by `process`, and `finish` follows, the sink shows that document,
/// in no-quirks mode.
pub fn documents_come_back<R: Reader>()
    ensures { (pieces : List (List ℕ)) (first last : Parsing R) (told : Seen) →
        ProcessedAll R.Reader pieces first last
        → Parses R.Reads R.Sink.choices (text_of R.Reader last) (view_of R.Reader last) last.waiting told
        → BringsBack R.first (text_of R.Reader first) (view_of R.Reader first) first.waiting (joined pieces) told }
{
    pieces_then_finish::<R>();
}

/// The parse errors of a text, from a builder between tokens, are one list: it doesn't matter how the text is split.
pub fn a_text_has_one_list_of_errors()
    ensures { (choices : SinkChoices) → TextsHaveOneList choices }
{}

/// A `ReportingTokenizer` over a new builder reports no error for the text of a readable plain document, if no character of it
/// is an error of the input stream. The options are the default ones, with or without scripting, and the sink holds only its
/// document.
pub fn documents_have_no_errors()
    ensures { (choices : SinkChoices) → DocumentsHaveNone choices }
{}

/// A `ReportingTokenizer` over a builder makes of a text what a parser makes of it.
pub fn reporting_builds_the_same_tree()
    ensures { (choices : SinkChoices) → BuildsTheSame choices }
{}

/// If a new parser of fragments over the standard tokenizer, with default options, with or without scripting, over a sink that
/// holds only its document, takes the text of a readable plain fragment that doesn't begin with U+FEFF, in the context of an
/// element that `IsBodyContext` describes, the sink shows that fragment as the children of the root. By `pieces_then_finish`
/// this holds for any chunks.
pub fn fragments_come_back()
    ensures { (choices : SinkChoices) → FragmentsComeBack choices }
{}

/// The law `fragments_come_back` for every tokenizer, including the plain one.
pub fn fragments_come_back_over<R: Reader>()
    ensures { FragmentsComeBackBy R.Reads R.first R.Sink.choices }
{}

/// If a parser has taken the beginning of a page, it is in the data state, and its builder is at an element that takes nodes of
/// flow (`IsBox`), then the text of nodes that fit there changes nothing of the page but that element: without and with the
/// text, what is built from the page is what is built from the remainder, which must not be empty, by a tokenizer in the
/// data state over the same open elements, mode and list of active formatting elements. With the text, the nodes follow
/// that element's children. This holds for any chunks.
pub fn pages_keep_boxes<R: Reader>()
    ensures { PagesKeepBoxes R.Reader R.Sink.choices }
{}
