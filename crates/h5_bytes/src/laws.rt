//! How the bytes of a page are split doesn't matter.
ghost use Rattle.std.specs.Prelude.{ℕ, List, ◌++◌, []};
ghost use Rattle.h5_interface.specs.Seen.{Seen};
ghost use Rattle.h5_driver.specs.Parsing.{joined, text_of, view_of};
ghost use Rattle.h5_driver.specs.Reading.{Parses};
ghost use Rattle.h5_bytes.specs.Parsing.{ParsingPage, ProcessedAllBytes};
ghost use Rattle.h5_bytes.specs.Texts.{text_behind};

use h5_driver::Reader;

/// If a parser of bytes takes chunks by `process` one after another, and `finish` follows, the sink shows what it shows for the
/// text of all bytes together, in the encoding that they determine.
pub fn chunks_then_finish<R: Reader>()
    ensures { (chunks : List (List ℕ)) (first last : ParsingPage R) (told : Seen) →
        ProcessedAllBytes R.Reader chunks first last
        → Parses R.Reads R.Sink.choices (text_of R.Reader last.parser) (view_of R.Reader last.parser) (last.parser.waiting ++ text_behind last.opts last.stage []) told
        → Parses R.Reads R.Sink.choices (text_of R.Reader first.parser) (view_of R.Reader first.parser) (first.parser.waiting ++ text_behind first.opts first.stage (joined chunks)) told }
{}
