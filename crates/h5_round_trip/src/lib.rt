//! Plain documents, written and read back: their text, and that it is read as the document's tokens. Also markup that
//! both tokenizers read in the same way. Definitions and laws, without code.
//!
//! `laws` has the laws: a serializer writes the text of the document if no `pre` begins with a newline; the tokenizer
//! of `h5_plain_tokenizer` reads that text as the document's tokens; escaped values are read back; and different documents
//! have different texts. `laws::standard` has the laws of reading by the states of HTML's tokenization (HTML standard,
//! section 13.2.5).
//!
//! The crate depends on `h5_builder_laws`, on the serializer and the arena for writing, and on `h5_markup`, `h5_plain_tokenizer`,
//! `h5_tokenizer_spec` and `h5_standard_tokenizer` for reading. `h5_driver` uses its laws to show that a parser builds the document
//! again. Begin with `specs/Written.antt` (the text of a document), `specs/Readable.antt` (texts that are read back as
//! they were written) and `specs/Markup.antt` (markup that both tokenizers read in the same way), then read
//! `src/laws.rt`.
#![tactic(auto)]

pub mod laws;
