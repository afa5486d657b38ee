//! Decoders for encodings other than UTF-8, and the encoding of a page (Encoding Standard; HTML standard, section 13.2.3.2).
//!
//! `encoding` has the encodings, `labels` and `label` their labels. `decoder` decodes bytes that come in chunks: UTF-8 by
//! `h5_tokenizer_input`, the others byte by byte in `reading`; `steps` has the output of a byte and what is stored after it. `laws` has
//! the law that splits don't matter. Each decoder has a module: `single_byte` (tables in `upper_halves`), `utf16`,
//! `user_defined`, `replacement`, `gb18030`, `big5`, `euc_jp`, `iso_2022_jp`, `shift_jis` and `euc_kr`. The last six share
//! `multi_byte`, and have their tables in the modules whose names end in `_index` or `_ranges`.
//!
//! `sniffing` determines the encoding of a page from its first 1,024 bytes. `prescan` looks for an encoding in them: `cut`
//! splits bytes, `attribute` reads the attributes of a tag, `said` evaluates those of a `meta`, and `xml` reads an XML
//! declaration.
//!
//! `write_tables.py` writes `encoding`, `labels`, `upper_halves`, the indexes and their definitions from `encodings.txt` and
//! `indexes.txt`. Begin with `specs/Steps.antt`, `specs/Decoding.antt` and `src/decoder.rt`; for sniffing with
//! `specs/Sniffing.antt` and `specs/Prescan.antt`.
#![tactic(auto)]

mod attribute;
mod big5;
mod big5_index;
mod cut;
mod decoder;
mod encoding;
mod euc_jp;
mod euc_kr;
mod euc_kr_index;
mod gb18030;
mod gb18030_index;
mod gb18030_ranges;
mod iso_2022_jp;
mod jis0208_index;
mod jis0212_index;
mod label;
mod labels;
mod laws;
mod multi_byte;
mod prescan;
mod reading;
mod replacement;
mod said;
mod shift_jis;
mod single_byte;
mod sniffing;
mod steps;
mod upper_halves;
mod user_defined;
mod utf16;
mod xml;

pub use decoder::Decoder;
pub use encoding::{Encoding, SingleByte};
pub use laws::cuts_dont_matter;
pub use sniffing::{EncodingOpts, Source, sniff};
