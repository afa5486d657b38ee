//! A proved port of html5ever's tree builder, driver and serializer. Modules that html5ever has are under its names, and the
//! names that most callers need are at the root.
//!
//! ```text
//! text or bytes -> Parser -> a sink of trees (Arena) -> serialize::serialize -> text
//! ```
//!
//! The parser at the root uses the standard tokenizer, which reads all of HTML (WHATWG HTML standard, section 13.2.5). The
//! standard tokenizer itself is in `standard`. The plain tokenizer, which reads one exact subset, is in `tokenizer`, and the
//! parser over it is in `driver`, with the same names.
//!
//! `specs/Lib.antt` re-exports what contracts cite, so a caller with contracts depends on this crate alone. Begin with `Parser`
//! in `h5_driver`.
#![tactic(auto)]

pub mod encoding;
pub mod laws;
pub mod standard;

pub use h5_arena::{Arena, NodeId};
pub use h5_driver::standard::{
    Parser, StandardReader, Utf8Parser, parse_document, parse_fragment, parse_fragment_for_element,
};
pub use h5_driver::{ParseOpts, Reader};
pub use h5_interface::{NodeOrText, QuirksMode, TreeSink};
pub use h5_names::{Attribute, ExpandedName, LocalName, Namespace, Prefix, QualName, namespaces};
pub use h5_serialize::{Serialize, SerializeOpts, Serializer, TraversalScope};
pub use h5_tokenizer_input::{BufferQueue, TokenizerOpts, TokenizerResult};

/// The sink that keeps a tree, and its nodes.
pub mod arena {
    pub use h5_arena::{Arena, Child, EditError, Kind, NodeId, NodeRef};
}

/// Parsing of bytes in any encoding.
pub mod bytes {
    pub use h5_bytes::BytesParser;
}

/// Cleaning by a policy.
pub mod clean {
    pub use h5_clean::{
        AllowList, Around, Cleaner, DefaultPolicy, Front, Kind, OpenElement, Place, Policy, Spot,
        clean, clean_into, clean_tree, is_prefix, is_refused, kind_of, may_act,
    };
}

/// Doctypes, and names that are adjusted in SVG and MathML.
pub mod data {
    pub use h5_tables::{
        adjust_foreign_attributes, adjust_mathml_attributes, adjust_svg_attributes,
        adjust_svg_tag_name, doctype_error_and_quirks,
    };
}

/// The parser over the plain tokenizer.
pub mod driver {
    pub use h5_driver::{
        ParseOpts, Parser, PlainReader, Reader, Utf8Parser, parse_document, parse_fragment,
        parse_fragment_for_element,
    };
}

/// Edits of a tree, each at one node.
pub mod edit {
    pub use h5_edit::{Edit, EditFault, edit_node};
}

/// Decoding by the Encoding Standard.
pub mod encodings {
    pub use h5_encodings::{Decoder, Encoding, EncodingOpts, SingleByte, Source, sniff};
}

/// The trait of sinks.
pub mod interface {
    pub use h5_interface::{
        ElementFlags, NodeOrText, QuirksMode, TreeSink, create_element, create_element_with_flags,
    };
}

/// Names of elements, attributes and namespaces.
pub mod names {
    pub use h5_names::{
        Attribute, ExpandedName, KnownName, LocalName, Namespace, Prefix, QualName, namespaces,
    };
}

/// CSS selectors.
pub mod select {
    pub use h5_selectors::{
        AnPlusB, AttrTest, Formula, Operator, Selector, SelectorError, SelectorProblem, Side, Way,
        Written,
    };
}

/// Writing a tree.
pub mod serialize {
    pub use h5_serialize::{
        AttrRef, HtmlSerializer, Serialize, SerializeFault, SerializeOpts, Serializer,
        TraversalScope, Visit, VisitSerializer, escape_attribute, escape_text, serialize,
    };
}

/// Sets of element names.
pub mod tag_sets {
    pub use h5_tables::{
        ElementSet, body_end_ok, button_scope, cursory_implied_end, default_scope, formatting_tag,
        head_content_tag, heading_tag, list_item_scope, mathml_text_integration_point, special_tag,
        svg_html_integration_point, table_body_context, table_outer, table_row_context,
        table_scope, td_th, thorough_implied_end,
    };
}

/// Tokens and their sinks.
pub mod token {
    pub use h5_token::{
        BuildFault, Doctype, Tag, TagKind, Token, TokenSink, TokenSinkResult, states,
    };
}

/// The plain tokenizer.
pub mod tokenizer {
    pub use h5_plain_tokenizer::Tokenizer;
    pub use h5_tokenizer_input::{BufferQueue, TokenizerOpts, TokenizerResult};
}

/// Trees that are read, which selectors select in.
pub mod tree {
    pub use h5_tree::Tree;
}

/// The tree builder.
pub mod tree_builder {
    pub use h5_tree_builder::{
        ActiveFormattingIter, PushFlag, Reply, TreeBuilder, TreeBuilderOpts, html_elem,
    };
}

/// Types of the tree builder: insertion modes, the tokens that take turns, and parse errors.
pub mod types {
    pub use h5_tables::{FormatEntry, InsertionMode, ProcessResult, SplitStatus, Token, TreeError};
}

/// Decoding of UTF-8.
pub mod utf8 {
    pub use h5_tokenizer_input::Utf8LossyDecoder;
}
