//! The encoding that a `meta` element declares.
pub use h5_tables::extract_a_character_encoding_from_a_meta_element;
