//! Entries of the list of active formatting elements.
use h5_token::Tag;

/// An entry of the list of active formatting elements (HTML standard, section 13.2.4.3).
#[derive(Drop)]
pub enum FormatEntry<Handle> {
    /// An element, and the tag for which it was created.
    Element(Handle, Tag),
    Marker,
}
