//! The flags of a new element, and the quirks mode of a document.

/// The flags of a new element, in addition to its name and its attributes.
#[derive(Clone, Copy, Debug, PartialEq, Eq)]
pub struct ElementFlags {
    /// True for an HTML `template`, whose template contents are made with it (HTML standard, section 4.12.3, "The template element").
    pub template: bool,
    /// True for a MathML `annotation-xml` whose `encoding` names HTML (HTML standard, section 13.2.6, "Tree construction", HTML integration
    /// point).
    pub mathml_annotation_xml_integration_point: bool,
    /// True if the tokenizer dropped an attribute of the tag because its name was a duplicate.
    pub had_duplicate_attributes: bool,
}

/// The mode of a document (DOM standard, section 4.5, "Interface Document", mode).
#[derive(Clone, Copy, Debug, PartialEq, Eq)]
pub enum QuirksMode {
    Quirks,
    LimitedQuirks,
    NoQuirks,
}
