//! How elements are shown without a style sheet.
ghost use Rattle.std.specs.Prelude.{◌≡◌, codes};
ghost use Rattle.h5_page.specs.Displays as d;

use html_tree_builder::names::{KnownName, QualName};

/// How an element is shown without a style sheet (HTML standard, section 15.3, "Non-replaced elements"; SVG 2, "User agent style
/// sheet").
#[derive(Clone, Copy, Debug)]
pub enum Display {
    /// In its line. This is the display of every element that isn't named below.
    Inline,
    /// Not shown.
    Nothing,
    /// On separate lines.
    Block,
    /// On separate lines, with an empty line before and after.
    Paragraph,
    /// `blockquote`: an indented paragraph.
    Quote,
    /// `dd`: an indented block.
    Description,
    /// `pre` and similar: a paragraph that keeps whitespace.
    Preformatted,
    /// `textarea`: a block that keeps whitespace.
    Field,
    /// A list whose items have no numbers, such as `ul`.
    Bulleted,
    /// `ol`: a list whose items have numbers.
    Numbered,
    /// `li`.
    Item,
    /// `td`, `th`.
    Cell,
    /// `br`.
    LineEnd,
    /// `hr`.
    Rule,
    /// `img`, shown as its alternative text.
    Picture,
    /// `optgroup`, which has a label.
    Group,
    /// `dialog`: a block if it is open.
    Dialog,
    /// `a` of HTML or SVG.
    Link,
}

// Known names of elements that are shown on separate lines.
fn block_display(name: KnownName) -> Display
    ensures { result ≡ d.block_display name }
{
    match name {
        KnownName::Address
        | KnownName::Article
        | KnownName::Aside
        | KnownName::Body
        | KnownName::Caption
        | KnownName::Center
        | KnownName::Details
        | KnownName::Div
        | KnownName::Dt
        | KnownName::Fieldset
        | KnownName::Figcaption
        | KnownName::Footer
        | KnownName::Form
        | KnownName::Header
        | KnownName::Hgroup
        | KnownName::Html
        | KnownName::Main
        | KnownName::Nav
        | KnownName::Option
        | KnownName::Search
        | KnownName::Section
        | KnownName::Summary
        | KnownName::Table
        | KnownName::Tbody
        | KnownName::Tfoot
        | KnownName::Thead
        | KnownName::Tr => Display::Block,
        _ => Display::Inline,
    }
}

// Known names of elements with an empty line before and after, and of those that aren't shown.
fn wide_display(name: KnownName) -> Display
    ensures { result ≡ d.wide_display name }
{
    match name {
        KnownName::Figure
        | KnownName::H1
        | KnownName::H2
        | KnownName::H3
        | KnownName::H4
        | KnownName::H5
        | KnownName::H6
        | KnownName::P
        | KnownName::Title => Display::Paragraph,
        KnownName::Listing | KnownName::Plaintext | KnownName::Pre | KnownName::Xmp => {
            Display::Preformatted
        }
        KnownName::Iframe
        | KnownName::Noembed
        | KnownName::Noframes
        | KnownName::Rp
        | KnownName::Script
        | KnownName::Style
        | KnownName::Template => Display::Nothing,
        _ => block_display(name),
    }
}

// Known names with a specific display, and all others.
fn known_display(name: KnownName) -> Display
    ensures { result ≡ d.known_display name }
{
    match name {
        KnownName::A => Display::Link,
        KnownName::Blockquote => Display::Quote,
        KnownName::Br => Display::LineEnd,
        KnownName::Dd => Display::Description,
        KnownName::Dialog => Display::Dialog,
        KnownName::Dir | KnownName::Dl | KnownName::Menu | KnownName::Ul => Display::Bulleted,
        KnownName::Hr => Display::Rule,
        KnownName::Img => Display::Picture,
        KnownName::Li => Display::Item,
        KnownName::Ol => Display::Numbered,
        KnownName::Optgroup => Display::Group,
        KnownName::Td | KnownName::Th => Display::Cell,
        KnownName::Textarea => Display::Field,
        _ => wide_display(name),
    }
}

// Names of HTML elements that aren't known names.
fn other_display(name: &str) -> Display
    ensures { result ≡ d.other_display name.now }
{
    match name {
        "audio" | "canvas" | "datalist" | "meter" | "progress" | "video" => Display::Nothing,
        "legend" => Display::Block,
        _ => Display::Inline,
    }
}

// Names of HTML elements.
fn html_display(scripting_enabled: bool, name: &QualName) -> Display
    ensures { result ≡ d.html_display scripting_enabled name.now.local }
{
    match name.local.known() {
        KnownName::Noscript if scripting_enabled => Display::Nothing,
        KnownName::Noscript => Display::Inline,
        KnownName::Other => other_display(name.local.as_str()),
        known => known_display(known),
    }
}

// Names of SVG elements.
fn svg_display(name: &str) -> Display
    ensures { result ≡ d.svg_display name.now }
{
    match name {
        "clipPath"
        | "defs"
        | "desc"
        | "linearGradient"
        | "marker"
        | "mask"
        | "metadata"
        | "pattern"
        | "radialGradient"
        | "script"
        | "style"
        | "symbol"
        | "title" => { Display::Nothing }
        "a" => Display::Link,
        "text" => Display::Block,
        _ => Display::Inline,
    }
}

// Names of MathML elements.
fn mathml_display(name: &str) -> Display
    ensures { result ≡ d.mathml_display name.now }
{
    match name {
        "annotation" | "annotation-xml" => Display::Nothing,
        _ => Display::Inline,
    }
}

/// Returns how an element with this name is shown.
pub fn display_of(scripting_enabled: bool, name: &QualName) -> Display
    ensures { result ≡ d.display_of scripting_enabled name.now }
{
    if name.ns.is_html() {
        html_display(scripting_enabled, name)
    } else if name.ns.is_svg() {
        svg_display(name.local.as_str())
    } else if name.ns.is_mathml() {
        mathml_display(name.local.as_str())
    } else {
        Display::Inline
    }
}

impl Display {
    /// Returns the name of the attribute that the display uses, or the empty text. Most use none.
    pub fn asked(self) -> &'static str
        ensures { result.now ≡ d.asked self }
    {
        match self {
            Display::Dialog => "open",
            Display::Group => "label",
            Display::Item => "value",
            Display::Link => "href",
            Display::Numbered => "start",
            Display::Picture => "alt",
            _ => "",
        }
    }

    /// Returns true if it is a list.
    pub fn is_list(self) -> bool
        ensures { result ≡ d.is_list self }
    {
        matches!(self, Display::Bulleted | Display::Numbered)
    }

    /// Returns true if it keeps whitespace.
    pub fn keeps_blanks(self) -> bool
        ensures { result ≡ d.keeps_blanks self }
    {
        matches!(self, Display::Preformatted | Display::Field)
    }

    /// Returns true if it is indented.
    pub fn is_indented(self) -> bool
        ensures { result ≡ d.is_indented self }
    {
        matches!(self, Display::Item | Display::Description | Display::Quote)
    }
}
