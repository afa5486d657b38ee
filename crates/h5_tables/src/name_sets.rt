//! Sets of local names, each a bit of a known name's flags.
ghost use Rattle.std.specs.Prelude.{◌≡◌, false};
ghost use Rattle.h5_tables.specs.TagSets.{is_one_of};
ghost use Rattle.h5_names.specs.KnownNames.{name_text};
ghost use Rattle.h5_tables.specs.NameSets.{flag_of, has_flag, names_of};

use h5_names::{KnownName, LocalName};

/// A set of local names: of HTML elements, unless another language is named.
#[derive(Clone, Copy, Debug, PartialEq, Eq)]
pub enum NameSet {
    /// Special elements.
    Special,
    /// Elements that end a scope.
    DefaultScope,
    /// Elements that also end a list item scope.
    ListItemScope,
    /// Elements that also end a button scope.
    ButtonScope,
    /// Elements that end a table scope.
    TableScope,
    /// Table body contexts.
    TableBodyContext,
    /// Table row contexts.
    TableRowContext,
    /// Elements with implied end tags.
    CursoryImpliedEnd,
    /// Elements with implied end tags, if all are generated thoroughly.
    ThoroughImpliedEnd,
    /// `h1` to `h6`.
    Heading,
    /// Elements that may be open at the end of the body.
    BodyEndOk,
    /// Elements that belong in a head.
    HeadContent,
    /// Formatting elements.
    Formatting,
    /// Table cells.
    TdTh,
    /// Elements whose content is foster-parented.
    TableOuter,
    /// MathML text integration points.
    MathMlTextPoint,
    /// Special elements of MathML, which also end a scope.
    MathMlSpecial,
    /// SVG elements that are HTML integration points.
    SvgHtmlPoint,
    /// Elements that are serialized without content.
    Void,
    /// Elements whose text is serialized unescaped.
    RawText,
    /// Block elements whose start tags close a `p`.
    BlockStart,
    /// Block elements that their end tag closes if they are in scope.
    BlockEnd,
}

const SPECIAL: u32 = 1 << NameSet::Special as u32;

const DEFAULT_SCOPE: u32 = 1 << NameSet::DefaultScope as u32;

const LIST_ITEM_SCOPE: u32 = 1 << NameSet::ListItemScope as u32;

const BUTTON_SCOPE: u32 = 1 << NameSet::ButtonScope as u32;

const TABLE_SCOPE: u32 = 1 << NameSet::TableScope as u32;

const TABLE_BODY_CONTEXT: u32 = 1 << NameSet::TableBodyContext as u32;

const TABLE_ROW_CONTEXT: u32 = 1 << NameSet::TableRowContext as u32;

const CURSORY_IMPLIED_END: u32 = 1 << NameSet::CursoryImpliedEnd as u32;

const THOROUGH_IMPLIED_END: u32 = 1 << NameSet::ThoroughImpliedEnd as u32;

const HEADING: u32 = 1 << NameSet::Heading as u32;

const BODY_END_OK: u32 = 1 << NameSet::BodyEndOk as u32;

const HEAD_CONTENT: u32 = 1 << NameSet::HeadContent as u32;

const FORMATTING: u32 = 1 << NameSet::Formatting as u32;

const TD_TH: u32 = 1 << NameSet::TdTh as u32;

const TABLE_OUTER: u32 = 1 << NameSet::TableOuter as u32;

const MATHML_TEXT_POINT: u32 = 1 << NameSet::MathMlTextPoint as u32;

const MATHML_SPECIAL: u32 = 1 << NameSet::MathMlSpecial as u32;

const SVG_HTML_POINT: u32 = 1 << NameSet::SvgHtmlPoint as u32;

const VOID: u32 = 1 << NameSet::Void as u32;

const RAW_TEXT: u32 = 1 << NameSet::RawText as u32;

const BLOCK_START: u32 = 1 << NameSet::BlockStart as u32;

const BLOCK_END: u32 = 1 << NameSet::BlockEnd as u32;

// The sets of each known name, by its number.
static FLAGS: [u32; 221] = [
    FORMATTING, // a
    0, // action
    SPECIAL | BLOCK_START | BLOCK_END, // address
    0, // alt
    0, // altGlyph
    0, // altglyph
    0, // altGlyphDef
    0, // altglyphdef
    0, // altGlyphItem
    0, // altglyphitem
    0, // animateColor
    0, // animatecolor
    0, // animateMotion
    0, // animatemotion
    0, // animateTransform
    0, // animatetransform
    MATHML_SPECIAL, // annotation-xml
    SPECIAL | DEFAULT_SCOPE, // applet
    SPECIAL | VOID, // area
    SPECIAL | BLOCK_START | BLOCK_END, // article
    SPECIAL | BLOCK_START | BLOCK_END, // aside
    FORMATTING, // b
    SPECIAL | HEAD_CONTENT | VOID, // base
    SPECIAL | HEAD_CONTENT | VOID, // basefont
    SPECIAL | HEAD_CONTENT | VOID, // bgsound
    FORMATTING, // big
    SPECIAL | BLOCK_START | BLOCK_END, // blockquote
    SPECIAL | BODY_END_OK, // body
    SPECIAL | VOID, // br
    SPECIAL | BUTTON_SCOPE | BLOCK_END, // button
    SPECIAL | DEFAULT_SCOPE | THOROUGH_IMPLIED_END, // caption
    SPECIAL | BLOCK_START | BLOCK_END, // center
    0, // charset
    0, // class
    0, // clipPath
    0, // clippath
    FORMATTING, // code
    SPECIAL | VOID, // col
    SPECIAL | THOROUGH_IMPLIED_END, // colgroup
    0, // color
    0, // content
    SPECIAL | CURSORY_IMPLIED_END | THOROUGH_IMPLIED_END | BODY_END_OK, // dd
    0, // definitionURL
    0, // definitionurl
    SVG_HTML_POINT, // desc
    SPECIAL | BLOCK_START | BLOCK_END, // details
    BLOCK_START | BLOCK_END, // dialog
    SPECIAL | BLOCK_START | BLOCK_END, // dir
    SPECIAL | BLOCK_START | BLOCK_END, // div
    SPECIAL | BLOCK_START | BLOCK_END, // dl
    SPECIAL | CURSORY_IMPLIED_END | THOROUGH_IMPLIED_END | BODY_END_OK, // dt
    FORMATTING, // em
    SPECIAL | VOID, // embed
    0, // encoding
    0, // face
    0, // feBlend
    0, // feblend
    0, // feColorMatrix
    0, // fecolormatrix
    0, // feComponentTransfer
    0, // fecomponenttransfer
    0, // feComposite
    0, // fecomposite
    0, // feConvolveMatrix
    0, // feconvolvematrix
    0, // feDiffuseLighting
    0, // fediffuselighting
    0, // feDisplacementMap
    0, // fedisplacementmap
    0, // feDistantLight
    0, // fedistantlight
    0, // feDropShadow
    0, // fedropshadow
    0, // feFlood
    0, // feflood
    0, // feFuncA
    0, // fefunca
    0, // feFuncB
    0, // fefuncb
    0, // feFuncG
    0, // fefuncg
    0, // feFuncR
    0, // fefuncr
    0, // feGaussianBlur
    0, // fegaussianblur
    0, // feImage
    0, // feimage
    0, // feMerge
    0, // femerge
    0, // feMergeNode
    0, // femergenode
    0, // feMorphology
    0, // femorphology
    0, // feOffset
    0, // feoffset
    0, // fePointLight
    0, // fepointlight
    0, // feSpecularLighting
    0, // fespecularlighting
    0, // feSpotLight
    0, // fespotlight
    0, // feTile
    0, // fetile
    0, // feTurbulence
    0, // feturbulence
    SPECIAL | BLOCK_START | BLOCK_END, // fieldset
    SPECIAL | BLOCK_START | BLOCK_END, // figcaption
    SPECIAL | BLOCK_START | BLOCK_END, // figure
    FORMATTING, // font
    SPECIAL | BLOCK_START | BLOCK_END, // footer
    SVG_HTML_POINT, // foreignObject
    0, // foreignobject
    SPECIAL, // form
    SPECIAL | VOID, // frame
    SPECIAL, // frameset
    0, // glyphRef
    0, // glyphref
    SPECIAL | HEADING, // h1
    SPECIAL | HEADING, // h2
    SPECIAL | HEADING, // h3
    SPECIAL | HEADING, // h4
    SPECIAL | HEADING, // h5
    SPECIAL | HEADING, // h6
    SPECIAL, // head
    SPECIAL | BLOCK_START | BLOCK_END, // header
    0, // height
    SPECIAL | BLOCK_START | BLOCK_END, // hgroup
    SPECIAL | VOID, // hr
    0, // href
    SPECIAL | DEFAULT_SCOPE | TABLE_SCOPE | TABLE_BODY_CONTEXT | TABLE_ROW_CONTEXT | BODY_END_OK, // html
    0, // http-equiv
    FORMATTING, // i
    0, // id
    SPECIAL | RAW_TEXT, // iframe
    0, // image
    SPECIAL | VOID, // img
    SPECIAL | VOID, // input
    SPECIAL, // isindex
    SPECIAL | VOID, // keygen
    0, // lang
    SPECIAL | CURSORY_IMPLIED_END | THOROUGH_IMPLIED_END | BODY_END_OK, // li
    0, // linearGradient
    0, // lineargradient
    SPECIAL | HEAD_CONTENT | VOID, // link
    SPECIAL | BLOCK_END, // listing
    SPECIAL | BLOCK_START | BLOCK_END, // main
    0, // malignmark
    SPECIAL | DEFAULT_SCOPE, // marquee
    0, // math
    SPECIAL | BLOCK_START | BLOCK_END, // menu
    SPECIAL | HEAD_CONTENT | VOID, // meta
    0, // method
    0, // mglyph
    MATHML_TEXT_POINT | MATHML_SPECIAL, // mi
    MATHML_TEXT_POINT | MATHML_SPECIAL, // mn
    MATHML_TEXT_POINT | MATHML_SPECIAL, // mo
    MATHML_TEXT_POINT | MATHML_SPECIAL, // ms
    MATHML_TEXT_POINT | MATHML_SPECIAL, // mtext
    0, // name
    SPECIAL | BLOCK_START | BLOCK_END, // nav
    FORMATTING, // nobr
    SPECIAL | RAW_TEXT, // noembed
    SPECIAL | HEAD_CONTENT | RAW_TEXT, // noframes
    SPECIAL, // noscript
    SPECIAL | DEFAULT_SCOPE, // object
    SPECIAL | LIST_ITEM_SCOPE | BLOCK_START | BLOCK_END, // ol
    CURSORY_IMPLIED_END | THOROUGH_IMPLIED_END | BODY_END_OK, // optgroup
    CURSORY_IMPLIED_END | THOROUGH_IMPLIED_END | BODY_END_OK, // option
    SPECIAL | CURSORY_IMPLIED_END | THOROUGH_IMPLIED_END | BODY_END_OK | BLOCK_START, // p
    SPECIAL | VOID, // param
    SPECIAL | RAW_TEXT, // plaintext
    SPECIAL | BLOCK_END, // pre
    0, // radialGradient
    0, // radialgradient
    CURSORY_IMPLIED_END | THOROUGH_IMPLIED_END, // rb
    0, // rel
    CURSORY_IMPLIED_END | THOROUGH_IMPLIED_END | BODY_END_OK, // rp
    CURSORY_IMPLIED_END | THOROUGH_IMPLIED_END | BODY_END_OK, // rt
    CURSORY_IMPLIED_END | THOROUGH_IMPLIED_END, // rtc
    0, // ruby
    FORMATTING, // s
    SPECIAL | HEAD_CONTENT | RAW_TEXT, // script
    SPECIAL | BLOCK_START | BLOCK_END, // search
    SPECIAL | BLOCK_START | BLOCK_END, // section
    SPECIAL | DEFAULT_SCOPE | BLOCK_END, // select
    0, // shadowrootmode
    0, // size
    FORMATTING, // small
    SPECIAL | VOID, // source
    0, // span
    0, // src
    FORMATTING, // strike
    FORMATTING, // strong
    SPECIAL | HEAD_CONTENT | RAW_TEXT, // style
    0, // sub
    SPECIAL | BLOCK_START | BLOCK_END, // summary
    0, // sup
    0, // svg
    SPECIAL | DEFAULT_SCOPE | TABLE_SCOPE | TABLE_OUTER, // table
    SPECIAL | TABLE_BODY_CONTEXT | THOROUGH_IMPLIED_END | BODY_END_OK | TABLE_OUTER, // tbody
    SPECIAL | DEFAULT_SCOPE | THOROUGH_IMPLIED_END | BODY_END_OK | TD_TH, // td
    SPECIAL | DEFAULT_SCOPE | TABLE_SCOPE | TABLE_BODY_CONTEXT | TABLE_ROW_CONTEXT | HEAD_CONTENT, // template
    SPECIAL, // textarea
    0, // textPath
    0, // textpath
    SPECIAL | TABLE_BODY_CONTEXT | THOROUGH_IMPLIED_END | BODY_END_OK | TABLE_OUTER, // tfoot
    SPECIAL | DEFAULT_SCOPE | THOROUGH_IMPLIED_END | BODY_END_OK | TD_TH, // th
    SPECIAL | TABLE_BODY_CONTEXT | THOROUGH_IMPLIED_END | BODY_END_OK | TABLE_OUTER, // thead
    SPECIAL | HEAD_CONTENT | SVG_HTML_POINT, // title
    SPECIAL | TABLE_ROW_CONTEXT | THOROUGH_IMPLIED_END | BODY_END_OK | TABLE_OUTER, // tr
    SPECIAL | VOID, // track
    FORMATTING, // tt
    0, // type
    FORMATTING, // u
    SPECIAL | LIST_ITEM_SCOPE | BLOCK_START | BLOCK_END, // ul
    0, // value
    0, // var
    SPECIAL | VOID, // wbr
    0, // width
    SPECIAL | RAW_TEXT, // xmp
    0, // any other
];

// The sets of a known name.
fn flags(known: KnownName) -> u32
    ensures { (set : NameSet) → has_flag result set ≡ is_one_of (names_of set) (name_text known) }
{
    FLAGS[known as usize]
}

impl NameSet {
    // The bit of this set.
    fn flag(self) -> u32
        ensures { result ≡ flag_of self }
    {
        1 << self as u32
    }

    /// Returns true if this set has a local name. Doesn't read the text of a known name.
    pub fn holds(self, name: &LocalName) -> bool
        ensures { result ≡ is_one_of (names_of self) name.now }
    {
        NameSets::of(name).has(self)
    }
}

/// Sets of local names, each a bit. To test a name against several sets, its sets are read once.
#[derive(Clone, Copy)]
pub struct NameSets {
    pub flags: u32,
}

impl NameSets {
    /// The sets of a local name. Doesn't read the text of a known name.
    pub fn of(name: &LocalName) -> NameSets
        ensures { (set : NameSet) → has_flag result.flags set ≡ is_one_of (names_of set) name.now }
    {
        NameSets {
            flags: flags(name.known()),
        }
    }

    /// The sets of a MathML or SVG element, of the sets that have elements of any namespace: it is special and ends a scope, or neither.
    pub fn of_foreign(is_special: bool) -> NameSets
        ensures special { has_flag result.flags NameSet.Special ≡ is_special }
        ensures scope { has_flag result.flags NameSet.DefaultScope ≡ is_special }
        ensures button { has_flag result.flags NameSet.ButtonScope ≡ false }
        ensures implied { has_flag result.flags NameSet.CursoryImpliedEnd ≡ false }
        ensures body_end { has_flag result.flags NameSet.BodyEndOk ≡ false }
    {
        NameSets {
            flags: if is_special {
                SPECIAL | DEFAULT_SCOPE
            } else {
                0
            },
        }
    }

    /// Returns true if this set is one of them.
    pub fn has(self, set: NameSet) -> bool
        ensures { result ≡ has_flag self.flags set }
    {
        self.flags & set.flag() != 0
    }
}
