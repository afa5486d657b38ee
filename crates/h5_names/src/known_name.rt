//! The names that HTML knows.
ghost use Rattle.std.specs.Prelude.{◌≡◌, ◌<◌, [], get_or, length, map};
ghost use Rattle.std.specs.Char.{to_ascii_lowercase};
ghost use Rattle.h5_names.specs.KnownNames.{known_name_of, name_text};

use super::known_cases::{in_lower_case, in_mixed_case};
use super::known_slots::{candidate, short_name};

/// A name of an element or an attribute that HTML knows, or `Other`.
///
/// The text of a variant is its own name in lower case, unless another text is given above the variant.
#[derive(Clone, Copy, Debug, PartialEq, Eq)]
pub enum KnownName {
    A,
    Action,
    Address,
    Alt,
    /// `altGlyph`.
    AltGlyph,
    /// `altglyph`.
    AltGlyphLowercase,
    /// `altGlyphDef`.
    AltGlyphDef,
    /// `altglyphdef`.
    AltGlyphDefLowercase,
    /// `altGlyphItem`.
    AltGlyphItem,
    /// `altglyphitem`.
    AltGlyphItemLowercase,
    /// `animateColor`.
    AnimateColor,
    /// `animatecolor`.
    AnimateColorLowercase,
    /// `animateMotion`.
    AnimateMotion,
    /// `animatemotion`.
    AnimateMotionLowercase,
    /// `animateTransform`.
    AnimateTransform,
    /// `animatetransform`.
    AnimateTransformLowercase,
    /// `annotation-xml`.
    AnnotationXml,
    Applet,
    Area,
    Article,
    Aside,
    B,
    Base,
    Basefont,
    Bgsound,
    Big,
    Blockquote,
    Body,
    Br,
    Button,
    Caption,
    Center,
    Charset,
    Class,
    /// `clipPath`.
    ClipPath,
    /// `clippath`.
    ClipPathLowercase,
    Code,
    Col,
    Colgroup,
    Color,
    Content,
    Dd,
    /// `definitionURL`.
    DefinitionUrl,
    /// `definitionurl`.
    DefinitionUrlLowercase,
    Desc,
    Details,
    Dialog,
    Dir,
    Div,
    Dl,
    Dt,
    Em,
    Embed,
    Encoding,
    Face,
    /// `feBlend`.
    FeBlend,
    /// `feblend`.
    FeBlendLowercase,
    /// `feColorMatrix`.
    FeColorMatrix,
    /// `fecolormatrix`.
    FeColorMatrixLowercase,
    /// `feComponentTransfer`.
    FeComponentTransfer,
    /// `fecomponenttransfer`.
    FeComponentTransferLowercase,
    /// `feComposite`.
    FeComposite,
    /// `fecomposite`.
    FeCompositeLowercase,
    /// `feConvolveMatrix`.
    FeConvolveMatrix,
    /// `feconvolvematrix`.
    FeConvolveMatrixLowercase,
    /// `feDiffuseLighting`.
    FeDiffuseLighting,
    /// `fediffuselighting`.
    FeDiffuseLightingLowercase,
    /// `feDisplacementMap`.
    FeDisplacementMap,
    /// `fedisplacementmap`.
    FeDisplacementMapLowercase,
    /// `feDistantLight`.
    FeDistantLight,
    /// `fedistantlight`.
    FeDistantLightLowercase,
    /// `feDropShadow`.
    FeDropShadow,
    /// `fedropshadow`.
    FeDropShadowLowercase,
    /// `feFlood`.
    FeFlood,
    /// `feflood`.
    FeFloodLowercase,
    /// `feFuncA`.
    FeFuncA,
    /// `fefunca`.
    FeFuncALowercase,
    /// `feFuncB`.
    FeFuncB,
    /// `fefuncb`.
    FeFuncBLowercase,
    /// `feFuncG`.
    FeFuncG,
    /// `fefuncg`.
    FeFuncGLowercase,
    /// `feFuncR`.
    FeFuncR,
    /// `fefuncr`.
    FeFuncRLowercase,
    /// `feGaussianBlur`.
    FeGaussianBlur,
    /// `fegaussianblur`.
    FeGaussianBlurLowercase,
    /// `feImage`.
    FeImage,
    /// `feimage`.
    FeImageLowercase,
    /// `feMerge`.
    FeMerge,
    /// `femerge`.
    FeMergeLowercase,
    /// `feMergeNode`.
    FeMergeNode,
    /// `femergenode`.
    FeMergeNodeLowercase,
    /// `feMorphology`.
    FeMorphology,
    /// `femorphology`.
    FeMorphologyLowercase,
    /// `feOffset`.
    FeOffset,
    /// `feoffset`.
    FeOffsetLowercase,
    /// `fePointLight`.
    FePointLight,
    /// `fepointlight`.
    FePointLightLowercase,
    /// `feSpecularLighting`.
    FeSpecularLighting,
    /// `fespecularlighting`.
    FeSpecularLightingLowercase,
    /// `feSpotLight`.
    FeSpotLight,
    /// `fespotlight`.
    FeSpotLightLowercase,
    /// `feTile`.
    FeTile,
    /// `fetile`.
    FeTileLowercase,
    /// `feTurbulence`.
    FeTurbulence,
    /// `feturbulence`.
    FeTurbulenceLowercase,
    Fieldset,
    Figcaption,
    Figure,
    Font,
    Footer,
    /// `foreignObject`.
    ForeignObject,
    /// `foreignobject`.
    ForeignObjectLowercase,
    Form,
    Frame,
    Frameset,
    /// `glyphRef`.
    GlyphRef,
    /// `glyphref`.
    GlyphRefLowercase,
    H1,
    H2,
    H3,
    H4,
    H5,
    H6,
    Head,
    Header,
    Height,
    Hgroup,
    Hr,
    Href,
    Html,
    /// `http-equiv`.
    HttpEquiv,
    I,
    Id,
    Iframe,
    Image,
    Img,
    Input,
    Isindex,
    Keygen,
    Lang,
    Li,
    /// `linearGradient`.
    LinearGradient,
    /// `lineargradient`.
    LinearGradientLowercase,
    Link,
    Listing,
    Main,
    Malignmark,
    Marquee,
    Math,
    Menu,
    Meta,
    Method,
    Mglyph,
    Mi,
    Mn,
    Mo,
    Ms,
    Mtext,
    Name,
    Nav,
    Nobr,
    Noembed,
    Noframes,
    Noscript,
    Object,
    Ol,
    Optgroup,
    Option,
    P,
    Param,
    Plaintext,
    Pre,
    /// `radialGradient`.
    RadialGradient,
    /// `radialgradient`.
    RadialGradientLowercase,
    Rb,
    Rel,
    Rp,
    Rt,
    Rtc,
    Ruby,
    S,
    Script,
    Search,
    Section,
    Select,
    Shadowrootmode,
    Size,
    Small,
    Source,
    Span,
    Src,
    Strike,
    Strong,
    Style,
    Sub,
    Summary,
    Sup,
    Svg,
    Table,
    Tbody,
    Td,
    Template,
    Textarea,
    /// `textPath`.
    TextPath,
    /// `textpath`.
    TextPathLowercase,
    Tfoot,
    Th,
    Thead,
    Title,
    Tr,
    Track,
    Tt,
    /// `type`.
    TypeName,
    U,
    Ul,
    Value,
    Var,
    Wbr,
    Width,
    Xmp,
    /// Any other name.
    Other,
}

// The texts of the names, by their numbers.
static TEXTS: [&str; 221] = [
    "a",
    "action",
    "address",
    "alt",
    "altGlyph",
    "altglyph",
    "altGlyphDef",
    "altglyphdef",
    "altGlyphItem",
    "altglyphitem",
    "animateColor",
    "animatecolor",
    "animateMotion",
    "animatemotion",
    "animateTransform",
    "animatetransform",
    "annotation-xml",
    "applet",
    "area",
    "article",
    "aside",
    "b",
    "base",
    "basefont",
    "bgsound",
    "big",
    "blockquote",
    "body",
    "br",
    "button",
    "caption",
    "center",
    "charset",
    "class",
    "clipPath",
    "clippath",
    "code",
    "col",
    "colgroup",
    "color",
    "content",
    "dd",
    "definitionURL",
    "definitionurl",
    "desc",
    "details",
    "dialog",
    "dir",
    "div",
    "dl",
    "dt",
    "em",
    "embed",
    "encoding",
    "face",
    "feBlend",
    "feblend",
    "feColorMatrix",
    "fecolormatrix",
    "feComponentTransfer",
    "fecomponenttransfer",
    "feComposite",
    "fecomposite",
    "feConvolveMatrix",
    "feconvolvematrix",
    "feDiffuseLighting",
    "fediffuselighting",
    "feDisplacementMap",
    "fedisplacementmap",
    "feDistantLight",
    "fedistantlight",
    "feDropShadow",
    "fedropshadow",
    "feFlood",
    "feflood",
    "feFuncA",
    "fefunca",
    "feFuncB",
    "fefuncb",
    "feFuncG",
    "fefuncg",
    "feFuncR",
    "fefuncr",
    "feGaussianBlur",
    "fegaussianblur",
    "feImage",
    "feimage",
    "feMerge",
    "femerge",
    "feMergeNode",
    "femergenode",
    "feMorphology",
    "femorphology",
    "feOffset",
    "feoffset",
    "fePointLight",
    "fepointlight",
    "feSpecularLighting",
    "fespecularlighting",
    "feSpotLight",
    "fespotlight",
    "feTile",
    "fetile",
    "feTurbulence",
    "feturbulence",
    "fieldset",
    "figcaption",
    "figure",
    "font",
    "footer",
    "foreignObject",
    "foreignobject",
    "form",
    "frame",
    "frameset",
    "glyphRef",
    "glyphref",
    "h1",
    "h2",
    "h3",
    "h4",
    "h5",
    "h6",
    "head",
    "header",
    "height",
    "hgroup",
    "hr",
    "href",
    "html",
    "http-equiv",
    "i",
    "id",
    "iframe",
    "image",
    "img",
    "input",
    "isindex",
    "keygen",
    "lang",
    "li",
    "linearGradient",
    "lineargradient",
    "link",
    "listing",
    "main",
    "malignmark",
    "marquee",
    "math",
    "menu",
    "meta",
    "method",
    "mglyph",
    "mi",
    "mn",
    "mo",
    "ms",
    "mtext",
    "name",
    "nav",
    "nobr",
    "noembed",
    "noframes",
    "noscript",
    "object",
    "ol",
    "optgroup",
    "option",
    "p",
    "param",
    "plaintext",
    "pre",
    "radialGradient",
    "radialgradient",
    "rb",
    "rel",
    "rp",
    "rt",
    "rtc",
    "ruby",
    "s",
    "script",
    "search",
    "section",
    "select",
    "shadowrootmode",
    "size",
    "small",
    "source",
    "span",
    "src",
    "strike",
    "strong",
    "style",
    "sub",
    "summary",
    "sup",
    "svg",
    "table",
    "tbody",
    "td",
    "template",
    "textarea",
    "textPath",
    "textpath",
    "tfoot",
    "th",
    "thead",
    "title",
    "tr",
    "track",
    "tt",
    "type",
    "u",
    "ul",
    "value",
    "var",
    "wbr",
    "width",
    "xmp",
    "",
];

// The text at this place of a table.
fn nth_text(texts: &[&'static str], number: usize) -> &'static str
    requires { number < length texts.now }
    ensures { result.now ≡ get_or (map (λ text. text.now) texts.now) number [] }
{
    texts[number]
}

impl KnownName {
    /// The text of the name; that of `Other` is empty.
    pub fn as_str(self) -> &'static str
        ensures { result.now ≡ name_text self }
    {
        nth_text(&TEXTS, self as usize)
    }

    /// The name that HTML knows by this text, or `Other`.
    pub fn from_text(text: &str) -> KnownName
        ensures { result ≡ known_name_of text.now }
    {
        if text.len() <= 7 {
            return short_name(text);
        }
        let lower = candidate(text);
        if lower.as_str() == text {
            return lower;
        }
        let mixed = in_mixed_case(lower);
        if mixed.as_str() == text {
            mixed
        } else {
            KnownName::Other
        }
    }

    /// The name in ASCII lower case.
    pub fn to_ascii_lowercase(self) -> KnownName
        ensures { name_text result ≡ map to_ascii_lowercase (name_text self) }
    {
        in_lower_case(self)
    }
}
