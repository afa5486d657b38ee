//! Names of SVG elements.
ghost use Rattle.std.specs.Prelude.{◌≡◌};
ghost use Rattle.h5_tables.specs.AdjustedNames.{adjusted_svg_tag};

use super::table::find;
use h5_names::{KnownName, LocalName};

// The adjusted names, by the names in lower case.
static SVG_TAGS: [(&str, KnownName); 37] = [
    ("altglyph", KnownName::AltGlyph),
    ("altglyphdef", KnownName::AltGlyphDef),
    ("altglyphitem", KnownName::AltGlyphItem),
    ("animatecolor", KnownName::AnimateColor),
    ("animatemotion", KnownName::AnimateMotion),
    ("animatetransform", KnownName::AnimateTransform),
    ("clippath", KnownName::ClipPath),
    ("feblend", KnownName::FeBlend),
    ("fecolormatrix", KnownName::FeColorMatrix),
    ("fecomponenttransfer", KnownName::FeComponentTransfer),
    ("fecomposite", KnownName::FeComposite),
    ("feconvolvematrix", KnownName::FeConvolveMatrix),
    ("fediffuselighting", KnownName::FeDiffuseLighting),
    ("fedisplacementmap", KnownName::FeDisplacementMap),
    ("fedistantlight", KnownName::FeDistantLight),
    ("fedropshadow", KnownName::FeDropShadow),
    ("feflood", KnownName::FeFlood),
    ("fefunca", KnownName::FeFuncA),
    ("fefuncb", KnownName::FeFuncB),
    ("fefuncg", KnownName::FeFuncG),
    ("fefuncr", KnownName::FeFuncR),
    ("fegaussianblur", KnownName::FeGaussianBlur),
    ("feimage", KnownName::FeImage),
    ("femerge", KnownName::FeMerge),
    ("femergenode", KnownName::FeMergeNode),
    ("femorphology", KnownName::FeMorphology),
    ("feoffset", KnownName::FeOffset),
    ("fepointlight", KnownName::FePointLight),
    ("fespecularlighting", KnownName::FeSpecularLighting),
    ("fespotlight", KnownName::FeSpotLight),
    ("fetile", KnownName::FeTile),
    ("feturbulence", KnownName::FeTurbulence),
    ("foreignobject", KnownName::ForeignObject),
    ("glyphref", KnownName::GlyphRef),
    ("lineargradient", KnownName::LinearGradient),
    ("radialgradient", KnownName::RadialGradient),
    ("textpath", KnownName::TextPath),
];

/// Returns the adjusted name of an SVG element, such as `clipPath` for `clippath`. Other names are unchanged. Doesn't allocate (HTML
/// standard, section 13.2.6.5, "The rules for parsing tokens in foreign content", any other start tag).
pub fn adjust_svg_tag_name(name: LocalName) -> LocalName
    ensures { result ≡ adjusted_svg_tag name }
{
    match find(&SVG_TAGS, name.as_str()) {
        Some(known) => LocalName::from_known(known),
        None => name,
    }
}
