//! The adjusted names of attributes in SVG and MathML, by their local names in lower case.

use super::place::Place;

// SVG attributes.
pub static SVG_ATTRIBUTES: [(&str, (Place, &str)); 58] = [
    ("attributename", (Place::Unqualified, "attributeName")),
    ("attributetype", (Place::Unqualified, "attributeType")),
    ("basefrequency", (Place::Unqualified, "baseFrequency")),
    ("baseprofile", (Place::Unqualified, "baseProfile")),
    ("calcmode", (Place::Unqualified, "calcMode")),
    ("clippathunits", (Place::Unqualified, "clipPathUnits")),
    ("diffuseconstant", (Place::Unqualified, "diffuseConstant")),
    ("edgemode", (Place::Unqualified, "edgeMode")),
    ("filterunits", (Place::Unqualified, "filterUnits")),
    ("glyphref", (Place::Unqualified, "glyphRef")),
    (
        "gradienttransform",
        (Place::Unqualified, "gradientTransform"),
    ),
    ("gradientunits", (Place::Unqualified, "gradientUnits")),
    ("kernelmatrix", (Place::Unqualified, "kernelMatrix")),
    ("kernelunitlength", (Place::Unqualified, "kernelUnitLength")),
    ("keypoints", (Place::Unqualified, "keyPoints")),
    ("keysplines", (Place::Unqualified, "keySplines")),
    ("keytimes", (Place::Unqualified, "keyTimes")),
    ("lengthadjust", (Place::Unqualified, "lengthAdjust")),
    (
        "limitingconeangle",
        (Place::Unqualified, "limitingConeAngle"),
    ),
    ("markerheight", (Place::Unqualified, "markerHeight")),
    ("markerunits", (Place::Unqualified, "markerUnits")),
    ("markerwidth", (Place::Unqualified, "markerWidth")),
    ("maskcontentunits", (Place::Unqualified, "maskContentUnits")),
    ("maskunits", (Place::Unqualified, "maskUnits")),
    ("numoctaves", (Place::Unqualified, "numOctaves")),
    ("pathlength", (Place::Unqualified, "pathLength")),
    (
        "patterncontentunits",
        (Place::Unqualified, "patternContentUnits"),
    ),
    ("patterntransform", (Place::Unqualified, "patternTransform")),
    ("patternunits", (Place::Unqualified, "patternUnits")),
    ("pointsatx", (Place::Unqualified, "pointsAtX")),
    ("pointsaty", (Place::Unqualified, "pointsAtY")),
    ("pointsatz", (Place::Unqualified, "pointsAtZ")),
    ("preservealpha", (Place::Unqualified, "preserveAlpha")),
    (
        "preserveaspectratio",
        (Place::Unqualified, "preserveAspectRatio"),
    ),
    ("primitiveunits", (Place::Unqualified, "primitiveUnits")),
    ("refx", (Place::Unqualified, "refX")),
    ("refy", (Place::Unqualified, "refY")),
    ("repeatcount", (Place::Unqualified, "repeatCount")),
    ("repeatdur", (Place::Unqualified, "repeatDur")),
    (
        "requiredextensions",
        (Place::Unqualified, "requiredExtensions"),
    ),
    ("requiredfeatures", (Place::Unqualified, "requiredFeatures")),
    ("specularconstant", (Place::Unqualified, "specularConstant")),
    ("specularexponent", (Place::Unqualified, "specularExponent")),
    ("spreadmethod", (Place::Unqualified, "spreadMethod")),
    ("startoffset", (Place::Unqualified, "startOffset")),
    ("stddeviation", (Place::Unqualified, "stdDeviation")),
    ("stitchtiles", (Place::Unqualified, "stitchTiles")),
    ("surfacescale", (Place::Unqualified, "surfaceScale")),
    ("systemlanguage", (Place::Unqualified, "systemLanguage")),
    ("tablevalues", (Place::Unqualified, "tableValues")),
    ("targetx", (Place::Unqualified, "targetX")),
    ("targety", (Place::Unqualified, "targetY")),
    ("textlength", (Place::Unqualified, "textLength")),
    ("viewbox", (Place::Unqualified, "viewBox")),
    ("viewtarget", (Place::Unqualified, "viewTarget")),
    ("xchannelselector", (Place::Unqualified, "xChannelSelector")),
    ("ychannelselector", (Place::Unqualified, "yChannelSelector")),
    ("zoomandpan", (Place::Unqualified, "zoomAndPan")),
];

// MathML attributes.
pub static MATHML_ATTRIBUTES: [(&str, (Place, &str)); 1] = [(
    "definitionurl",
    (Place::Unqualified, "definitionURL"),
)];

// Attributes of both.
pub static FOREIGN_ATTRIBUTES: [(&str, (Place, &str)); 11] = [
    ("xlink:actuate", (Place::XLink, "actuate")),
    ("xlink:arcrole", (Place::XLink, "arcrole")),
    ("xlink:href", (Place::XLink, "href")),
    ("xlink:role", (Place::XLink, "role")),
    ("xlink:show", (Place::XLink, "show")),
    ("xlink:title", (Place::XLink, "title")),
    ("xlink:type", (Place::XLink, "type")),
    ("xml:lang", (Place::Xml, "lang")),
    ("xml:space", (Place::Xml, "space")),
    ("xmlns", (Place::Xmlns, "xmlns")),
    ("xmlns:xlink", (Place::XmlnsPrefixed, "xlink")),
];
