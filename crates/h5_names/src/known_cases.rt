//! The known names in lower case and in mixed case.
ghost use Rattle.std.specs.Prelude.{◌≡◌};
ghost use Rattle.h5_names.specs.KnownNames.{lowercase_name, mixed_name};

use super::KnownName;

/// The name in ASCII lower case.
pub fn in_lower_case(known: KnownName) -> KnownName
    ensures { result ≡ lowercase_name known }
{
    match known {
        KnownName::AltGlyph => KnownName::AltGlyphLowercase,
        KnownName::AltGlyphDef => KnownName::AltGlyphDefLowercase,
        KnownName::AltGlyphItem => KnownName::AltGlyphItemLowercase,
        KnownName::AnimateColor => KnownName::AnimateColorLowercase,
        KnownName::AnimateMotion => KnownName::AnimateMotionLowercase,
        KnownName::AnimateTransform => KnownName::AnimateTransformLowercase,
        KnownName::ClipPath => KnownName::ClipPathLowercase,
        KnownName::DefinitionUrl => KnownName::DefinitionUrlLowercase,
        KnownName::FeBlend => KnownName::FeBlendLowercase,
        KnownName::FeColorMatrix => KnownName::FeColorMatrixLowercase,
        KnownName::FeComponentTransfer => KnownName::FeComponentTransferLowercase,
        KnownName::FeComposite => KnownName::FeCompositeLowercase,
        KnownName::FeConvolveMatrix => KnownName::FeConvolveMatrixLowercase,
        KnownName::FeDiffuseLighting => KnownName::FeDiffuseLightingLowercase,
        KnownName::FeDisplacementMap => KnownName::FeDisplacementMapLowercase,
        KnownName::FeDistantLight => KnownName::FeDistantLightLowercase,
        KnownName::FeDropShadow => KnownName::FeDropShadowLowercase,
        KnownName::FeFlood => KnownName::FeFloodLowercase,
        KnownName::FeFuncA => KnownName::FeFuncALowercase,
        KnownName::FeFuncB => KnownName::FeFuncBLowercase,
        KnownName::FeFuncG => KnownName::FeFuncGLowercase,
        KnownName::FeFuncR => KnownName::FeFuncRLowercase,
        KnownName::FeGaussianBlur => KnownName::FeGaussianBlurLowercase,
        KnownName::FeImage => KnownName::FeImageLowercase,
        KnownName::FeMerge => KnownName::FeMergeLowercase,
        KnownName::FeMergeNode => KnownName::FeMergeNodeLowercase,
        KnownName::FeMorphology => KnownName::FeMorphologyLowercase,
        KnownName::FeOffset => KnownName::FeOffsetLowercase,
        KnownName::FePointLight => KnownName::FePointLightLowercase,
        KnownName::FeSpecularLighting => KnownName::FeSpecularLightingLowercase,
        KnownName::FeSpotLight => KnownName::FeSpotLightLowercase,
        KnownName::FeTile => KnownName::FeTileLowercase,
        KnownName::FeTurbulence => KnownName::FeTurbulenceLowercase,
        KnownName::ForeignObject => KnownName::ForeignObjectLowercase,
        KnownName::GlyphRef => KnownName::GlyphRefLowercase,
        KnownName::LinearGradient => KnownName::LinearGradientLowercase,
        KnownName::RadialGradient => KnownName::RadialGradientLowercase,
        KnownName::TextPath => KnownName::TextPathLowercase,
        lower => lower,
    }
}

/// The known name in mixed case whose lower case is `known`, or else `known` itself.
pub fn in_mixed_case(known: KnownName) -> KnownName
    ensures { result ≡ mixed_name known }
{
    match known {
        KnownName::AltGlyphLowercase => KnownName::AltGlyph,
        KnownName::AltGlyphDefLowercase => KnownName::AltGlyphDef,
        KnownName::AltGlyphItemLowercase => KnownName::AltGlyphItem,
        KnownName::AnimateColorLowercase => KnownName::AnimateColor,
        KnownName::AnimateMotionLowercase => KnownName::AnimateMotion,
        KnownName::AnimateTransformLowercase => KnownName::AnimateTransform,
        KnownName::ClipPathLowercase => KnownName::ClipPath,
        KnownName::DefinitionUrlLowercase => KnownName::DefinitionUrl,
        KnownName::FeBlendLowercase => KnownName::FeBlend,
        KnownName::FeColorMatrixLowercase => KnownName::FeColorMatrix,
        KnownName::FeComponentTransferLowercase => KnownName::FeComponentTransfer,
        KnownName::FeCompositeLowercase => KnownName::FeComposite,
        KnownName::FeConvolveMatrixLowercase => KnownName::FeConvolveMatrix,
        KnownName::FeDiffuseLightingLowercase => KnownName::FeDiffuseLighting,
        KnownName::FeDisplacementMapLowercase => KnownName::FeDisplacementMap,
        KnownName::FeDistantLightLowercase => KnownName::FeDistantLight,
        KnownName::FeDropShadowLowercase => KnownName::FeDropShadow,
        KnownName::FeFloodLowercase => KnownName::FeFlood,
        KnownName::FeFuncALowercase => KnownName::FeFuncA,
        KnownName::FeFuncBLowercase => KnownName::FeFuncB,
        KnownName::FeFuncGLowercase => KnownName::FeFuncG,
        KnownName::FeFuncRLowercase => KnownName::FeFuncR,
        KnownName::FeGaussianBlurLowercase => KnownName::FeGaussianBlur,
        KnownName::FeImageLowercase => KnownName::FeImage,
        KnownName::FeMergeLowercase => KnownName::FeMerge,
        KnownName::FeMergeNodeLowercase => KnownName::FeMergeNode,
        KnownName::FeMorphologyLowercase => KnownName::FeMorphology,
        KnownName::FeOffsetLowercase => KnownName::FeOffset,
        KnownName::FePointLightLowercase => KnownName::FePointLight,
        KnownName::FeSpecularLightingLowercase => KnownName::FeSpecularLighting,
        KnownName::FeSpotLightLowercase => KnownName::FeSpotLight,
        KnownName::FeTileLowercase => KnownName::FeTile,
        KnownName::FeTurbulenceLowercase => KnownName::FeTurbulence,
        KnownName::ForeignObjectLowercase => KnownName::ForeignObject,
        KnownName::GlyphRefLowercase => KnownName::GlyphRef,
        KnownName::LinearGradientLowercase => KnownName::LinearGradient,
        KnownName::RadialGradientLowercase => KnownName::RadialGradient,
        KnownName::TextPathLowercase => KnownName::TextPath,
        single => single,
    }
}
