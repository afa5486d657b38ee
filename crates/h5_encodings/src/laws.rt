//! How bytes are split doesn't matter.
ghost use Rattle.h5_encodings.specs.Steps.{CutsDontMatter};

/// For any encoding that is decoded in steps, and any split of bytes: their text is the decided text of the first part,
/// followed by the text of the second part after what is stored.
#[tactic(auto, using(crate::proofs::DecodingLaws::cuts_dont_matter))]
pub fn cuts_dont_matter()
    ensures { CutsDontMatter }
{}
