//! Laws of tokens. Each is the contract of a function that does nothing.
ghost use Rattle.std.specs.Prelude.{◌≡◌, ◌↔◌, IsTrue};
ghost use Rattle.h5_token.specs.Keys.{KeysAreEqual};
ghost use Rattle.h5_token.specs.TokenText.{TagText, IsAlike, doctype_text, tag_text, token_text};

use super::{Doctype, Tag, Token};

/// "Alike" (equal up to the order of attributes) is an equivalence of tags.
pub fn likeness_is_an_equivalence()
    ensures reflexive { (x : TagText) → IsAlike x x }
    ensures symmetric { (x y : TagText) → IsAlike x y → IsAlike y x }
    ensures transitive { (x y z : TagText) → IsAlike x y → IsAlike y z → IsAlike x z }
{}

/// If two tags are alike, their keys are equal.
pub fn alike_tags_have_equal_keys()
    ensures { KeysAreEqual }
{}

/// Two tags, doctypes or tokens are equal exactly if their texts are.
pub fn tokens_are_equal_as_their_texts()
    ensures tags { (x y : Tag) → IsTrue (⟦<Tag as PartialEq>⟧.eq x y) ↔ (tag_text x ≡ tag_text y) }
    ensures doctypes { (x y : Doctype) →
        IsTrue (⟦<Doctype as PartialEq>⟧.eq x y) ↔ (doctype_text x ≡ doctype_text y) }
    ensures tokens { (x y : Token) →
        IsTrue (⟦<Token as PartialEq>⟧.eq x y) ↔ (token_text x ≡ token_text y) }
{}
