//! Laws of escapes and of walks. Each is the contract of a function that does nothing.
ghost use Rattle.std.specs.Prelude.{◌≡◌, ◌∷◌, [], ℕ, Bool, true, List, Contains, IsUtf8, Option, Result};
ghost use Rattle.std.specs.Io.KnownBytes.{Appends};
ghost use Rattle.std.specs.Iterator.{Drains};
ghost use Rattle.std.specs.Slice.Iter.{iter_rest, iter_steps};
ghost use Rattle.std.specs.declared.slice.Iter.{Iter};
ghost use Rattle.h5_names.specs.AttributeText.{attribute_text, attribute_texts};
ghost use Rattle.h5_names.specs.declared.qualified.Attribute.{Attribute};
ghost use Rattle.h5_names.specs.declared.qualified.QualName.{QualName};
ghost use Rattle.h5_serialize.specs.Call.{Call, StartOf};
ghost use Rattle.h5_serialize.specs.Escape.{escape};
ghost use Rattle.h5_serialize.specs.Fronts.{AppendsFront};
ghost use Rattle.h5_serialize.specs.Standing.{IsBrokenBy, Standing, answer_to, standing_after, text_written, walk_text};
ghost use Rattle.h5_serialize.specs.Walk.{AreMade, IsStopped, Makes, MakesStart, Walks, WalksStart, after_each, text_of_each};
ghost use Rattle.h5_serialize.specs.declared.fault.SerializeFault.{SerializeFault};

use super::serializer::Serializer;

/// Escaped text contains no `<` and no `>`; in the attribute mode it contains no `"` either.
pub fn escaped_text_holds_no_mark()
    ensures less_than { (attr_mode : Bool) (text : List ℕ) → ¬ (Contains (escape attr_mode text) 0x3c) }
    ensures greater_than { (attr_mode : Bool) (text : List ℕ) → ¬ (Contains (escape attr_mode text) 0x3e) }
    ensures quote { (text : List ℕ) → ¬ (Contains (escape true text) 0x22) }
{}

/// If two texts in UTF-8 have equal escapes in one mode, they are equal.
pub fn different_texts_have_different_escapes()
    ensures { (attr_mode : Bool) (x y : List ℕ) → IsUtf8 x → IsUtf8 y →
        escape attr_mode x ≡ escape attr_mode y → x ≡ y }
{}

/// If calls succeed, such as those of a whole walk, the serializer's meaning is the one after each of them, one after the other.
pub fn calls_are_taken_in_turn<S: Serializer>()
    ensures { (calls : List Call) (m n : S.Meaning) (t u : Option (List ℕ)) →
        AreMade S.answer S.after S.writes S.breaks m t calls n u → n ≡ after_each S.after m calls }
{}

/// If calls succeed, the text of the serializer has grown by the text of each call, one after the other: by what it writes for the call in
/// its state at that time. If the text before the calls isn't known, nothing is claimed; if it is known, it is also known after them.
pub fn texts_are_written_in_turn<S: Serializer>()
    ensures { (calls : List Call) (m n : S.Meaning) (t u : Option (List ℕ)) →
        AreMade S.answer S.after S.writes S.breaks m t calls n u → Appends t u (text_of_each S.after S.writes m calls) }
{}

/// If a walk of the HTML serializer stops at an error, its writer has what it had before, a prefix of the walk's text, and nothing else. If
/// nothing is known about the writer, nothing is claimed.
pub fn a_stopped_walk_has_written_a_front()
    ensures { (calls : List Call) (m n : Standing) (t u : Option (List ℕ)) (fault : SerializeFault) →
        IsStopped answer_to standing_after text_written IsBrokenBy calls m t fault n u → AppendsFront t u (walk_text m calls) }
{}

/// If a start is made with the attributes of a slice, as in `start_elem(name, attrs.iter())` or `start_elem_ref(&name, attrs.iter())`, it
/// is the call with these attributes.
pub fn starts_have_the_attributes_of_their_slice<S: Serializer>()
    ensures start_elem { (attrs : Iter Attribute) (name : QualName) (m n : S.Meaning) (t u : Option (List ℕ)) (result : Result (Unit {0}) SerializeFault) →
        MakesStart S.answer S.after S.writes S.breaks (λ a. attribute_text a.now) (Drains iter_steps attrs) name m t result n u →
        Makes S.answer S.after S.writes S.breaks (StartOf name (attribute_texts (iter_rest attrs))) m t result n u }
    ensures start_elem_ref { (attrs : Iter Attribute) (name : QualName) (m n : S.Meaning) (t u : Option (List ℕ)) (result : Result (Unit {0}) SerializeFault) →
        WalksStart S.answer S.after S.writes S.breaks (λ a. attribute_text a.now) (Drains iter_steps attrs) name m t result n u →
        Walks S.answer S.after S.writes S.breaks (StartOf name (attribute_texts (iter_rest attrs)) ∷ []) m t result n u }
{}
