//! The traits of serializers and of what they write.
ghost use Rattle.std.specs.Prelude.{ℕ, List, [], ◌∷◌, Option, Result};
ghost use Rattle.std.specs.Iterator.{Drains, IsFinite};
ghost use Rattle.h5_serialize.specs.Call.{Call, EndOf, TextOf, CommentOf, DoctypeOf, InstructionOf};
ghost use Rattle.h5_serialize.specs.Walk.{Makes, MakesStart, Walks, WalksStart};
ghost use Rattle.h5_serialize.specs.declared.fault.SerializeFault.{SerializeFault};
ghost use Rattle.h5_serialize.specs.declared.options.TraversalScope.{TraversalScope};

use super::attributes::AttrRef;
use super::fault::SerializeFault;
use super::options::TraversalScope;
use h5_names::QualName;

/// A serializer: it receives the calls of a tree's walk, in tree order (HTML standard, section 13.3, "Serializing HTML fragments").
///
/// Unless an allocation or a writer fails in a call, the result, the serializer's meaning after the call, and the text written are
/// functions of the meaning before the call and of the call.
pub trait Serializer {
    // Everything that the results depend on.
    ghost Meaning: { Type 0 };

    ghost meaning: { Self → Meaning };

    // The text written so far, if it is known.
    ghost contents: { Self → Option (List ℕ) };

    // The result of a call, unless an allocation or a writer fails.
    ghost answer: { Meaning → Call → Result (Unit {0}) SerializeFault };

    // The meaning after a call, unless an allocation or a writer fails.
    ghost after: { Meaning → Call → Meaning };

    // The text written for a call, unless an allocation or a writer fails.
    ghost writes: { Meaning → Call → List ℕ };

    // The relation for a call in which an allocation or a writer failed: the meaning and the text before it, the call, its error, and the
    // meaning and the text after it.
    ghost breaks: { Meaning → Option (List ℕ) → Call → SerializeFault → Meaning → Option (List ℕ) → Type 0 };

    /// The start of an element with these attributes. Not all of them need be read if the outcome doesn't depend on them.
    fn start_elem<T: AttrRef, I: Iterator<Item = T> + Drop>(
        &mut self,
        name: QualName,
        attrs: I,
    ) -> Result<(), SerializeFault>
        requires can { I.can_next attrs }
        requires ends { IsFinite (I.remaining attrs) }
        ensures { MakesStart answer after writes breaks T.attribute (Drains I.next_gives attrs) name
            (meaning self.old) (contents self.old) result (meaning self.new) (contents self.new) };

    /// The end of an element.
    fn end_elem(&mut self, name: QualName) -> Result<(), SerializeFault>
        ensures { Makes answer after writes breaks (EndOf name)
            (meaning self.old) (contents self.old) result (meaning self.new) (contents self.new) };

    /// The start of an element with a borrowed name. The default copies the name for `start_elem`; if this allocation fails, it returns
    /// `Memory` and changes nothing.
    fn start_elem_ref<T: AttrRef, I: Iterator<Item = T> + Drop>(
        &mut self,
        name: &QualName,
        attrs: I,
    ) -> Result<(), SerializeFault>
        requires can { I.can_next attrs }
        requires ends { IsFinite (I.remaining attrs) }
        ensures { WalksStart answer after writes breaks T.attribute (Drains I.next_gives attrs) name.now
            (meaning self.old) (contents self.old) result (meaning self.new) (contents self.new) }
    {
        self.start_elem(name.clone()?, attrs)
    }

    /// The end of an element with a borrowed name. The default copies the name, as in `start_elem_ref`.
    fn end_elem_ref(&mut self, name: &QualName) -> Result<(), SerializeFault>
        ensures { Walks answer after writes breaks (EndOf name.now ∷ [])
            (meaning self.old) (contents self.old) result (meaning self.new) (contents self.new) }
    {
        self.end_elem(name.clone()?)
    }

    /// A text.
    fn write_text(&mut self, text: &str) -> Result<(), SerializeFault>
        ensures { Makes answer after writes breaks (TextOf text.now)
            (meaning self.old) (contents self.old) result (meaning self.new) (contents self.new) };

    /// A comment.
    fn write_comment(&mut self, text: &str) -> Result<(), SerializeFault>
        ensures { Makes answer after writes breaks (CommentOf text.now)
            (meaning self.old) (contents self.old) result (meaning self.new) (contents self.new) };

    /// A doctype.
    fn write_doctype(&mut self, name: &str) -> Result<(), SerializeFault>
        ensures { Makes answer after writes breaks (DoctypeOf name.now)
            (meaning self.old) (contents self.old) result (meaning self.new) (contents self.new) };

    /// A processing instruction.
    fn write_processing_instruction(
        &mut self,
        target: &str,
        content: &str,
    ) -> Result<(), SerializeFault>
        ensures { Makes answer after writes breaks (InstructionOf target.now content.now)
            (meaning self.old) (contents self.old) result (meaning self.new) (contents self.new) };
}

/// A value that a serializer can write.
pub trait Serialize {
    // The calls of the walk.
    ghost walk: { Self → TraversalScope → List Call };

    /// Makes the calls of the walk, in order. Fails with the error of the first call that fails, and makes no call after that. Fails with
    /// `Memory` if an allocation of its own fails; the serializer is then as after the calls made.
    fn serialize<S: Serializer>(
        &self,
        serializer: &mut S,
        traversal_scope: TraversalScope,
    ) -> Result<(), SerializeFault>
        ensures { Walks S.answer S.after S.writes S.breaks (walk self.now traversal_scope)
            (S.meaning serializer.old) (S.contents serializer.old) result
            (S.meaning serializer.new) (S.contents serializer.new) };
}
