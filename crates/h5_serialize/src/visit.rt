//! A short form of a serializer, for elements and texts only.
ghost use Rattle.std.specs.Iterator.{IsFinite};

use super::attributes::AttrRef;
use super::fault::SerializeFault;
use super::serializer::Serializer;
use h5_names::QualName;
use std::alloc::AllocError;

/// Receives the elements and texts of a tree, in tree order. Each method does nothing unless it is overridden. Its only error is
/// `AllocError`, which ends the walk as `SerializeFault::Memory`. [`VisitSerializer`] makes a serializer of it.
pub trait Visit {
    /// The start of an element with these attributes.
    fn start<T: AttrRef, I: Iterator<Item = T> + Drop>(
        &mut self,
        _name: &QualName,
        _attrs: I,
    ) -> Result<(), AllocError>
        requires can { I.can_next _attrs }
        requires ends { IsFinite (I.remaining _attrs) }
    {
        Ok(())
    }

    /// The end of an element.
    fn end(&mut self, _name: &QualName) -> Result<(), AllocError> {
        Ok(())
    }

    /// A text.
    fn text(&mut self, _text: &str) -> Result<(), AllocError> {
        Ok(())
    }
}

/// A serializer that passes elements and texts to a visitor, and skips comments, doctypes and processing instructions. Contracts see
/// nothing of the visitor; if they have to, write a [`Serializer`].
#[derive(Drop)]
pub struct VisitSerializer<V: Visit + Drop> {
    pub visitor: V,
}

impl<V: Visit + Drop> Serializer for VisitSerializer<V> {
    ghost use Rattle.std.specs.Prelude.{[], None, Ok};

    ghost Meaning = { Unit {0} };

    ghost meaning = { λ _. tt };

    ghost contents = { λ _. None };

    ghost answer = { λ _ _. Ok tt };

    ghost after = { λ _ _. tt };

    ghost writes = { λ _ _. [] };

    ghost breaks = { λ before text call fault after written. Unit {0} };

    fn start_elem<T: AttrRef, I: Iterator<Item = T> + Drop>(
        &mut self,
        name: QualName,
        attrs: I,
    ) -> Result<(), SerializeFault> {
        self.visitor.start(&name, attrs)?;
        Ok(())
    }

    fn end_elem(&mut self, name: QualName) -> Result<(), SerializeFault> {
        self.visitor.end(&name)?;
        Ok(())
    }

    fn write_text(&mut self, text: &str) -> Result<(), SerializeFault> {
        self.visitor.text(text)?;
        Ok(())
    }

    fn write_comment(&mut self, _text: &str) -> Result<(), SerializeFault> {
        Ok(())
    }

    fn write_doctype(&mut self, _name: &str) -> Result<(), SerializeFault> {
        Ok(())
    }

    fn write_processing_instruction(
        &mut self,
        _target: &str,
        _content: &str,
    ) -> Result<(), SerializeFault> {
        Ok(())
    }
}
