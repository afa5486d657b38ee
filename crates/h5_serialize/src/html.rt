//! The serializer that writes HTML.
ghost use Rattle.std.specs.Prelude.{◌≡◌, ◌++◌, ◌∷◌, [], codes, IfOk, IsOkUnless};
ghost use Rattle.std.specs.Iterator.{Drains, IsFinite};
ghost use Rattle.h5_serialize.specs.Call.{EndOf};
ghost use Rattle.h5_serialize.specs.Fronts.{Writes};
ghost use Rattle.h5_serialize.specs.Standing.{IsBrokenBy, answer_to, new_standing, parent_answer, standing_after, text_written};
ghost use Rattle.h5_serialize.specs.Walk.{Makes, MakesStart, Walks, WalksStart};

use super::attributes::AttrRef;
use super::escape::{write_between, write_escaped, write_verbatim};
use super::fault::SerializeFault;
use super::openers::{Opener, Openers};
use super::options::SerializeOpts;
use super::serializer::Serializer;
use super::tags::{write_end_tag, write_start_tag};
use h5_names::QualName;
use std::alloc::Global;
use std::io::Write;
use std::marker::Model;

/// Writes HTML (HTML standard, section 13.3, "Serializing HTML fragments").
///
/// Contracts see its state (its options and open elements, or that it is broken), and the contents of its writer, if the writer's contracts
/// give them. After a call has failed with `Memory` or `Write`, every call fails with `Failed` and writes nothing. A call that fails with
/// `Write` has written a prefix of its text, and nothing else. Only start tags and texts need memory, and they allocate before they write.
#[derive(Drop)]
pub struct HtmlSerializer<Wr: Write + Drop> {
    pub writer: Wr,
    openers: Openers,
    scripting_enabled: bool,
    create_missing_parent: bool,
    // True if an allocation or the writer failed in a call.
    failed: bool,
}

impl<Wr: Write + Drop> Model for HtmlSerializer<Wr> {
    ghost use Rattle.h5_serialize.specs.Standing.{HtmlState, Standing, Broken, Working};
    ghost use Rattle.std.specs.Prelude.{if◌then◌else◌};

    ghost Value = { HtmlState };

    ghost view = { λ serializer. record {
      standing = if serializer.failed then Broken
          else Working serializer.scripting_enabled serializer.create_missing_parent serializer.openers;
      contents = Wr.contents serializer.writer;
    } };
}

impl<Wr: Write + Drop> HtmlSerializer<Wr> {
    /// Returns a serializer that has written nothing, with the base entry of the options. Fails with `Memory` if an allocation fails; the
    /// writer is dropped then.
    pub fn new(
        alloc: Global,
        writer: Wr,
        opts: SerializeOpts,
    ) -> Result<HtmlSerializer<Wr>, SerializeFault>
        ensures standing { IfOk result (λ serializer. serializer.standing ≡ new_standing opts) }
        ensures contents { IfOk result (λ serializer. serializer.contents ≡ Wr.contents writer) }
        ensures fault { IsOkUnless result SerializeFault.Memory }
    {
        let base = Opener::base(opts.scripting_enabled, &opts.traversal_scope);
        Ok(HtmlSerializer {
            writer,
            openers: Openers::new(alloc, base)?,
            scripting_enabled: opts.scripting_enabled,
            create_missing_parent: opts.create_missing_parent,
            failed: false,
        })
    }

    // The reply to a call that needs a parent.
    fn parent_answer(&self) -> Result<(), SerializeFault>
        ensures { result ≡ parent_answer self.now.standing }
    {
        if self.failed {
            return Err(SerializeFault::Failed);
        }
        if self.openers.is_empty() && !self.create_missing_parent {
            return Err(SerializeFault::NoParent);
        }
        Ok(())
    }

    // Writes a start tag. Writes nothing inside a void element.
    fn start<T: AttrRef, I: Iterator<Item = T> + Drop>(
        &mut self,
        name: &QualName,
        attrs: I,
    ) -> Result<(), SerializeFault>
        requires can { I.can_next attrs }
        requires ends { IsFinite (I.remaining attrs) }
        ensures { MakesStart answer_to standing_after text_written IsBrokenBy T.attribute (Drains I.next_gives attrs) name.now
            self.old.standing self.old.contents result self.new.standing self.new.contents }
    {
        self.parent_answer()?;
        self.failed = true;
        self.openers.find_parent()?;
        let is_hidden = self.openers.are_hidden();
        self.openers
            .push(Opener::start(self.scripting_enabled, name))?;
        if is_hidden {
            self.failed = false;
            return Ok(());
        }
        write_start_tag(&mut self.writer, name, attrs)?;
        self.failed = false;
        Ok(())
    }

    // Writes an end tag, and closes the innermost element. Writes nothing for a void element or inside one.
    fn end(&mut self, name: &QualName) -> Result<(), SerializeFault>
        ensures { Makes answer_to standing_after text_written IsBrokenBy (EndOf name.now)
            self.old.standing self.old.contents result self.new.standing self.new.contents }
    {
        self.parent_answer()?;
        self.failed = true;
        if !self.openers.are_hidden() {
            write_end_tag(&mut self.writer, name)?;
        }
        self.openers.pop();
        self.failed = false;
        Ok(())
    }
}

// Writes a processing instruction.
fn write_instruction<Wr: Write>(
    writer: &mut Wr,
    target: &str,
    content: &str,
) -> Result<(), SerializeFault>
    ensures text { Writes result (Wr.contents writer.old) (Wr.contents writer.new)
        (codes "<?" ++ target.now ++ codes " " ++ content.now ++ codes ">") }
    ensures fault { IsOkUnless result SerializeFault.Write }
{
    write_between(writer, "<?", target, " ")?;
    write_between(writer, "", content, ">")
}

impl<Wr: Write + Drop> Serializer for HtmlSerializer<Wr> {
    ghost use Rattle.h5_serialize.specs.Standing.{Standing};

    ghost Meaning = { Standing };

    ghost meaning = { λ serializer. serializer.standing };

    ghost contents = { λ serializer. serializer.contents };

    ghost answer = { answer_to };

    ghost after = { standing_after };

    ghost writes = { text_written };

    ghost breaks = { IsBrokenBy };

    /// Writes a start tag. Writes nothing inside a void element.
    fn start_elem<T: AttrRef, I: Iterator<Item = T> + Drop>(
        &mut self,
        name: QualName,
        attrs: I,
    ) -> Result<(), SerializeFault> {
        self.start(&name, attrs)
    }

    /// Writes an end tag, and closes the innermost element. Writes nothing for a void element or inside one.
    fn end_elem(&mut self, name: QualName) -> Result<(), SerializeFault> {
        self.end(&name)
    }

    /// As `start_elem`. Doesn't copy the name.
    fn start_elem_ref<T: AttrRef, I: Iterator<Item = T> + Drop>(
        &mut self,
        name: &QualName,
        attrs: I,
    ) -> Result<(), SerializeFault>
        requires can { I.can_next attrs }
        requires ends { IsFinite (I.remaining attrs) }
        ensures walks { WalksStart answer_to standing_after text_written IsBrokenBy T.attribute (Drains I.next_gives attrs) name.now
            self.old.standing self.old.contents result self.new.standing self.new.contents }
        ensures makes { MakesStart answer_to standing_after text_written IsBrokenBy T.attribute (Drains I.next_gives attrs) name.now
            self.old.standing self.old.contents result self.new.standing self.new.contents }
    {
        self.start(name, attrs)
    }

    /// As `end_elem`. Doesn't copy the name.
    fn end_elem_ref(&mut self, name: &QualName) -> Result<(), SerializeFault>
        ensures walks { Walks answer_to standing_after text_written IsBrokenBy (EndOf name.now ∷ [])
            self.old.standing self.old.contents result self.new.standing self.new.contents }
        ensures makes { Makes answer_to standing_after text_written IsBrokenBy (EndOf name.now)
            self.old.standing self.old.contents result self.new.standing self.new.contents }
    {
        self.end(name)
    }

    /// Writes a text: unescaped directly inside elements such as `style`, and escaped elsewhere.
    fn write_text(&mut self, text: &str) -> Result<(), SerializeFault> {
        self.parent_answer()?;
        self.failed = true;
        self.openers.find_parent()?;
        if self.openers.is_raw() {
            write_verbatim(&mut self.writer, text)?;
        } else {
            write_escaped(&mut self.writer, text, false)?;
        }
        self.failed = false;
        Ok(())
    }

    /// Writes the text between `<!--` and `-->`.
    fn write_comment(&mut self, text: &str) -> Result<(), SerializeFault> {
        if self.failed {
            return Err(SerializeFault::Failed);
        }
        self.failed = true;
        write_between(&mut self.writer, "<!--", text, "-->")?;
        self.failed = false;
        Ok(())
    }

    /// Writes the name between `<!DOCTYPE ` and `>`.
    fn write_doctype(&mut self, name: &str) -> Result<(), SerializeFault> {
        if self.failed {
            return Err(SerializeFault::Failed);
        }
        self.failed = true;
        write_between(&mut self.writer, "<!DOCTYPE ", name, ">")?;
        self.failed = false;
        Ok(())
    }

    /// Writes the target, a space and the content between `<?` and `>`.
    fn write_processing_instruction(
        &mut self,
        target: &str,
        content: &str,
    ) -> Result<(), SerializeFault> {
        if self.failed {
            return Err(SerializeFault::Failed);
        }
        self.failed = true;
        write_instruction(&mut self.writer, target, content)?;
        self.failed = false;
        Ok(())
    }
}
