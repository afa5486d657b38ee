//! A serializer that passes what is allowed on to the one that writes HTML.
ghost use Rattle.std.specs.Prelude.{◌≡◌, ◌&&◌, ℕ, [], List, None, IfOk, IsOkUnless, false, true, if◌then◌else◌};
ghost use Rattle.std.specs.Str.{is_utf8};
ghost use Rattle.h5_serialize.specs.Call.{TextOf};
ghost use Rattle.h5_serialize.specs.Names.{is_html};
ghost use Rattle.h5_serialize.specs.Standing.{answer_to, standing_after, text_written};
ghost use Rattle.h5_serialize.specs.Walk.{Makes};
ghost use Rattle.h5_builder_laws.specs.Plain.{doubled};
ghost use Rattle.h5_clean.specs.Calls.{after_call, answer_of, first_state, front_inside, place_among, text_of, without_front};
ghost use Rattle.h5_clean.specs.Pass.{is_dropped};
ghost use Rattle.h5_clean.specs.Places.{fits, nowhere};
ghost use Rattle.h5_clean.specs.Texts.{readable};

use super::attributes::attributes_left;
use super::elements::{OpenElement, OpenElements};
use super::kind::{Kind, kind_of};
use super::place::{Place, Spot};
use super::policy::Policy;
use super::texts::{is_readable, may_stand, readable, without_marks};
use h5_names::QualName;
use h5_serialize::laws::starts_have_the_attributes_of_their_slice;
use h5_serialize::{AttrRef, HtmlSerializer, SerializeFault, SerializeOpts, Serializer};
use std::alloc::Global;
use std::io::Write;

/// The position of the next text.
#[derive(Clone, Copy, Debug, PartialEq, Eq)]
pub enum Front {
    Nothing,
    /// At the start of a `pre`, where a tree builder drops a newline: a leading one is written twice.
    Newlines,
    /// At the start of the fragment, where a tokenizer drops a U+FEFF: the text loses it.
    Marks,
}

// The text without what it loses there.
fn without_front(front: Front, text: &str) -> &str
    ensures { result.now ≡ without_front front text.now }
{
    match front {
        Front::Nothing | Front::Newlines => text,
        Front::Marks => without_marks(text),
    }
}

// Writes a text with a leading newline doubled.
fn write_doubled<Wr: Write + Drop>(
    html: &mut HtmlSerializer<Wr>,
    text: &str,
) -> Result<(), SerializeFault>
    ensures { Makes answer_to standing_after text_written (λ before called call fault after written. Unit {0}) (TextOf (doubled text.now))
        html.old.standing html.old.contents result html.new.standing html.new.contents }
{
    if text.starts_with('\n') {
        html.write_text("\n")?;
    }
    html.write_text(text)
}

// The position of the first text in an element of this kind.
fn front_inside(kind: Kind) -> Front
    ensures { result ≡ front_inside kind }
{
    match kind {
        Kind::Preformatted => Front::Newlines,
        _ => Front::Nothing,
    }
}

/// Writes what is left of a tree, call by call.
#[derive(Drop)]
pub struct Cleaner<'a, P: Policy, Wr: Write + Drop> {
    html: HtmlSerializer<Wr>,
    policy: &'a P,
    elements: OpenElements,
    front: Front,
    alloc: Global,
}

impl<'a, P: Policy, Wr: Write + Drop> Cleaner<'a, P, Wr> {
    /// Returns a cleaner that has written nothing. Fails with `Memory` if an allocation fails; the writer is then
    /// dropped.
    pub fn new(
        alloc: Global,
        policy: &'a P,
        writer: Wr,
    ) -> Result<Cleaner<'a, P, Wr>, SerializeFault>
        ensures state { IfOk result (λ cleaner. record { rules = P.rules cleaner.policy.now; elements = cleaner.elements; front = cleaner.front; standing = cleaner.html.standing }
            ≡ first_state (P.rules policy.now)) }
        ensures contents { IfOk result (λ cleaner. cleaner.html.contents ≡ Wr.contents writer) }
        ensures fault { IsOkUnless result SerializeFault.Memory }
    {
        Ok(Cleaner {
            html: HtmlSerializer::new(alloc, writer, SerializeOpts::default())?,
            policy,
            elements: OpenElements::new(alloc),
            front: Front::Marks,
            alloc,
        })
    }

    /// Returns the writer.
    pub fn into_writer(self) -> Wr
        ensures { self.entry.html.contents ≡ Wr.contents result }
    {
        self.html.writer
    }

    // The place of the next node.
    fn place(&self) -> Place
        ensures { result ≡ place_among (P.rules self.now.policy.now) self.now.elements }
    {
        match self.elements.last() {
            Some(open) => open.place,
            None => Place::first(self.policy.around(), self.policy.depth()),
        }
    }

    // An element of this name is allowed here.
    fn lets(&self, name: &QualName, place: Place, kind: Kind) -> bool
        ensures { result ≡ (is_html name.now && ((P.rules self.now.policy.now).names name.now.local && fits kind place)) }
    {
        name.ns.is_html() && self.policy.allows(name.local.as_str()) && place.fits(kind)
    }

    // The place of the content of an element that isn't allowed.
    fn place_without(&self, name: &QualName, place: Place) -> Place
        ensures { result ≡ (if is_dropped (P.rules self.now.policy.now) name.now then nowhere place else place) }
    {
        let local = name.local.as_str();
        if !name.ns.is_html() || (self.policy.drops(local) && !self.policy.allows(local)) {
            return place.nowhere();
        }
        place
    }
}

impl<'a, P: Policy, Wr: Write + Drop> Cleaner<'a, P, Wr> {
    // Writes what is allowed here of a text, given what is left of the text.
    fn write_readable(&mut self, text: &str) -> Result<(), SerializeFault>
        ensures { (whole : List ℕ) → is_utf8 whole ≡ true → readable whole ≡ text.now →
            Makes answer_of after_call text_of (λ before called call fault after written. Unit {0}) (TextOf whole)
            (record { rules = P.rules self.old.policy.now; elements = self.old.elements; front = self.old.front; standing = self.old.html.standing }) self.old.html.contents
            result (record { rules = P.rules self.new.policy.now; elements = self.new.elements; front = self.new.front; standing = self.new.html.standing }) self.new.html.contents }
    {
        if !may_stand(self.place().spot, text) {
            return Ok(());
        }
        let front = self.front;
        let left = without_front(front, text);
        if left.is_empty() {
            return Ok(());
        }
        self.front = Front::Nothing;
        match front {
            Front::Newlines => write_doubled(&mut self.html, left),
            Front::Nothing | Front::Marks => self.html.write_text(left),
        }
    }
}

impl<'a, P: Policy, Wr: Write + Drop> Serializer for Cleaner<'a, P, Wr> {
    ghost use Rattle.h5_clean.specs.Calls.{State, after_call, answer_of, text_of};

    ghost Meaning = { State };

    ghost meaning = { λ cleaner. record { rules = P.rules cleaner.policy.now; elements = cleaner.elements; front = cleaner.front; standing = cleaner.html.standing } };

    ghost contents = { λ cleaner. cleaner.html.contents };

    ghost answer = { answer_of };

    ghost after = { after_call };

    ghost writes = { text_of };

    ghost breaks = { λ before text call fault after written. Unit {0} };

    fn start_elem<T: AttrRef, I: Iterator<Item = T> + Drop>(
        &mut self,
        name: QualName,
        attrs: I,
    ) -> Result<(), SerializeFault> {
        let place = self.place();
        let kind = kind_of(name.local.as_str());
        if !self.lets(&name, place, kind) {
            let place = self.place_without(&name, place);
            self.elements.push(OpenElement {
                is_written: false,
                place,
            })?;
            return Ok(());
        }
        let left = attributes_left(self.alloc, self.policy, name.local.as_str(), attrs)?;
        self.elements.push(OpenElement {
            is_written: true,
            place: place.inside(kind),
        })?;
        self.front = front_inside(kind);
        starts_have_the_attributes_of_their_slice::<HtmlSerializer<Wr>>();
        self.html.start_elem(name, left.iter())
    }

    fn end_elem(&mut self, name: QualName) -> Result<(), SerializeFault> {
        let is_written = match self.elements.last() {
            Some(open) => open.is_written,
            None => false,
        };
        self.elements.pop();
        if !is_written {
            return Ok(());
        }
        self.front = Front::Nothing;
        self.html.end_elem(name)
    }

    fn write_text(&mut self, text: &str) -> Result<(), SerializeFault> {
        if is_readable(text) {
            return self.write_readable(text);
        }
        let text = readable(self.alloc, text)?;
        self.write_readable(text.as_str())
    }

    fn write_comment(&mut self, _text: &str) -> Result<(), SerializeFault> {
        Ok(())
    }

    fn write_doctype(&mut self, _name: &str) -> Result<(), SerializeFault> {
        Ok(())
    }

    fn write_processing_instruction(
        &mut self,
        _target: &str,
        _content: &str,
    ) -> Result<(), SerializeFault> {
        Ok(())
    }
}
