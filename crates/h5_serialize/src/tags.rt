//! Writes tags.
ghost use Rattle.std.specs.Prelude.{◌≡◌, ◌≢◌, [], ◌++◌, List, codes, map, OnOk, OnErr, IsErr, IsOkUnless, ◌∷◌};
ghost use Rattle.std.specs.Io.KnownBytes.{Keeps};
ghost use Rattle.std.specs.Iterator.{Drains, IsFinite};
ghost use Rattle.std.specs.List.{flat_map};
ghost use Rattle.h5_names.specs.AttributeText.{AttributeText};
ghost use Rattle.h5_names.specs.KnownNames.{name_text};
ghost use Rattle.h5_serialize.specs.Fronts.{Writes};
ghost use Rattle.h5_serialize.specs.Writing.{attribute_begun, attribute_front, attribute_next, attribute_prefix, start_tag, end_tag};

use super::attributes::AttrRef;
use super::escape::{write_between, write_bytes, write_escaped, write_verbatim};
use super::fault::SerializeFault;
use super::known_tags::{attribute_of, end_of, next_attribute_of, start_of, whole_start_of};
use h5_names::{KnownName, LocalName, QualName, namespaces};
use std::io::Write;

// A space and the prefix of an attribute: the text before its local name.
fn prefix_of(name: &QualName) -> &'static str
    ensures { result.now ≡ codes " " ++ attribute_prefix name.now }
{
    match name.ns.as_str() {
        namespaces::NONE => " ",
        namespaces::XML => " xml:",
        namespaces::XMLNS => {
            if name.local.as_str() == "xmlns" {
                " "
            } else {
                " xmlns:"
            }
        }
        namespaces::XLINK => " xlink:",
        _ => " unknown_namespace:",
    }
}

// The known name of an attribute without a namespace, or `Other`.
fn known_of(name: &QualName) -> KnownName
    ensures { result ≢ KnownName.Other → (attribute_prefix name.now ≡ []) × (name_text result ≡ name.now.local) }
{
    if name.ns.as_str().is_empty() {
        name.local.known()
    } else {
        KnownName::Other
    }
}

// Writes the start of an attribute, up to its value.
fn write_front<Wr: Write>(writer: &mut Wr, name: &QualName) -> Result<(), SerializeFault>
    ensures text { Writes result (Wr.contents writer.old) (Wr.contents writer.new) (attribute_front name.now) }
    ensures fault { IsOkUnless result SerializeFault.Write }
{
    match known_of(name) {
        KnownName::Other => { write_between(writer, prefix_of(name), name.local.as_str(), "=\"") }
        known => write_bytes(writer, attribute_of(known)),
    }
}

// Writes the start of an attribute that follows another one, and closes that one's value.
fn write_next_front<Wr: Write>(writer: &mut Wr, name: &QualName) -> Result<(), SerializeFault>
    ensures text { Writes result (Wr.contents writer.old) (Wr.contents writer.new) (codes "\"" ++ attribute_front name.now) }
    ensures fault { IsOkUnless result SerializeFault.Write }
{
    match known_of(name) {
        KnownName::Other => {
            write_verbatim(writer, "\"")?;
            write_between(writer, prefix_of(name), name.local.as_str(), "=\"")
        }
        known => write_bytes(writer, next_attribute_of(known)),
    }
}

// Writes an attribute after a space, without its closing quote.
fn write_first<Wr: Write>(
    writer: &mut Wr,
    name: &QualName,
    value: &str,
) -> Result<(), SerializeFault>
    ensures text { Writes result (Wr.contents writer.old) (Wr.contents writer.new)
        (attribute_begun (record { name = name.now; value = value.now })) }
    ensures fault { IsOkUnless result SerializeFault.Write }
{
    write_front(writer, name)?;
    write_escaped(writer, value, true)
}

// Writes an attribute that follows another one, and closes that one's value; without its own closing quote.
fn write_next<Wr: Write>(
    writer: &mut Wr,
    name: &QualName,
    value: &str,
) -> Result<(), SerializeFault>
    ensures text { Writes result (Wr.contents writer.old) (Wr.contents writer.new)
        (attribute_next (record { name = name.now; value = value.now })) }
    ensures fault { IsOkUnless result SerializeFault.Write }
{
    write_next_front(writer, name)?;
    write_escaped(writer, value, true)
}

// Writes an attribute that follows another one, unless an error came before.
fn write_further<Wr: Write, T: AttrRef>(
    writer: &mut Wr,
    begun: Result<(), SerializeFault>,
    attr: &T,
) -> Result<(), SerializeFault>
    ensures text { OnOk begun (Writes result (Wr.contents writer.old) (Wr.contents writer.new)
        (attribute_next (T.attribute attr.now))) }
    ensures kept { OnErr begun (Keeps (Wr.contents writer.old) (Wr.contents writer.new)) }
    ensures fault { IsOkUnless begun SerializeFault.Write → IsOkUnless result SerializeFault.Write }
    ensures stays { OnErr begun (IsErr result) }
{
    begun?;
    write_next(writer, attr.name(), attr.value())
}

// Writes the start of a start tag with this local name.
fn write_start<Wr: Write>(writer: &mut Wr, name: &LocalName) -> Result<(), SerializeFault>
    ensures text { Writes result (Wr.contents writer.old) (Wr.contents writer.new) (codes "<" ++ name.now) }
    ensures fault { IsOkUnless result SerializeFault.Write }
{
    match name.known() {
        KnownName::Other => write_between(writer, "<", name.as_str(), ""),
        known => write_bytes(writer, start_of(known)),
    }
}

// Writes a start tag with this local name, without attributes.
fn write_whole_start<Wr: Write>(writer: &mut Wr, name: &LocalName) -> Result<(), SerializeFault>
    ensures text { Writes result (Wr.contents writer.old) (Wr.contents writer.new)
        (codes "<" ++ name.now ++ codes ">") }
    ensures fault { IsOkUnless result SerializeFault.Write }
{
    match name.known() {
        KnownName::Other => write_between(writer, "<", name.as_str(), ">"),
        known => write_bytes(writer, whole_start_of(known)),
    }
}

// Writes the start of a start tag with this local name, and its first attribute, without the closing quote.
fn write_begun<Wr: Write, T: AttrRef>(
    writer: &mut Wr,
    name: &LocalName,
    first: &T,
) -> Result<(), SerializeFault>
    ensures text { Writes result (Wr.contents writer.old) (Wr.contents writer.new)
        (codes "<" ++ name.now ++ attribute_begun (T.attribute first.now)) }
    ensures fault { IsOkUnless result SerializeFault.Write }
{
    write_start(writer, name)?;
    write_first(writer, first.name(), first.value())
}

// Writes the start of a start tag with this local name, and its attributes: the first one and those of an iterator, without the last
// closing quote. Reads all of them, also after an error.
fn write_open<Wr: Write, T: AttrRef, I: Iterator<Item = T> + Drop>(
    writer: &mut Wr,
    name: &LocalName,
    first: T,
    attrs: I,
) -> Result<(), SerializeFault>
    requires can { I.can_next attrs }
    requires ends { IsFinite (I.remaining attrs) }
    ensures text { (all : List _) × Drains I.next_gives attrs all
        × Writes result (Wr.contents writer.old) (Wr.contents writer.new)
        ((codes "<" ++ name.now ++ attribute_begun (T.attribute first)) ++ flat_map attribute_next (map T.attribute all)) }
    ensures fault { IsOkUnless result SerializeFault.Write }
{
    let mut result = write_begun(writer, name, &first);
    for attr in attrs {
        result = write_further(writer, result, &attr);
    }
    result
}

/// Writes a start tag with the attributes of an iterator. Fails with `Write` if the writer fails; then a prefix of the tag has been
/// written, and all attributes are read.
pub fn write_start_tag<Wr: Write, T: AttrRef, I: Iterator<Item = T> + Drop>(
    writer: &mut Wr,
    name: &QualName,
    mut attrs: I,
) -> Result<(), SerializeFault>
    requires can { I.can_next attrs }
    requires ends { IsFinite (I.remaining attrs) }
    ensures text { (all : List _) × Drains I.next_gives attrs all
        × Writes result (Wr.contents writer.old) (Wr.contents writer.new)
        (start_tag name.now (map T.attribute all)) }
    ensures fault { IsOkUnless result SerializeFault.Write }
{
    match attrs.next() {
        None => write_whole_start(writer, &name.local),
        Some(first) => {
            write_open(writer, &name.local, first, attrs)?;
            write_verbatim(writer, "\">")
        }
    }
}

/// Writes an end tag. Fails with `Write` if the writer fails; then a prefix of the tag has been written.
pub fn write_end_tag<Wr: Write>(writer: &mut Wr, name: &QualName) -> Result<(), SerializeFault>
    ensures text { Writes result (Wr.contents writer.old) (Wr.contents writer.new) (end_tag name.now) }
    ensures fault { IsOkUnless result SerializeFault.Write }
{
    match name.local.known() {
        KnownName::Other => write_between(writer, "</", name.local.as_str(), ">"),
        known => write_bytes(writer, end_of(known)),
    }
}
