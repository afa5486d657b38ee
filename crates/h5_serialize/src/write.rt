//! Writes a node.
ghost use Rattle.std.specs.Prelude.{◌≡◌, ◌≢◌, true, false, Err, IfOk, OnOk, IsErrOf};
ghost use Rattle.std.specs.Io.KnownBytes.{Appends};
ghost use Rattle.h5_serialize.specs.Standing.{new_standing, walk_text, has_orphan};

use super::fault::SerializeFault;
use super::html::HtmlSerializer;
use super::options::SerializeOpts;
use super::serializer::Serialize;
use std::alloc::Global;
use std::io::Write;

/// Writes a node as HTML, and returns the writer (HTML standard, section 13.3, "Serializing HTML fragments").
///
/// Fails with `NoParent` if a start tag, an end tag or a text of the walk has no parent and none is made, with `Memory` if an allocation
/// fails, and with `Write` if the writer fails. The writer is dropped then.
pub fn serialize<Wr: Write + Drop, T: Serialize>(
    alloc: Global,
    writer: Wr,
    node: &T,
    opts: SerializeOpts,
) -> Result<Wr, SerializeFault>
    ensures text { IfOk result (λ written. Appends (Wr.contents writer) (Wr.contents written)
        (walk_text (new_standing opts) (T.walk node.now opts.traversal_scope))) }
    ensures parents { OnOk result
        (has_orphan (new_standing opts) (T.walk node.now opts.traversal_scope) ≡ false) }
    ensures no_parent { IsErrOf result SerializeFault.NoParent →
        has_orphan (new_standing opts) (T.walk node.now opts.traversal_scope) ≡ true }
    ensures not_failed { result ≢ Err SerializeFault.Failed }
{
    let traversal_scope = opts.traversal_scope.clone()?;
    let mut serializer = HtmlSerializer::new(alloc, writer, opts)?;
    node.serialize(&mut serializer, traversal_scope)?;
    Ok(serializer.writer)
}
