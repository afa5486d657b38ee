//! Cleans a text.
ghost use Rattle.std.specs.Prelude.{◌≡◌, ◌⊎◌, ℕ, List, [], None, false, true, IfErr, IfOk, string_bytes};
ghost use Rattle.std.specs.Io.KnownBytes.{Appends};
ghost use Rattle.h5_serialize.specs.declared.options.TraversalScope.TheVariants.{ChildrenOnly};
ghost use Rattle.h5_arena.specs.NodeCalls.{walk_of};
ghost use Rattle.h5_arena.specs.ArenaModel.{arena_choices, forest_seen, fragment_root, new_arena, place, seen_of};
ghost use Rattle.h5_builder_laws.specs.Plain.{Nodes};
ghost use Rattle.h5_round_trip.specs.Written.{written_fragment};
ghost use Rattle.h5_tree_builder.specs.Held.{building};
ghost use Rattle.h5_driver.specs.Fragments.{first_in_new, opts_in_context};
ghost use Rattle.h5_driver.specs.Options.{default_options};
ghost use Rattle.h5_driver.specs.StandardReader.{first};
ghost use Rattle.h5_clean.specs.Cleaned.{Builds, BuildsFragment, IsClean, IsCleaned, WritesCleaned, calls_below, div};

use super::cleaner::Cleaner;
use super::laws::{a_clean_text_stays, a_cleaned_text_stays};
use super::policy::Policy;
use super::texts::text_of_bytes;
use h5_arena::{Arena, NodeRef};
use h5_driver::ParseOpts;
use h5_driver::standard::{Parser, parse_fragment};
use h5_names::{LocalName, Namespace, QualName};
use h5_serialize::laws::texts_are_written_in_turn;
use h5_serialize::{Serialize, SerializeFault, TraversalScope};
use h5_token::BuildFault;
use std::alloc::{AllocError, Global};
use std::io::Write;

// The only error of a parser that hasn't failed is a failed allocation.
fn refused(_fault: BuildFault) -> AllocError
    requires { _fault ≡ BuildFault.Memory }
{
    AllocError
}

// Writing to a vector fails only if an allocation fails.
fn unwritten(_fault: SerializeFault) -> AllocError {
    AllocError
}

// A parser in a `div`.
fn parser_in_div(alloc: Global) -> Result<Parser<Arena>, AllocError>
    ensures builder { IfOk result (λ parser. building seen_of place parser.tokenizer.sink ≡ first_in_new arena_choices (seen_of new_arena) div [] default_options.tree_builder) }
    ensures reader { IfOk result (λ parser. parser.tokenizer.reader ≡ first (opts_in_context true (building seen_of place parser.tokenizer.sink).view.world default_options.tokenizer)) }
    ensures waiting { IfOk result (λ parser. parser.waiting ≡ []) }
    ensures failed { IfOk result (λ parser. parser.failed ≡ false) }
{
    let name = QualName::new(None, Namespace::html(), LocalName::new(alloc, "div")?);
    let arena = Arena::without_errors(alloc)?;
    let opts = ParseOpts::default();
    match parse_fragment(alloc, arena, opts, name, Vec::new(alloc), true) {
        Ok(parser) => Ok(parser),
        Err(fault) => Err(refused(fault)),
    }
}

// The tree of a text.
fn tree_of(alloc: Global, html: &str) -> Result<Arena, AllocError>
    ensures { IfOk result (λ arena. Builds html.now arena) }
{
    let parser = parser_in_div(alloc)?;
    match parser.one(html) {
        Ok(arena) => Ok(arena),
        Err(fault) => Err(refused(fault)),
    }
}

/// Writes what a policy leaves of the tree below a node, and returns the writer. The result may be used where that of
/// `clean` may be used. Fails with `Memory` if an allocation fails, and with `Write` if the writer fails; in both cases
/// the writer is dropped.
pub fn clean_tree<P: Policy, Wr: Write + Drop>(
    alloc: Global,
    node: &NodeRef<'_>,
    policy: &P,
    writer: Wr,
) -> Result<Wr, SerializeFault>
    ensures cleaned { IfOk result (λ given. WritesCleaned (P.rules policy.now) (walk_of (forest_seen node.now.arena.now) node.now.id.index (ChildrenOnly None))
        (Wr.contents writer) (Wr.contents given)) }
    ensures fault { IfErr result (λ fault. (fault ≡ SerializeFault.Memory) ⊎ (fault ≡ SerializeFault.Write)) }
{
    let mut cleaner = Cleaner::new(alloc, policy, writer)?;
    node.serialize(&mut cleaner, TraversalScope::ChildrenOnly(None))?;
    texts_are_written_in_turn::<Cleaner<'_, P, Wr>>();
    Ok(cleaner.into_writer())
}

// As `clean_tree`, for the root of a fragment, if there is one.
fn clean_fragment<P: Policy, Wr: Write + Drop>(
    alloc: Global,
    arena: &Arena,
    policy: &P,
    writer: Wr,
) -> Result<Wr, SerializeFault>
    ensures cleaned { IfOk result (λ given. WritesCleaned (P.rules policy.now) (calls_below (forest_seen arena.now) (fragment_root arena.now))
        (Wr.contents writer) (Wr.contents given)) }
    ensures fault { IfErr result (λ fault. (fault ≡ SerializeFault.Memory) ⊎ (fault ≡ SerializeFault.Write)) }
{
    match arena.fragment_root() {
        Some(root) => clean_tree(alloc, &arena.at(root), policy, writer),
        None => Ok(writer),
    }
}

/// Writes what a policy leaves of a text, as `clean` returns it, and returns the writer. Fails with `Memory` if an
/// allocation fails, and with `Write` if the writer fails; in both cases the writer is dropped.
pub fn clean_into<P: Policy, Wr: Write + Drop>(
    alloc: Global,
    html: &str,
    policy: &P,
    writer: Wr,
) -> Result<Wr, SerializeFault>
    ensures cleaned { IfOk result (λ given. (out : List ℕ) × IsCleaned (P.rules policy.now) html.now out × Appends (Wr.contents writer) (Wr.contents given) out) }
    ensures fault { IfErr result (λ fault. (fault ≡ SerializeFault.Memory) ⊎ (fault ≡ SerializeFault.Write)) }
{
    let arena = tree_of(alloc, html)?;
    let given = clean_fragment(alloc, &arena, policy, writer)?;
    Ok(given)
}

// What is left of a text, as bytes.
fn clean_bytes<P: Policy>(alloc: Global, html: &str, policy: &P) -> Result<Vec<u8>, SerializeFault>
    ensures { IfOk result (λ left. IsCleaned (P.rules policy.now) html.now left.items) }
{
    let left = clean_into(alloc, html, policy, Vec::new(alloc))?;
    Ok(left)
}

// What is left of a text.
fn clean_text<P: Policy>(alloc: Global, html: &str, policy: &P) -> Result<String, AllocError>
    ensures { IfOk result (λ out. IsCleaned (P.rules policy.now) html.now (string_bytes out)) }
{
    let left = clean_bytes(alloc, html, policy).map_err(unwritten)?;
    let out = text_of_bytes(left)?;
    Ok(out)
}

/// Returns what a policy leaves of a text, which is parsed as a fragment in a `div`. Fails with `AllocError` if an
/// allocation fails.
///
/// Parsed as a fragment, by a new parser with default options, in an HTML element by which the mode is "in body", such
/// as a `div` or an `li`, the result becomes exactly the allowed tree (`laws::what_is_left_comes_back`). Pasted into a
/// page served as UTF-8, at a place that is a box (`IsBox`) in which no more is open than the policy's `around` says,
/// it adds exactly that tree (`laws::what_is_left_stays_in_its_box`). It must not be pasted into a script, a style, an
/// attribute or a comment.
///
/// A result is returned unchanged if it is cleaned again by the same rules. If the text is parsed as a fragment that
/// the policy allows completely, the result is the text of that fragment (`written_fragment`).
pub fn clean<P: Policy>(alloc: Global, html: &str, policy: &P) -> Result<String, AllocError>
    ensures cleaned { IfOk result (λ out. IsCleaned (P.rules policy.now) html.now (string_bytes out)) }
    ensures again { IfOk result (λ out. (before : List ℕ) → IsCleaned (P.rules policy.now) before html.now → string_bytes out ≡ html.now) }
    ensures whole { IfOk result (λ out. (nodes : Nodes) → IsClean (P.rules policy.now) nodes → BuildsFragment html.now nodes
        → string_bytes out ≡ written_fragment nodes) }
{
    let out = clean_text(alloc, html, policy)?;
    a_cleaned_text_stays();
    a_clean_text_stays();
    Ok(out)
}
