//! Kinds of elements, shared between elements with equal names.
ghost use Rattle.std.specs.Prelude.{◌≡◌, ◌<◌, IfOk, IfSome, OnOk, true, vec_len};
ghost use Rattle.std.specs.Arc.{arc_value};
ghost use Rattle.h5_interface.specs.Forest.{ElementNode};
ghost use Rattle.h5_arena.specs.ArenaModel.{kind_view};

use super::nodes::Kind;
use h5_names::QualName;
use std::alloc::{AllocError, Global};
use std::sync::Arc;

/// Recent kinds of elements, one for each local name that HTML knows, and one for all others: most elements of a page have one of few
/// names.
#[derive(Drop)]
pub(crate) struct SharedKinds {
    // By the number of the local name.
    by_local: Vec<Option<Arc<Kind>>>,
}

// Returns true only if two names are equal.
fn is_same(x: &QualName, y: &QualName) -> bool
    ensures { result ≡ true → x.now ≡ y.now }
{
    *x == *y
}

// The kind of an element with this name, if the slot has it.
fn kept(slot: &Option<Arc<Kind>>, name: &QualName) -> Result<Option<Arc<Kind>>, AllocError>
    ensures { IfOk result (λ found. IfSome found (λ kind. kind_view (arc_value kind) ≡ ElementNode name.now)) }
{
    let Some(shared) = slot else {
        return Ok(None);
    };
    match &**shared {
        Kind::Element(last) if is_same(last, name) => Ok(Some(shared.clone()?)),
        _ => Ok(None),
    }
}

// Makes slots up to this one.
fn make_slots(slots: &mut Vec<Option<Arc<Kind>>>, last: usize) -> Result<(), AllocError>
    ensures { OnOk result (last < vec_len slots.new) }
{
    while slots.len() <= last {
        slots.push(None)?;
    }
    Ok(())
}

impl SharedKinds {
    /// No kinds yet, without an allocation.
    pub(crate) fn new(alloc: Global) -> SharedKinds {
        SharedKinds {
            by_local: Vec::new(alloc),
        }
    }

    /// The kind of an element with this name: shared with the last one of its local name, if their names are equal.
    pub(crate) fn element(&mut self, alloc: Global, name: QualName) -> Result<Arc<Kind>, AllocError>
        ensures { IfOk result (λ kind. kind_view (arc_value kind) ≡ ElementNode name) }
    {
        let number = name.local.known() as usize;
        make_slots(&mut self.by_local, number)?;
        if let Some(shared) = kept(&self.by_local[number], &name)? {
            return Ok(shared);
        }
        let made = Arc::new(alloc, Kind::Element(name))?;
        self.by_local[number] = Some(made.clone()?);
        Ok(made)
    }
}
