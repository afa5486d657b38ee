//! The options of a serializer.
ghost use Rattle.std.specs.Prelude.{◌≡◌, IfOk};

use h5_names::QualName;
use std::alloc::AllocError;

/// The part of a node to write.
#[derive(Debug, Drop, PartialEq, Eq)]
pub enum TraversalScope {
    /// The node itself, with its content.
    IncludeNode,
    /// Only the content of the node. With a name, text directly inside is written as in an HTML element with that local name.
    ChildrenOnly(Option<QualName>),
}

impl TraversalScope {
    /// Returns an equal scope. Fails with `AllocError` if an allocation fails.
    pub fn clone(&self) -> Result<TraversalScope, AllocError>
        ensures { IfOk result (λ scope. scope ≡ self.now) }
    {
        match self {
            TraversalScope::IncludeNode => Ok(TraversalScope::IncludeNode),
            TraversalScope::ChildrenOnly(None) => Ok(TraversalScope::ChildrenOnly(None)),
            TraversalScope::ChildrenOnly(Some(name)) => {
                Ok(TraversalScope::ChildrenOnly(Some(name.clone()?)))
            }
        }
    }
}

/// The options of a serializer.
#[derive(Debug, Drop, PartialEq, Eq)]
pub struct SerializeOpts {
    /// True if the text of a `noscript` is written unescaped.
    pub scripting_enabled: bool,
    pub traversal_scope: TraversalScope,
    /// True if a start tag, an end tag or a text without a parent gets one. If false, the call fails with
    /// [`SerializeFault::NoParent`](crate::SerializeFault::NoParent).
    pub create_missing_parent: bool,
}

impl SerializeOpts {
    /// Returns equal options. Fails with `AllocError` if an allocation fails.
    pub fn clone(&self) -> Result<SerializeOpts, AllocError>
        ensures { IfOk result (λ opts. opts ≡ self.now) }
    {
        Ok(SerializeOpts {
            scripting_enabled: self.scripting_enabled,
            traversal_scope: self.traversal_scope.clone()?,
            create_missing_parent: self.create_missing_parent,
        })
    }
}

impl Default for SerializeOpts {
    ghost use Rattle.std.specs.Prelude.{◌≡◌, true, false, None};
    ghost use Rattle.h5_serialize.specs.declared.options.TraversalScope.TheVariants.{ChildrenOnly};

    ghost is_default = { λ opts. opts ≡ record {
      scripting_enabled = true;
      traversal_scope = ChildrenOnly None;
      create_missing_parent = false;
    } };

    /// With scripting, only the children, and without making parents.
    fn default() -> SerializeOpts {
        SerializeOpts {
            scripting_enabled: true,
            traversal_scope: TraversalScope::ChildrenOnly(None),
            create_missing_parent: false,
        }
    }
}
