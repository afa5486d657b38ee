//! Links between nodes.
ghost use Rattle.std.specs.Prelude.{◌≡◌, ◌<◌, None, Some};
ghost use Rattle.h5_arena.specs.ArenaModel.{link_place, optional_place};

use super::nodes::NodeId;

/// A node or none, in the size of one number.
#[derive(Clone, Copy)]
pub(crate) struct Link {
    // The node's index plus 1, or 0.
    behind: usize,
}

impl Link {
    /// No node.
    pub(crate) fn none() -> Link
        ensures { link_place result ≡ None }
    {
        Link { behind: 0 }
    }

    /// This node.
    pub(crate) fn to(id: NodeId) -> Link
        requires { id.index < 18446744073709551615 }
        ensures { link_place result ≡ Some id.index }
    {
        Link {
            behind: id.index + 1,
        }
    }

    /// The node, if there is one.
    pub(crate) fn node(self) -> Option<NodeId>
        ensures { optional_place result ≡ link_place self }
    {
        if self.behind == 0 {
            return None;
        }
        Some(NodeId {
            index: self.behind - 1,
        })
    }
}
