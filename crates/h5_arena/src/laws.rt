//! Laws of the walk. Each is the contract of a function that does nothing.
ghost use Rattle.std.specs.Prelude.{◌≡◌, ℕ, Some, false};
ghost use Rattle.h5_interface.specs.Forest.{Forest, IsForest, Node};
ghost use Rattle.h5_serialize.specs.Standing.{has_orphan, new_standing};
ghost use Rattle.h5_serialize.specs.declared.options.SerializeOpts.{SerializeOpts};
ghost use Rattle.h5_serialize.specs.declared.options.TraversalScope.{TraversalScope};
ghost use Rattle.h5_arena.specs.NodeCalls.{calls_around, calls_of, calls_of_children, shown_children, walk_of};

/// If a node is in a forest, its calls surround those of its children, at any depth.
pub fn calls_stand_around_those_of_children()
    ensures { (f : Forest) → IsForest f → (n : ℕ) (node : Node) → f.node n ≡ Some node →
        calls_of f n ≡ calls_around node.kind node.attrs (calls_of_children f (shown_children f n)) }
{}

/// No call of a node's walk is without a parent; so `h5_serialize::serialize` never fails with `NoParent` for a node.
pub fn no_call_lacks_a_parent()
    ensures { (f : Forest) (n : ℕ) (scope : TraversalScope) (opts : SerializeOpts) →
        has_orphan (new_standing opts) (walk_of f n scope) ≡ false }
{}
