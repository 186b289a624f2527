//! Lists of nodes that take no more memory than their nodes need: a tree keeps what it has until it is written.

ghost use Rattle.std.specs.Prelude.{◌≡◌, [], IfOk};

use crate::node::Node;
use std::alloc::{AllocError, Global};

/// No nodes, and room for so many of them; no room takes no memory. The error is want of memory.
pub(crate) fn with_room(alloc: Global, count: usize) -> Result<Vec<Node>, AllocError>
    ensures { IfOk result (λ nodes. nodes.items ≡ []) }
{
    Vec::with_capacity(alloc, count)
}

/// The same nodes, without room for more of them.
pub(crate) fn without_slack(mut nodes: Vec<Node>) -> Vec<Node>
    ensures { result.items ≡ nodes.items }
{
    nodes.shrink_to_fit();
    nodes
}
