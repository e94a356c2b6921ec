ghost use Rattle.std.specs.Prelude.{◌≡◌, None, Some, true, OnOk, IfOk};
ghost use Rattle.context_tree.specs.Tree.{contexts, is_held, nodes_after, refusal, subtree, without, IsTree};

use context_tree::{Tree, TreeFault};
use fission_ids::{ContextId, OutOfMemory};

/// Attaches a context that may be attached.
pub(crate) fn attach(
    tree: &mut Tree,
    parent: Option<ContextId>,
    x: ContextId,
) -> Result<(), OutOfMemory>
    requires { refusal parent x tree.old ≡ None }
    ensures nodes { OnOk result (tree.new ≡ nodes_after parent x tree.old) }
    ensures tree { OnOk result (IsTree tree.new) }
{
    match tree.attach(parent, x) {
        Ok(()) => {
            tree.stands_as_a_tree();
            Ok(())
        }
        Err(TreeFault::OutOfMemory) => Err(OutOfMemory),
        Err(_) => unreachable!(),
    }
}

/// Detaches a context that is held with all below it, and gives their ids in pre-order.
pub(crate) fn detach(tree: &mut Tree, x: ContextId) -> Result<Vec<ContextId>, OutOfMemory>
    requires { is_held x tree.old ≡ true }
    ensures ids { IfOk result (λ ids. ids.items ≡ contexts (subtree x tree.old)) }
    ensures nodes { OnOk result (tree.new ≡ without x tree.old) }
    ensures tree { OnOk result (IsTree tree.new) }
{
    match tree.detach(x)? {
        Some(ids) => {
            tree.stands_as_a_tree();
            Ok(ids)
        }
        None => unreachable!(),
    }
}
