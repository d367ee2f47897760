// Which nodes are used, and ground 13: a node that is not reached from the root by following children.
ghost use Rattle.std.specs.Prelude.{◌≡◌};
ghost use Rattle.questions.specs.Layout.{node_of};
ghost use Rattle.questions.specs.Children.{children};
ghost use Rattle.questions.specs.Children as spec;
ghost use Rattle.questions.specs.promises.Used.{has_left, mark_each, Downward, Marks};

use crate::operators::Operator;
use crate::{NODES, left, node_count, operator, right, root};
use blocks::buffers::store;

// Whether a node has a child in the left cell, by its operator.
pub fn has_left(op: u8) -> bool
    ensures { result ≡ has_left op }
{
    (op == Operator::Not as u8)
        | (op == Operator::And as u8)
        | (op == Operator::Next as u8)
        | (op == Operator::Plan as u8)
}

// Marks the children of node i.
fn mark_children(b: &[u8], marks: &mut [u8; NODES], i: u8)
    ensures { marks.new ≡ mark_each (children (node_of b.now i)) marks.old }
{
    let op = operator(b, i);
    if has_left(op) {
        store(marks, usize::from(left(b, i)), 1);
    }
    if op == Operator::And as u8 {
        store(marks, usize::from(right(b, i)), 1);
    }
}

// A mark for each node that is a child of some node.
fn children_marked(b: &[u8]) -> [u8; NODES]
    ensures { Marks b.now result }
{
    let mut marks = [0; NODES];
    for i in 0..node_count(b) {
        mark_children(b, &mut marks, i);
    }
    marks
}

// Ground 13. Children have smaller numbers than their node (ground 5), so that from a node to a parent, to a parent of that and so on one comes
// to the root: all nodes are reached if each before the root is some node's child.
pub fn all_reached(b: &[u8]) -> bool
    requires { Downward b.now }
    ensures { result ≡ spec.all_reached b.now }
{
    let marks = children_marked(b);
    (0..root(b)).all(|j| marks[usize::from(j)] == 1)
}
