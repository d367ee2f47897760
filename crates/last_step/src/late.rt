// The last step of a path for all outcomes of the state before it: the condition's value at the end of each, in one pass over its nodes.
ghost use Rattle.std.specs.Prelude.{◌≡◌, ◌<◌, length, get_or, set};
ghost use Rattle.prepared_question.specs.promises.Nodes.{depth_in};
ghost use Rattle.evaluation.specs.promises.Reached.{Cone};
ghost use Rattle.prepared_question.specs.promises.Marks.{Grown};
ghost use Rattle.last_step.specs.promises.Late.{PassedOn, Late, TurnsOn, Placed, Deep};

use prepared_question::{QUESTION, depth, left, operator, right};
use questions::NODES;
use questions::operators::Operator;

// ---- the nodes that matter

fn mark(marks: &mut [u8; NODES], j: u8)
    requires { j < 40 }
    ensures { marks.new ≡ set marks.old j 1 }
{
    let at = j as usize;
    marks[at] = 1;
}

// Marks a child of a node of depth d, if it looks as far ahead.
fn mark_level(q: &[u8; QUESTION], marks: &mut [u8; NODES], d: u8, child: u8)
    requires { (child < 40) × (length marks.old ≡ 40) }
    ensures { let marks' = marks.exit.now in let q = q.entry.now in let marks = marks.entry.now in
        Grown (λ k. (k ≡ child) × (depth_in q child ≡ d)) marks marks' × (depth_in q child ≡ d → get_or marks' child 0 ≡ 1) }
{
    if depth(q, child) == d {
        mark(marks, child);
    }
}

// Marks the children of node j whose values become known with the same step, if j is marked and no state formula.
fn pass_on(q: &[u8; QUESTION], marks: &mut [u8; NODES], j: u8)
    requires { Placed q.now j × (length marks.old ≡ 40) }
    ensures { let marks' = marks.exit.now in let q = q.entry.now in let marks = marks.entry.now in
        Grown (TurnsOn q j) marks marks' × (get_or marks j 0 ≡ 1 → PassedOn q marks' j) }
{
    let at = j as usize;
    if marks[at] != 1 {
        return;
    }
    let d = depth(q, j);
    if d == 0 {
        return;
    }
    let Ok(operator) = Operator::try_from(operator(q, j)) else {
        return;
    };
    match operator {
        Operator::Not | Operator::Next => mark(marks, left(q, j)),
        Operator::And => {
            mark_level(q, marks, d, left(q, j));
            mark_level(q, marks, d, right(q, j));
        }
        _ => {}
    }
}

// Marks from the condition downwards: children stand before their parents. By place, since the proof asks where a node stands in the cone, which
// `iter().rev()` does not tell.
pub fn late(q: &[u8; QUESTION], cone: &[u8]) -> [u8; NODES]
    requires { Deep q.now × Cone q.now cone.now × (0 < length cone.now) }
    ensures { Late q.now cone.now result }
{
    let mut marks = [0u8; NODES];
    let root = cone[cone.len() - 1] as usize;
    marks[root] = 1;
    for i in (0..cone.len()).rev() {
        pass_on(q, &mut marks, cone[i]);
    }
    marks
}
