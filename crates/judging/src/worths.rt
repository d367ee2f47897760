// What a path is worth to a node that sets a bound on plans: of a "plan" by the nodes of its condition, of operator 9 by the steps that earn.
ghost use Rattle.std.specs.Prelude.{◌≡◌, ◌-◌, ◌/◌, ◌%◌, length};
ghost use Rattle.questions.specs.Layout.{node_of};
ghost use Rattle.bounds.specs.promises.Bounded.{Bounded, span_before, span_last};
ghost use Rattle.best_gain.specs.promises.Tabled.{WindowRight};
ghost use Rattle.judging.specs.promises.Worths.{Looks};

use best_gain::Window;
use prepared_model::MODEL;
use prepared_question::{QUESTION, depth, left, operator, steps};
use questions::operators::Operator;
use questions::{NODES, SPAN_BASE};
use relevance::cone;

// How many nodes of the condition are listed, how many steps come before those that are looked at, and the last that is.
#[derive(Clone, Copy)]
pub struct Worth {
    pub count: usize,
    pub before: u8,
    pub last: u8,
}

// The steps of node j, of operator 9, and those that earn.
pub fn window(m: &[u16; MODEL], q: &[u8; QUESTION], j: u8) -> Window
    requires { Bounded m.now q.now j × ((node_of q.now j).operator ≡ 9) }
    ensures { let q = q.entry.now in
        (result ≡ record { steps = (node_of q j).n; before = span_before q j; last = span_last q j }) × WindowRight result }
{
    let span = left(q, j);
    Window {
        steps: steps(q, j),
        before: span % SPAN_BASE - 1,
        last: span / SPAN_BASE,
    }
}

// What node j looks at: the nodes of its condition, listed, and how far they look ahead; or for operator 9 no node, and the steps that earn.
pub fn worth_of(m: &[u16; MODEL], q: &[u8; QUESTION], j: u8, nodes: &mut [u8; NODES]) -> Worth
    requires { Bounded m.now q.now j × (length nodes.old ≡ 40) }
    ensures { Looks q.now j nodes.new result.count result.before result.last }
{
    if operator(q, j) == Operator::Earns as u8 {
        let w = window(m, q, j);
        return Worth {
            count: 0,
            before: w.before,
            last: w.last,
        };
    }
    let c = left(q, j);
    let k = cone(q, c, nodes);
    Worth {
        count: k,
        before: 0,
        last: depth(q, c),
    }
}
