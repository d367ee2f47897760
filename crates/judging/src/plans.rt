// The truth of nodes that set a bound on plans: for "less" and "greater" a "plan" is searched as deep as its condition looks and operator 9 has a
// table; for "equal" both are searched among all plans.
ghost use Rattle.std.specs.Prelude.{◌≡◌, ℕ, ◌^◌, ◌≤◌, ◌<◌, List, [], length, replicate};
ghost use Rattle.logic.specs.Formula.{sat};
ghost use Rattle.logic.specs.Formula as formulas;
ghost use Rattle.models.specs.Layout.{state_count, denominator_of};
ghost use Rattle.prepared_model.specs.promises.Rows.{model_in};
ghost use Rattle.questions.specs.Layout.{node_of};
ghost use Rattle.prepared_question.specs.promises.Nodes.{formula};
ghost use Rattle.relevance.specs.promises.Need.{Given};
ghost use Rattle.bounds.specs.promises.Bounded.{Bounded};
ghost use Rattle.judging.specs.promises.Asked.{Asked};
ghost use Rattle.judging.specs.promises.Decided.{condition, Posed, Lengthened, Led, Placed, Decided};
ghost use Rattle.judging.specs.promises.Conditions.{Remembers};

use crate::BESTS;
use crate::conditions::{best_value, peel, searched};
use crate::worths::{window, worth_of};
use best_gain::best_gains;
use bounds::{exact_total, meets, power};
use evaluation::TRUTHS;
use exact_plan::{Sought, first_equal};
use limits::{COUNTS, plans_counted};
use models::STATES;
use prepared_model::{MODEL, STAGES, denominator};
use prepared_question::{QUESTION, asks_equal, asks_less, depth, left, operator, steps};
use questions::NODES;
use questions::operators::Operator;

// What deciding a node in a state came to: whether it is true, the raised total of the plan found, its place for "equal" (from 0; the number of
// all plans if there is none), and how many steps of that plan the scratch has.
#[derive(Clone, Copy)]
pub struct Decision {
    pub met: bool,
    pub raised: u64,
    pub place: usize,
    pub given: u8,
}

// A total of the condition of node j, a "plan", over as many steps as it looks ahead, as one over all steps of the node.
fn over_all_steps(m: &[u16; MODEL], q: &[u8; QUESTION], j: u8, value: u64) -> u64
    requires bounded { Bounded m.now q.now j × ((node_of q.now j).operator ≡ 8) }
    requires value_bound { value ≤ denominator_of m.now ^ formulas.depth (condition q.now j) }
    ensures { Lengthened m.now q.now j value result }
{
    let d = depth(q, left(q, j));
    power(denominator(m), steps(q, j) - d) * value
}

// "less" and "greater" of a "plan": the plan of least or of greatest total decides, and a search as deep as the condition looks finds it.
// Beyond that the plan has first choices, at place 0.
fn led(
    m: &[u16; MODEL],
    q: &[u8; QUESTION],
    truth: &[u8; TRUTHS],
    scratch: &mut [u8],
    j: u8,
    s: u8,
) -> Decision
    requires given { Given m.now q.now × Posed m.now q.now truth.now j s × ((node_of q.now j).operator ≡ 8) }
    requires fact { ((node_of q.now j).right ≡ 2 → ⊥) × (4095 ≤ length scratch.old) }
    ensures { Led m.now q.now j s scratch.new (replicate 224 0) result }
{
    let c = left(q, j);
    let r = searched(m, q, truth, scratch, c, s, asks_less(q, j));
    let raised = over_all_steps(m, q, j, r.value);
    Decision {
        met: meets(m, q, j, raised),
        raised,
        place: 0,
        given: depth(q, c),
    }
}

// "less" and "greater" of operator 9: a table by steps left and states has the best total, and the places of the plan's choices.
fn gain_led(
    m: &[u16; MODEL],
    q: &[u8; QUESTION],
    places: &mut [u8; STAGES],
    j: u8,
    s: u8,
) -> Decision
    requires bounded { Bounded m.now q.now j × ((node_of q.now j).operator ≡ 9) × (s < state_count m.now) }
    requires fact { ((node_of q.now j).right ≡ 2 → ⊥) × (length places.old ≡ 224) }
    ensures { let m = m.entry.now in let q = q.entry.now in let places = places.exit.now in
        ((scratch : List ℕ) → Led m q j s scratch places result) }
{
    let w = window(m, q, j);
    let best = best_gains(m, w, asks_less(q, j), places);
    let raised = best[STATES * steps(q, j) as usize + s as usize];
    Decision {
        met: meets(m, q, j, raised),
        raised,
        place: 0,
        given: 0,
    }
}

// Whether the "plan" node j, "less" or "greater", is true in s: by what is left of its condition there, searched once.
fn plan_led(
    m: &[u16; MODEL],
    q: &[u8; QUESTION],
    truth: &[u8; TRUTHS],
    scratch: &mut [u8],
    memo: &mut [u64; BESTS],
    j: u8,
    s: u8,
) -> bool
    requires given { Given m.now q.now × Posed m.now q.now truth.now j s × ((node_of q.now j).operator ≡ 8) }
    requires fact { ((node_of q.now j).right ≡ 2 → ⊥) × (4095 ≤ length scratch.old) × Remembers m.now q.now memo.old }
    ensures value { result ≡ sat (model_in m.now) (formula q.now j) s [] }
    ensures frame { Remembers m.now q.now memo.new }
{
    let Some(c) = peel(q, truth, left(q, j), s) else {
        return meets(m, q, j, 0);
    };
    let least = asks_less(q, j);
    let x = best_value(m, q, truth, scratch, memo, c, s, least);
    meets(m, q, j, over_all_steps(m, q, j, x))
}

// "equal": the first plan decides that has the one total that meets the bound, if there is such a total.
fn first(
    m: &[u16; MODEL],
    q: &[u8; QUESTION],
    counts: &[u64; COUNTS],
    truth: &[u8; TRUTHS],
    j: u8,
    s: u8,
) -> Decision
    requires asked { Asked m.now q.now counts.now × Posed m.now q.now truth.now j s }
    requires j_value { (node_of q.now j).right ≡ 2 }
    ensures { Placed m.now q.now j s result }
{
    let n = steps(q, j);
    let all = plans_counted(counts, n, s as usize) as usize;
    let x = exact_total(m, q, j);
    let total = x.total;
    if !x.whole {
        return Decision {
            met: false,
            raised: total,
            place: all,
            given: 0,
        };
    }
    let mut nodes = [0u8; NODES];
    let w = worth_of(m, q, j, &mut nodes);
    let l = Sought {
        s,
        a: w.before,
        d: w.last,
        n,
    };
    let place = first_equal(m, q, truth, &nodes[..w.count], counts, l, total);
    Decision {
        met: place < all,
        raised: total,
        place,
        given: 0,
    }
}

// Decides node j in s.
pub fn decide(
    m: &[u16; MODEL],
    q: &[u8; QUESTION],
    counts: &[u64; COUNTS],
    truth: &[u8; TRUTHS],
    scratch: &mut [u8],
    places: &mut [u8; STAGES],
    j: u8,
    s: u8,
) -> Decision
    requires asked { Asked m.now q.now counts.now × Posed m.now q.now truth.now j s }
    requires in_bounds { (4095 ≤ length scratch.old) × (places.old ≡ replicate 224 0) }
    ensures { Decided m.now q.now j s scratch.new places.new result }
{
    if asks_equal(q, j) {
        return first(m, q, counts, truth, j, s);
    }
    if operator(q, j) == Operator::Earns as u8 {
        return gain_led(m, q, places, j, s);
    }
    led(m, q, truth, scratch, j, s)
}

// Whether node j, a "plan", or operator 9 with "equal", is true in s.
pub fn plan_true(
    m: &[u16; MODEL],
    q: &[u8; QUESTION],
    counts: &[u64; COUNTS],
    truth: &[u8; TRUTHS],
    scratch: &mut [u8],
    memo: &mut [u64; BESTS],
    j: u8,
    s: u8,
) -> bool
    requires asked { Asked m.now q.now counts.now × Posed m.now q.now truth.now j s }
    requires j_value { (((node_of q.now j).right ≡ 2 → ⊥) → (node_of q.now j).operator ≡ 8) × (4095 ≤ length scratch.old)
        × Remembers m.now q.now memo.old }
    ensures value { result ≡ sat (model_in m.now) (formula q.now j) s [] }
    ensures frame { Remembers m.now q.now memo.new }
{
    if asks_equal(q, j) {
        let r = first(m, q, counts, truth, j, s);
        return r.met;
    }
    plan_led(m, q, truth, scratch, memo, j, s)
}
