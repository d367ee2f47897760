// Why a question is answered no: what could have been had. Document 02, A.5. One search finds both the verdict and the reason: for "less" and
// "greater" the plan that leads, met or not; for "equal" the list of all plans' totals, of which those nearest to the bound are kept.
#![tactic(auto)]

ghost use Rattle.std.specs.Prelude.{◌≡◌, List, ℕ, ◌≤◌, ◌<◌, length};
ghost use Rattle.logic.specs.Formula as formulas;
ghost use Rattle.models.specs.Layout.{state_count};
ghost use Rattle.prepared_model.specs.promises.Rows.{model_in};
ghost use Rattle.questions.specs.Layout.{start_of, node_count, node_of};
ghost use Rattle.prepared_question.specs.promises.Nodes.{formula};
ghost use Rattle.limits.specs.promises.Counted.{Counted};
ghost use Rattle.bounds.specs.promises.Bounded.{Bounded, most_of};
ghost use Rattle.judging.specs.promises.Asked.{Asked, Served};
ghost use Rattle.judging.specs.promises.Announced.{root};
ghost use Rattle.judging.specs.promises.Truth.{Supplied};
ghost use Rattle.judging.specs.promises.Decided.{Posed};
ghost use Rattle.reasons.specs.promises.Told.{led_code, TellsOf};

mod sides;

use crate::sides::by_list;
use best_plan::STACK;
use bounds::{lamp_of, lowered, whole};
use evaluation::TRUTHS;
use judging::plans::{Decision, decide};
use judging::root_truth;
use judging::truth::plain_truth;
use lamp::Lamp;
use limits::COUNTS;
use plan_choices::extending::extend;
use prepared_model::{MODEL, STAGES};
use prepared_question::{QUESTION, asks_equal, asks_less, count, operator, start, steps};
use questions::sets_bound;

// A plan that is shown on yes: its total, over what all paths weigh together, how that compares with the bound, the plan's place for "equal", else 0,
// and how many choices it has; they stand in the first lent buffer.
#[derive(Clone, Copy)]
pub struct ShownPlan {
    pub total: i64,
    pub whole: u64,
    pub lamp: Lamp,
    pub count: u32,
    pub size: usize,
}

// A total that some plan reaches, over what all paths weigh together, and how many choices the first plan has that reaches it.
#[derive(Clone, Copy)]
pub struct Reached {
    pub total: i64,
    pub whole: u64,
    pub size: usize,
}

// What is reached on either side of the bound, where something is; the choices stand in the first lent buffer and in the second.
#[derive(Clone, Copy)]
pub struct Between {
    pub below: Option<Reached>,
    pub above: Option<Reached>,
}

// A yes, with a shown plan or without, or the reason of a no.
#[derive(Clone, Copy)]
pub enum Explanation {
    Yes,
    Shown(ShownPlan),
    NoReason,
    Greatest(Option<Reached>),
    Least(Option<Reached>),
    Nearest(Between),
}

// What is said of the plan that leads, of so many choices.
fn of_leader(m: &[u16; MODEL], q: &[u8; QUESTION], j: u8, r: Decision, size: usize) -> Explanation
    requires { Bounded m.now q.now j × (r.raised ≤ most_of m.now q.now j) }
    ensures { result ≡ led_code m.now q.now j r.met r.raised size }
{
    let total = lowered(m, q, j, r.raised);
    let whole = whole(m, q, j);
    if r.met {
        let lamp = lamp_of(m, q, j, r.raised);
        return Explanation::Shown(ShownPlan {
            total,
            whole,
            lamp,
            count: 0,
            size,
        });
    }
    let side = Some(Reached { total, whole, size });
    if asks_less(q, j) {
        return Explanation::Least(side);
    }
    Explanation::Greatest(side)
}

// "less" and "greater": the plan that leads is shown where it meets the bound, and is the reason where not.
fn by_leader(
    m: &[u16; MODEL],
    q: &[u8; QUESTION],
    counts: &[u64; COUNTS],
    truth: &[u8; TRUTHS],
    choices: &mut [u8],
    j: u8,
    s: u8,
) -> Explanation
    requires asked { Asked m.now q.now counts.now × Posed m.now q.now truth.now j s }
    requires fact { ((node_of q.now j).right ≡ 2 → ⊥) × (1365 ≤ length choices.old) }
    ensures { let choices' = choices.exit.now in let m = m.entry.now in let q = q.entry.now in let choices = choices.entry.now in
        ((further : List ℕ) → TellsOf (model_in m) s (formula q j) result choices choices' further further) }
{
    let mut scratch = [0u8; STACK];
    let mut places = [0u8; STAGES];
    let r = decide(m, q, counts, truth, &mut scratch, &mut places, j, s);
    let d = r.given as usize;
    let n = steps(q, j) as usize;
    let size = extend(m, &places, &scratch, choices, s as usize, d, n);
    of_leader(m, q, j, r, size)
}

// What is said of node j, a state formula, in s.
fn at_node(
    m: &[u16; MODEL],
    q: &[u8; QUESTION],
    counts: &[u64; COUNTS],
    truth: &[u8; TRUTHS],
    choices: &mut [u8],
    further: &mut [u8],
    j: u8,
    s: u8,
) -> Explanation
    requires asked { Asked m.now q.now counts.now × (j < node_count q.now) × (s < state_count m.now) }
    requires supplied { Supplied m.now q.now truth.now j s × (formulas.depth (formula q.now j) ≡ 0) × (1365 ≤ length choices.old)
        × (1365 ≤ length further.old) }
    ensures { let choices' = choices.exit.now in let further' = further.exit.now in let m = m.entry.now in let q = q.entry.now in
        let choices = choices.entry.now in let further = further.entry.now in
        TellsOf (model_in m) s (formula q j) result choices choices' further further' }
{
    if sets_bound(operator(q, j)) {
        if asks_equal(q, j) {
            return by_list(m, q, counts, truth, choices, further, j, s);
        }
        return by_leader(m, q, counts, truth, choices, j, s);
    }
    let x = plain_truth(m, q, truth, j, s);
    if x == 1 {
        return Explanation::Yes;
    }
    Explanation::NoReason
}

// What is said of a question's root in its start state: a yes, or the reason of a no. The choices of a plan stand from the beginning of `choices` on,
// those of the plan above the bound from the beginning of `further` on.
pub fn explained(
    m: &[u16; MODEL],
    q: &[u8; QUESTION],
    counts: &[u64; COUNTS],
    choices: &mut [u8],
    further: &mut [u8],
) -> Explanation
    requires served { Served m.now q.now × Counted m.now q.now counts.now }
    requires in_bounds { (1365 ≤ length choices.old) × (1365 ≤ length further.old) }
    ensures { let choices' = choices.exit.now in let further' = further.exit.now in let m = m.entry.now in let q = q.entry.now in
        let choices = choices.entry.now in let further = further.entry.now in
        TellsOf (model_in m) (start_of q) (formula q (root q)) result choices choices' further further' }
{
    let truth = root_truth(m, q, counts);
    let j = count(q) - 1;
    at_node(m, q, counts, &truth, choices, further, j, start(q))
}
