// Judging an accepted question on an accepted model: the truth of the nodes from the first to the last, where it matters, and the verdict
// on the root.
#![tactic(auto)]

ghost use Rattle.std.specs.Prelude.{◌≡◌, ◌*◌, ◌^◌, ◌≤◌, ◌<◌, true, cond, length};
ghost use Rattle.std.proofs.Math.Option.{none};
ghost use Rattle.logic.specs.Formula as formulas;
ghost use Rattle.logic.specs.Verdict.{verdict};
ghost use Rattle.models.specs.Layout.{state_count};
ghost use Rattle.prepared_model.specs.promises.Rows.{model_in};
ghost use Rattle.questions.specs.Layout.{start_of, node_count, node_of};
ghost use Rattle.prepared_question.specs.promises.Nodes.{formula};
ghost use Rattle.relevance.specs.promises.Need.{Given};
ghost use Rattle.judging.specs.promises.Asked.{Asked, Served};
ghost use Rattle.judging.specs.promises.Truth.{Supplied};
ghost use Rattle.judging.specs.promises.Decided.{Posed, Decided};
ghost use Rattle.questions.specs.promises.Formed.{sets_bound};
ghost use Rattle.lamp.specs.promises.Codes.{optional_code};
ghost use Rattle.limits.specs.promises.Counted.{Counted};
ghost use Rattle.bounds.specs.promises.Bounded.{Bounded, most_of};
ghost use Rattle.judging.specs.declared.Verdict.TheVariants.{No, Yes, YesPlan};
ghost use Rattle.judging.specs.promises.Announced.{root, root_verdict, no_lamp, Announces, Sums, Spelled, Weighs};

mod conditions;
pub mod plans;
pub mod truth;
pub mod worths;

use crate::plans::{Decision, decide};
use crate::truth::{plain_truth, truth_table};
use crate::worths::worth_of;
use best_plan::STACK;
use bounds::{lamp_of, lowered, meets};
use evaluation::TRUTHS;
use lamp::Lamp;
use limits::COUNTS;
use plan_choices::extending::extend;
use plan_choices::ranking::nth;
use plan_choices::weighing::plan_weight;
use prepared_model::{MODEL, STAGES};
use prepared_question::{QUESTION, asks_equal, count, operator, start, steps};
use questions::{NODES, sets_bound};
use relevance::needed;

// The numbers of a table of best totals: by condition and state, the greatest and the least. Each is one more than the total, and 0 where none is
// known yet: as an Option<u64> it would take twice the memory, 20 KiB more of the stack.
const BESTS: usize = 2560;

// What goes with a no: for "equal" the number of all plans, else 0; for "less" and "greater" how the least or greatest total compares with the bound.
#[derive(Clone, Copy)]
pub struct Denial {
    pub count: u32,
    pub lamp: Option<Lamp>,
}

// The record of a shown plan: its total (W, or the expected gain times D to the n), how that compares with the bound, its steps, and its place in
// dictionary order for "equal", else 0.
#[derive(Clone, Copy)]
pub struct PlanRecord {
    pub total: i64,
    pub lamp: Lamp,
    pub steps: u32,
    pub count: u32,
}

// No, yes to a root that sets no bound on plans, or yes with a shown plan.
#[derive(Clone, Copy)]
pub enum Verdict {
    No(Denial),
    Yes,
    YesPlan(PlanRecord),
}

// The verdict on a root that sets no bound on plans.
fn plain(yes: bool) -> Verdict
    ensures { result ≡ cond yes Yes (No (record { count = 0; lamp = optional_code none })) }
{
    if yes {
        return Verdict::Yes;
    }
    Verdict::No(Denial {
        count: 0,
        lamp: None,
    })
}

// The verdict with a plan.
fn with_plan(total: i64, lamp: Lamp, steps: u8, count: u32) -> Verdict
    ensures { result ≡ YesPlan (record { total = total; lamp = lamp; steps = steps; count = count }) }
{
    Verdict::YesPlan(PlanRecord {
        total,
        lamp,
        steps: steps as u32,
        count,
    })
}

// The verdict where node j, which sets a bound on plans, is not true.
fn deny(m: &[u16; MODEL], q: &[u8; QUESTION], j: u8, r: Decision) -> Verdict
    requires bounded { Bounded m.now q.now j × (r.place ≤ 65536) }
    requires raised_bound { ((node_of q.now j).right ≡ 2 → ⊥) → r.raised ≤ most_of m.now q.now j }
    ensures { let m = m.entry.now in let q = q.entry.now in
        result ≡ No (record { count = r.place; lamp = optional_code (no_lamp m q j r.raised) }) }
{
    let count = r.place as u32;
    if asks_equal(q, j) {
        return Verdict::No(Denial { count, lamp: None });
    }
    let best = lamp_of(m, q, j, r.raised);
    Verdict::No(Denial {
        count,
        lamp: Some(best),
    })
}

// The truth of state formulas on which the root in the start state can depend.
pub fn root_truth(m: &[u16; MODEL], q: &[u8; QUESTION], counts: &[u64; COUNTS]) -> [u8; TRUTHS]
    requires { Asked m.now q.now counts.now }
    ensures { Supplied m.now q.now result (root q.now) (start_of q.now) }
{
    let need = needed(m, q);
    truth_table(m, q, counts, &need)
}

// Writes the choices of the plan that a search found for node j in s, and tells of it.
fn show(
    m: &[u16; MODEL],
    q: &[u8; QUESTION],
    counts: &[u64; COUNTS],
    scratch: &[u8],
    places: &[u8; STAGES],
    choices: &mut [u8],
    j: u8,
    s: u8,
    r: Decision,
) -> Verdict
    requires asked { Asked m.now q.now counts.now × Bounded m.now q.now j × Decided m.now q.now j s scratch.now places.now r
        × (r.met ≡ true) }
    requires s_bound { (s < state_count m.now) × (1365 ≤ length choices.old) }
    ensures { let choices' = choices.exit.now in let m = m.entry.now in let q = q.entry.now in let choices = choices.entry.now in
        Announces (verdict (model_in m) s (formula q j)) result choices choices' }
{
    let n = steps(q, j);
    let total = lowered(m, q, j, r.raised);
    let lamp = lamp_of(m, q, j, r.raised);
    let place = r.place;
    if asks_equal(q, j) {
        nth(m, counts, choices, s, n, place as u64);
        return with_plan(total, lamp, n, 1 + place as u32);
    }
    let d = r.given as usize;
    extend(m, places, scratch, choices, s as usize, d, n as usize);
    with_plan(total, lamp, n, 0)
}

// The verdict on node j, a state formula, in s.
fn at_node(
    m: &[u16; MODEL],
    q: &[u8; QUESTION],
    counts: &[u64; COUNTS],
    truth: &[u8; TRUTHS],
    choices: &mut [u8],
    j: u8,
    s: u8,
) -> Verdict
    requires asked { Asked m.now q.now counts.now × (j < node_count q.now) × (s < state_count m.now) }
    requires supplied { Supplied m.now q.now truth.now j s × (formulas.depth (formula q.now j) ≡ 0) × (1365 ≤ length choices.old) }
    ensures { let choices' = choices.exit.now in let m = m.entry.now in let q = q.entry.now in let choices = choices.entry.now in
        Announces (verdict (model_in m) s (formula q j)) result choices choices' }
{
    if sets_bound(operator(q, j)) {
        let mut scratch = [0u8; STACK];
        let mut places = [0u8; STAGES];
        let r = decide(m, q, counts, truth, &mut scratch, &mut places, j, s);
        if r.met {
            return show(m, q, counts, &scratch, &places, choices, j, s, r);
        }
        return deny(m, q, j, r);
    }
    let x = plain_truth(m, q, truth, j, s);
    plain(x == 1)
}

// Judges a question: the verdict on its root in its start state, and the choices of a shown plan from the beginning of `choices` on.
pub fn judged(
    m: &[u16; MODEL],
    q: &[u8; QUESTION],
    counts: &[u64; COUNTS],
    choices: &mut [u8],
) -> Verdict
    requires served { Served m.now q.now × Counted m.now q.now counts.now }
    requires in_bounds { 1365 ≤ length choices.old }
    ensures { let choices' = choices.exit.now in let m = m.entry.now in let q = q.entry.now in let choices = choices.entry.now in
        Announces (root_verdict (model_in m) q) result choices choices' }
{
    let truth = root_truth(m, q, counts);
    let j = count(q) - 1;
    at_node(m, q, counts, &truth, choices, j, start(q))
}

// The raised total of the plan with these choices, by the tables.
fn root_total(m: &[u16; MODEL], q: &[u8; QUESTION], truth: &[u8; TRUTHS], choices: &[u8]) -> u64
    requires given { Given m.now q.now }
    requires posed { Posed m.now q.now truth.now (root q.now) (start_of q.now) }
    ensures value { Sums m.now q.now choices.now result }
    ensures range { result ≤ 12000 * 100 ^ 6 }
{
    let j = count(q) - 1;
    let mut nodes = [0u8; NODES];
    let w = worth_of(m, q, j, &mut nodes);
    plan_weight(
        m,
        q,
        truth,
        &nodes[..w.count],
        choices,
        start(q),
        w.before,
        w.last,
        steps(q, j),
    )
}

// The total of a plan for the root, whether it meets the root's bound, and its lamp.
#[derive(Clone, Copy)]
pub struct Weighed {
    pub total: i64,
    pub met: bool,
    pub lamp: Lamp,
}

// The total of the plan with these choices, for the root, which sets a bound on plans, whether it meets the bound, and its lamp.
pub fn sheet_total(
    m: &[u16; MODEL],
    q: &[u8; QUESTION],
    counts: &[u64; COUNTS],
    choices: &[u8],
) -> Weighed
    requires served { Served m.now q.now × Counted m.now q.now counts.now × (sets_bound (node_of q.now (root q.now)).operator ≡ true) }
    requires spelled { Spelled (model_in m.now) q.now choices.now }
    ensures { Weighs (model_in m.now) q.now choices.now result }
{
    let truth = root_truth(m, q, counts);
    let x = root_total(m, q, &truth, choices);
    let j = count(q) - 1;
    Weighed {
        total: lowered(m, q, j, x),
        met: meets(m, q, j, x),
        lamp: lamp_of(m, q, j, x),
    }
}
