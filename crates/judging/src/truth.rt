// The truth of state formulas, from the first node to the last, where the verdict can depend on it.
ghost use Rattle.std.specs.Prelude.{◌≡◌, ◌+◌, ◌*◌, ◌-◌, ◌/◌, ◌%◌, ◌<◌, ◌≤◌, [], get_or, length, false};
ghost use Rattle.logic.specs.Formula.{depth};
ghost use Rattle.logic.specs.promises.Total.{value_of};
ghost use Rattle.models.specs.Layout.{state_count};
ghost use Rattle.prepared_model.specs.promises.Rows.{model_in};
ghost use Rattle.questions.specs.Layout as question;
ghost use Rattle.prepared_question.specs.promises.Nodes.{formula};
ghost use Rattle.relevance.specs.promises.Need.{Given, Needs};
ghost use Rattle.judging.specs.promises.Asked.{Asked};
ghost use Rattle.questions.specs.promises.Formed.{sets_bound};
ghost use Rattle.judging.specs.promises.Truth.{Supplied, Right};
ghost use Rattle.judging.specs.promises.Rows.{ByState, ByTable, Rows, RowTold};
ghost use Rattle.judging.specs.promises.Conditions.{Remembers};

use crate::BESTS;
use crate::plans::plan_true;
use crate::worths::window;
use best_gain::best_gains;
use best_plan::STACK;
use bounds::meets;
use evaluation::{TRUTHS, bit};
use limits::COUNTS;
use models::STATES;
use prepared_model::{MODEL, STAGES, holds, states};
use prepared_question::{QUESTION, asks_equal, asks_less, count, left, operator, right, steps};
use questions::operators::Operator;
use questions::sets_bound;
use relevance::place;

// The truth of node j in s, as it was found.
fn found(truth: &[u8; TRUTHS], j: u8, s: u8) -> u8
    requires { (j < 40) × (s < 32) }
    ensures { result ≡ get_or truth.now (32 * j + s) 0 }
{
    truth[STATES * j as usize + s as usize]
}

// The truth of node j, which sets no bound on plans, in s, from that of its children; of a path formula, nothing is said.
pub fn plain_truth(m: &[u16; MODEL], q: &[u8; QUESTION], truth: &[u8; TRUTHS], j: u8, s: u8) -> u8
    requires given { Given m.now q.now × (j < question.node_count q.now) × (s < state_count m.now) }
    requires supplied { Supplied m.now q.now truth.now j s × (sets_bound (question.node_of q.now j).operator ≡ false) }
    ensures { let q = q.entry.now in let m = m.entry.now in
        (depth (formula q j) ≡ 0 → result ≡ value_of (model_in m) (formula q j) s []) }
{
    let Ok(operator) = Operator::try_from(operator(q, j)) else {
        return 0;
    };
    match operator {
        Operator::Prop => bit(holds(m, s as usize, left(q, j))),
        Operator::Not => bit(found(truth, left(q, j), s) == 0),
        Operator::And => found(truth, left(q, j), s) & found(truth, right(q, j), s),
        _ => 0,
    }
}

// The truth of node j in s.
fn truth_at(
    m: &[u16; MODEL],
    q: &[u8; QUESTION],
    counts: &[u64; COUNTS],
    truth: &[u8; TRUTHS],
    scratch: &mut [u8],
    memo: &mut [u64; BESTS],
    j: u8,
    s: u8,
) -> u8
    requires asked { Asked m.now q.now counts.now × (j < question.node_count q.now) × (s < state_count m.now) }
    requires supplied { Supplied m.now q.now truth.now j s × (4095 ≤ length scratch.old) × Remembers m.now q.now memo.old
        × ByState q.now j }
    ensures value { let q = q.entry.now in let m = m.entry.now in
        (depth (formula q j) ≡ 0 → result ≡ value_of (model_in m) (formula q j) s []) }
    ensures frame { Remembers m.now q.now memo.new }
{
    if sets_bound(operator(q, j)) {
        return bit(plan_true(m, q, counts, truth, scratch, memo, j, s));
    }
    plain_truth(m, q, truth, j, s)
}

// The truth at a place of the table, if it is needed.
fn truth_if(
    m: &[u16; MODEL],
    q: &[u8; QUESTION],
    counts: &[u64; COUNTS],
    need: &[u8; TRUTHS],
    truth: &[u8; TRUTHS],
    scratch: &mut [u8],
    memo: &mut [u64; BESTS],
    k: usize,
) -> u8
    requires asked { Asked m.now q.now counts.now × (k < 32 * question.node_count q.now) }
    requires needs { Needs m.now q.now need.now × Right m.now q.now need.now truth.now k × (4095 ≤ length scratch.old)
        × Remembers m.now q.now memo.old × ByState q.now (k / 32) }
    ensures value { let need = need.entry.now in let q = q.entry.now in let m = m.entry.now in
        (get_or need k 0 ≡ 1 → depth (formula q (k / 32)) ≡ 0 → result ≡ value_of (model_in m) (formula q (k / 32)) (k % 32) []) }
    ensures frame { Remembers m.now q.now memo.new }
{
    if need[k] != 1 {
        return 0;
    }
    truth_at(
        m,
        q,
        counts,
        truth,
        scratch,
        memo,
        (k / 32) as u8,
        (k % 32) as u8,
    )
}

// The truth of node j state by state, where it is needed.
fn by_state(
    m: &[u16; MODEL],
    q: &[u8; QUESTION],
    counts: &[u64; COUNTS],
    need: &[u8; TRUTHS],
    truth: &mut [u8; TRUTHS],
    scratch: &mut [u8],
    memo: &mut [u64; BESTS],
    j: u8,
)
    requires asked { Asked m.now q.now counts.now × (j < question.node_count q.now) × ByState q.now j }
    requires rows { Rows m.now q.now need.now truth.old scratch.old memo.old j }
    ensures { Rows m.now q.now need.now truth.new scratch.new memo.new (j + 1) }
{
    let row = place(j, 0);
    for k in row..row + STATES {
        let x = truth_if(m, q, counts, need, truth, scratch, memo, k);
        truth[k] = x;
    }
}

// The truth of node j, of operator 9 with "less" or "greater", in all states: one table decides.
fn by_table(m: &[u16; MODEL], q: &[u8; QUESTION], truth: &mut [u8; TRUTHS], j: u8)
    requires { Given m.now q.now × (j < question.node_count q.now) × ByTable q.now j × (length truth.old ≡ 1280) }
    ensures { RowTold m.now q.now j truth.old truth.new (state_count m.now) }
{
    let mut places = [0u8; STAGES];
    let best = best_gains(m, window(m, q, j), asks_less(q, j), &mut places);
    let at = STATES * steps(q, j) as usize;
    let count = states(m);
    for s in 0..count {
        truth[STATES * j as usize + s] = bit(meets(m, q, j, best[at + s]));
    }
}

// The truth of node j: in all states by one table, or where it is needed.
fn node_truth(
    m: &[u16; MODEL],
    q: &[u8; QUESTION],
    counts: &[u64; COUNTS],
    need: &[u8; TRUTHS],
    truth: &mut [u8; TRUTHS],
    scratch: &mut [u8],
    memo: &mut [u64; BESTS],
    j: u8,
)
    requires asked { Asked m.now q.now counts.now × (j < question.node_count q.now) }
    requires rows { Rows m.now q.now need.now truth.old scratch.old memo.old j }
    ensures { Rows m.now q.now need.now truth.new scratch.new memo.new (j + 1) }
{
    if operator(q, j) == Operator::Earns as u8 {
        if !asks_equal(q, j) {
            by_table(m, q, truth, j);
            return;
        }
    }
    by_state(m, q, counts, need, truth, scratch, memo, j);
}

// The truth of all nodes before the root, where it is needed.
pub fn truth_table(
    m: &[u16; MODEL],
    q: &[u8; QUESTION],
    counts: &[u64; COUNTS],
    need: &[u8; TRUTHS],
) -> [u8; TRUTHS]
    requires { Asked m.now q.now counts.now × Needs m.now q.now need.now }
    ensures { let m = m.entry.now in let q = q.entry.now in let need = need.entry.now in
        Right m q need result (32 * (question.node_count q - 1)) }
{
    let end = count(q) - 1;
    let mut scratch = [0u8; STACK];
    let mut memo = [0u64; BESTS];
    let mut truth = [0u8; TRUTHS];
    for j in 0..end {
        node_truth(m, q, counts, need, &mut truth, &mut scratch, &mut memo, j);
    }
    truth
}
