// What is made ready before anything is judged: which nodes matter in which states, and the nodes of a condition in the order in which
// their values are made.
#![tactic(auto)]

ghost use Rattle.std.specs.Prelude.{◌≡◌, ◌+◌, ◌*◌, ◌/◌, ◌%◌, ℕ, ◌<◌, ◌≤◌, get_or, set, length, take};
ghost use Rattle.models.specs.Layout.{state_count};
ghost use Rattle.prepared_model.specs.promises.Rows.{choices_in, outcomes_in, step_in, Offers, Prepared};
ghost use Rattle.questions.specs.Layout as question;
ghost use Rattle.evaluation.specs.promises.Reached.{Cone, root_of};
ghost use Rattle.prepared_question.specs.promises.Marks.{Grown};
ghost use Rattle.relevance.specs.promises.Need.{Given, Marked, PassedOn, Needs, Below};
ghost use Rattle.relevance.specs.promises.Chosen.{Asked, Entered, Chosen, Listed};

use blocks::buffers::store;
use blocks::byte;
use evaluation::TRUTHS;
use models::STATES;
use prepared_model::{MODEL, choices, outcomes, target};
use prepared_question::{QUESTION, count, depth, left, operator, right, start};
use questions::NODES;
use questions::operators::Operator;

// ---- what the verdict can depend on

// Where a node and a state stand in a table.
pub fn place(j: u8, s: u8) -> usize
    ensures { result ≡ 32 * j + s }
{
    STATES * usize::from(j) + usize::from(s)
}

fn mark(need: &mut [u8], j: u8, s: u8)
    ensures { need.new ≡ set need.old (32 * j + s) 1 }
{
    store(need, place(j, s), 1);
}

// Marks the child of "next" in the targets of the outcomes of choice i.
fn mark_outcomes(m: &[u16; MODEL], need: &mut [u8; TRUTHS], child: u8, s: u8, i: usize)
    requires prepared { Prepared m.now × (child < 40) }
    requires s_bound { (s < state_count m.now) × (i < choices_in m.now s) }
    ensures { let need' = need.exit.now in let m = m.entry.now in let need = need.entry.now in
        Grown (Below (state_count m) (32 * child + 32)) need need'
        × ((o : ℕ) → o < outcomes_in m s i → Marked need' child (step_in m s i o).target) }
{
    for o in 0..outcomes(m, usize::from(s), i) {
        mark(need, child, target(m, usize::from(s), i, o) as u8);
    }
}

// Marks the child of "next" wherever a step from s can lead.
fn mark_next(m: &[u16; MODEL], need: &mut [u8; TRUTHS], child: u8, s: u8)
    requires { Prepared m.now × (child < 40) × (s < state_count m.now) }
    ensures { let need' = need.exit.now in let m = m.entry.now in let need = need.entry.now in
        Grown (Below (state_count m) (32 * child + 32)) need need'
        × ((i o : ℕ) → Offers m s i o → Marked need' child (step_in m s i o).target) }
{
    for i in 0..choices(m, usize::from(s)) {
        mark_outcomes(m, need, child, s, i);
    }
}

// If the pair at a place of the table is marked, marks the pairs on which it depends directly.
fn pass_on(m: &[u16; MODEL], q: &[u8; QUESTION], need: &mut [u8; TRUTHS], k: usize)
    requires given { Given m.now q.now × (k < 32 * question.node_count q.now) }
    requires k_bound { get_or need.old k 0 ≡ 1 → k % 32 < state_count m.now }
    ensures { let need' = need.exit.now in let m = m.entry.now in let need = need.entry.now in let q = q.entry.now in
        Grown (Below (state_count m) (32 * (k / 32))) need need' × (get_or need k 0 ≡ 1 → PassedOn m q need' (k / 32) (k % 32)) }
{
    if byte(need, k) != 1 {
        return;
    }
    let j = (k / STATES) as u8;
    let s = (k % STATES) as u8;
    let Ok(operator) = Operator::try_from(operator(q, j)) else {
        return;
    };
    match operator {
        Operator::Not | Operator::Plan => mark(need, left(q, j), s),
        Operator::And => {
            mark(need, left(q, j), s);
            mark(need, right(q, j), s);
        }
        Operator::Next => mark_next(m, need, left(q, j), s),
        _ => {}
    }
}

// Marks from the root in the start state downwards: children have smaller numbers.
pub fn needed(m: &[u16; MODEL], q: &[u8; QUESTION]) -> [u8; TRUTHS]
    requires { Given m.now q.now }
    ensures { Needs m.now q.now result }
{
    let mut need = [0u8; TRUTHS];
    let root = count(q) - 1;
    let first = place(root, start(q));
    need[first] = 1;
    for k in (0..place(root, 0) + STATES).rev() {
        pass_on(m, q, &mut need, k);
    }
    need
}

// ---- the nodes of a condition

// Marks the children of node j, if it is marked and no state formula.
fn enter(q: &[u8; QUESTION], marks: &mut [u8; NODES], j: u8)
    requires { Asked q.now × (j < question.node_count q.now) }
    ensures { let marks' = marks.exit.now in let marks = marks.entry.now in let q = q.entry.now in
        Grown (Below 32 j) marks marks' × (get_or marks j 0 ≡ 1 → Entered q marks' j) }
{
    if byte(marks, usize::from(j)) != 1 {
        return;
    }
    if depth(q, j) == 0 {
        return;
    }
    let Ok(operator) = Operator::try_from(operator(q, j)) else {
        return;
    };
    match operator {
        Operator::Not | Operator::Next => store(marks, usize::from(left(q, j)), 1),
        Operator::And => {
            store(marks, usize::from(left(q, j)), 1);
            store(marks, usize::from(right(q, j)), 1);
        }
        _ => {}
    }
}

// Marks from the condition c downwards. Not `0..=c`, which ends with no next place for the invariant to name.
fn chosen(q: &[u8; QUESTION], c: u8) -> [u8; NODES]
    requires { Asked q.now × (c < question.node_count q.now) }
    ensures { Chosen q.now c result }
{
    let mut marks = [0u8; NODES];
    let top = usize::from(c);
    marks[top] = 1;
    for j in (0..c + 1).rev() {
        enter(q, &mut marks, j);
    }
    marks
}

// Lists node i after the first n places, if it is marked; gives the number of places listed.
fn list_node(marks: &[u8; NODES], out: &mut [u8], i: u8, n: usize) -> usize
    requires { Listed marks.now i n out.old × (i < 40) × (length out.old ≡ 40) }
    ensures { Listed marks.now (i + 1) result out.new }
{
    if byte(marks, usize::from(i)) == 1 {
        store(out, n, i);
        return n + 1;
    }
    n
}

// The nodes of the condition c, children before parents; gives their number.
pub fn cone(q: &[u8; QUESTION], c: u8, out: &mut [u8]) -> usize
    requires { Asked q.now × (c < question.node_count q.now) × (length out.old ≡ 40) }
    ensures { let nodes = take result out.new in
        (result ≤ 40) × Cone q.now nodes × (root_of nodes ≡ c) × (0 < length nodes) }
{
    let marks = chosen(q, c);
    let mut n: usize = 0;
    for i in 0..c + 1 {
        n = list_node(&marks, out, i, n);
    }
    n
}
