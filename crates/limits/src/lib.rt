// Grounds 24 and 25: the numbers of paths and plans from each state, counted by recursion over the steps up to a cap above the limit.
#![tactic(auto)]

ghost use Rattle.std.specs.Prelude.{◌≡◌, ℕ, ◌+◌, ◌*◌, ◌<◌, ◌≤◌, Bool, min, true, false, not, ◌||◌, leb, eqb, get_or};
ghost use Rattle.logic.specs.Lists.{every};
ghost use Rattle.refusals.specs.Number.{refusal_number};
ghost use Rattle.logic.specs.promises.Refusal.{refusal};
ghost use Rattle.logic.specs.Model.{outcomes};
ghost use Rattle.logic.specs.Limits.{every_plan, limits};
ghost use Rattle.models.specs.Layout.{state_count, action_count, prop_count};
ghost use Rattle.prepared_model.specs.promises.Rows.{choices_in, choice_in, model_in, Prepared};
ghost use Rattle.questions.specs.Layout.{node_count, node_of, formulas_of, question_of};
ghost use Rattle.questions.specs.promises.Formed.{Compares, sets_bound};
ghost use Rattle.prepared_question.specs.promises.Nodes.{Nodes};
ghost use Rattle.limits.specs.promises.Totals.{gather, step_total, Totals, fits, node_fits};
ghost use Rattle.limits.specs.promises.Counted.{Needed, Serves, Counted};
ghost use Rattle.limits.specs.promises.Totals as spec;

use models::STATES;
use prepared_model::MODEL;
use prepared_question::{QUESTION, asks_equal, operator, steps};
use questions::sets_bound;
use refusals::Refusal;

// The most plans of an "equal" that are served (ground 25).
const MOST_PLANS: u64 = 65536;

// The most paths that are served (ground 24).
const MOST_PATHS: u64 = 1000000;

// The numbers of a table of totals: for 0 to 6 steps, from each of 32 states.
pub const COUNTS: usize = 224;

// Its rows, one for each number of steps.
const ROWS: usize = 7;

// What is counted from each state. `plans` says in the definitions which of the two it is.
trait Kind {
    ghost plans: { Bool };

    // The most that is served.
    fn limit() -> u64
        ensures { result ≡ spec.limit plans };

    // The total of no outcomes.
    fn none() -> u64
        ensures { result ≡ spec.none plans };

    // The totals of two outcomes together.
    fn joined(x: u64, y: u64) -> u64
        requires { (x ≤ 1000001) × (y ≤ 1000001) }
        ensures { result ≡ spec.joined plans x y };

    // Whether a limit is set to node i, which sets a bound on plans.
    fn is_limited(q: &[u8; QUESTION], i: u8) -> bool
        requires { i < 40 }
        ensures { result ≡ (not plans || eqb (node_of q.now i).right 2) };
}

// Paths add up over the outcomes of a choice.
struct Paths;

#[tactic(auto, unfolding(crate::specs::promises::Totals::limit, crate::specs::promises::Totals::none, crate::specs::promises::Totals::joined))]
impl Kind for Paths {
    ghost plans = { false };

    fn limit() -> u64 {
        MOST_PATHS
    }

    fn none() -> u64 {
        0
    }

    fn joined(x: u64, y: u64) -> u64 {
        x + y
    }

    fn is_limited(_q: &[u8; QUESTION], _i: u8) -> bool {
        true
    }
}

// Plans multiply over them, and are counted only where the relation is "equal".
struct Plans;

#[tactic(auto, unfolding(crate::specs::promises::Totals::limit, crate::specs::promises::Totals::none, crate::specs::promises::Totals::joined))]
impl Kind for Plans {
    ghost plans = { true };

    fn limit() -> u64 {
        MOST_PLANS
    }

    fn none() -> u64 {
        1
    }

    fn joined(x: u64, y: u64) -> u64 {
        x * y
    }

    fn is_limited(q: &[u8; QUESTION], i: u8) -> bool {
        asks_equal(q, i)
    }
}

// x, counted up to the cap.
fn capped<K: Kind>(x: u64) -> u64
    ensures { result ≡ min (spec.cap K.plans) x }
{
    x.min(K::limit() + 1)
}

// The total below choice i, from the totals of the states that stand in the table from `at` on.
fn choice_total<K: Kind>(
    m: &[u16; MODEL],
    table: &[u64; COUNTS],
    at: usize,
    s: usize,
    i: usize,
) -> u64
    requires prepared { Prepared m.now × (at + 32 ≤ 224) × (s < state_count m.now) × (i < choices_in m.now s) }
    requires by_index { (k : ℕ) → get_or table.now k 0 ≤ spec.cap K.plans }
    ensures { let table = table.entry.now in let m = m.entry.now in
        result ≡ min (spec.cap K.plans) (gather K.plans (λ o. get_or table (at + o.target) 0) (outcomes (model_in m) s (choice_in m s i))) }
{
    let mut total = K::none();
    for o in 0..prepared_model::outcomes(m, s, i) {
        let t = prepared_model::target(m, s, i, o);
        total = capped::<K>(K::joined(total, table[at + t]));
    }
    total
}

// The total of a state, from those of the states after a step.
fn state_total<K: Kind>(m: &[u16; MODEL], table: &[u64; COUNTS], at: usize, s: usize) -> u64
    requires prepared { Prepared m.now × (at + 32 ≤ 224) × (s < state_count m.now) }
    requires by_index { (k : ℕ) → get_or table.now k 0 ≤ spec.cap K.plans }
    ensures { let m = m.entry.now in let table = table.entry.now in
        result ≡ min (spec.cap K.plans) (step_total K.plans (model_in m) (λ t. get_or table (at + t) 0) s) }
{
    let mut total: u64 = 0;
    for i in 0..prepared_model::choices(m, s) {
        total = capped::<K>(total + choice_total::<K>(m, table, at, s, i));
    }
    total
}

// The totals of fewer than `rows` steps from each state: those of k / 32 steps from the state k % 32 stand at k. Rows that nobody asks for are not
// counted.
fn totals<K: Kind>(m: &[u16; MODEL], rows: usize) -> [u64; COUNTS]
    requires { Prepared m.now × (rows ≤ 7) }
    ensures { Totals K.plans (model_in m.now) rows result }
{
    let states = prepared_model::states(m);
    let mut table = [1u64; COUNTS];
    for k in STATES..STATES * rows {
        if k % STATES < states {
            table[k] = state_total::<K>(m, &table, STATES * (k / STATES - 1), k % STATES);
        }
    }
    table
}

// How many plans of n steps there are from s, by that table.
pub fn plans_counted(counts: &[u64; COUNTS], n: u8, s: usize) -> u64
    requires { (n ≤ 6) × (s < 32) }
    ensures { result ≡ get_or counts.now (32 * n + s) 0 }
{
    counts[STATES * usize::from(n) + s]
}

// Whether the totals of n steps are within the limit, for each of the first states.
fn row_fits<K: Kind>(table: &[u64; COUNTS], n: usize, states: usize) -> bool
    requires { (n ≤ 6) × (states ≤ 32) }
    ensures { result ≡ every states (λ s. leb (get_or table.now (32 * n + s) 0) (spec.limit K.plans)) }
{
    let most = K::limit();
    let row = STATES * n;
    table[row..row + states].iter().all(|total| *total <= most)
}

// Whether a limit is set to node i: it sets a bound on plans, and where plans are counted its relation is "equal".
#[tactic(auto, unfolding(crate::specs::promises::Totals::bounded))]
fn bounded<K: Kind>(q: &[u8; QUESTION], i: u8) -> bool
    requires { i < 40 }
    ensures { result ≡ spec.bounded K.plans (node_of q.now i) }
{
    sets_bound(operator(q, i)) && K::is_limited(q, i)
}

// The rows of a table that node i needs: up to its steps, or none where no limit is set to it.
fn node_rows<K: Kind>(q: &[u8; QUESTION], i: u8) -> usize
    requires { i < 40 }
    ensures { let x = node_of q.now i in
        (spec.bounded K.plans x ≡ true → result ≡ x.n + 1) × (spec.bounded K.plans x ≡ false → result ≡ 0) }
{
    if bounded::<K>(q, i) {
        return usize::from(steps(q, i)) + 1;
    }
    0
}

// The rows that all nodes need.
fn rows_needed<K: Kind>(q: &[u8; QUESTION]) -> usize
    requires { ((i : ℕ) → i < node_count q.now → sets_bound (node_of q.now i).operator ≡ true → Compares (node_of q.now i)) × (node_count q.now ≤ 40) }
    ensures { Needed K.plans q.now (node_count q.now) result }
{
    let mut rows: usize = 0;
    for i in 0..prepared_question::count(q) {
        rows = rows.max(node_rows::<K>(q, i));
    }
    rows
}

// The numbers of plans, for those who count them: where no limit is set to any node, nobody does.
pub fn plan_totals(m: &[u16; MODEL], q: &[u8; QUESTION]) -> [u64; COUNTS]
    requires { Prepared m.now × Nodes (state_count m.now) (action_count m.now) (prop_count m.now) q.now }
    ensures { Counted m.now q.now result }
{
    if rows_needed::<Plans>(q) == 0 {
        return totals::<Plans>(m, 0);
    }
    totals::<Plans>(m, ROWS)
}

fn node_fits<K: Kind>(m: &[u16; MODEL], q: &[u8; QUESTION], table: &[u64; COUNTS], i: u8) -> bool
    requires { Prepared m.now × (spec.bounded K.plans (node_of q.now i) ≡ true → Totals K.plans (model_in m.now) ((node_of q.now i).n + 1) table.now)
        × (i < 40) × (sets_bound (node_of q.now i).operator ≡ true → Compares (node_of q.now i)) }
    ensures { result ≡ node_fits K.plans (model_in m.now) (node_of q.now i) }
{
    if !bounded::<K>(q, i) {
        return true;
    }
    row_fits::<K>(table, usize::from(steps(q, i)), prepared_model::states(m))
}

// All nodes are checked. Each was used in the question that was put (ground 13); those that preparing leaves over are "and" nodes, which set no
// bound.
fn nodes_fit<K: Kind>(m: &[u16; MODEL], q: &[u8; QUESTION], table: &[u64; COUNTS]) -> bool
    requires { Prepared m.now × Nodes (state_count m.now) (action_count m.now) (prop_count m.now) q.now
        × Serves K.plans m.now q.now table.now }
    ensures { let m = m.entry.now in let q = q.entry.now in
        result ≡ every_plan (fits K.plans (model_in m)) (model_in m) (formulas_of q) }
{
    // No `all`: the contract that is inferred for its closure hides, under a type parameter, what `node_fits` requires.
    for i in 0..prepared_question::count(q) {
        if !node_fits::<K>(m, q, table, i) {
            return false;
        }
    }
    true
}

// The test of ground 24: no node that sets a bound on plans has too many paths.
pub fn paths_fit(m: &[u16; MODEL], q: &[u8; QUESTION]) -> bool
    requires { Prepared m.now × Nodes (state_count m.now) (action_count m.now) (prop_count m.now) q.now }
    ensures { let m = m.entry.now in let q = q.entry.now in
        result ≡ every_plan (fits false (model_in m)) (model_in m) (formulas_of q) }
{
    let table = totals::<Paths>(m, rows_needed::<Paths>(q));
    nodes_fit::<Paths>(m, q, &table)
}

// The test of ground 25: no such node whose relation is "equal" has too many plans.
pub fn plans_fit(m: &[u16; MODEL], q: &[u8; QUESTION], counts: &[u64; COUNTS]) -> bool
    requires prepared { Prepared m.now × Nodes (state_count m.now) (action_count m.now) (prop_count m.now) q.now }
    requires counted { Counted m.now q.now counts.now }
    ensures { let m = m.entry.now in let q = q.entry.now in
        result ≡ every_plan (fits true (model_in m)) (model_in m) (formulas_of q) }
{
    nodes_fit::<Plans>(m, q, counts)
}

// The ground, 24 or 25, on which a prepared question is not judged on a prepared model; `Ok` where there is none. The plans are counted by the caller,
// who judges with the same table.
pub fn accept_limits(
    m: &[u16; MODEL],
    q: &[u8; QUESTION],
    counts: &[u64; COUNTS],
) -> Result<(), Refusal>
    requires prepared { Prepared m.now × Nodes (state_count m.now) (action_count m.now) (prop_count m.now) q.now }
    requires counted { Counted m.now q.now counts.now }
    ensures { refusal_number result ≡ refusal (limits (model_in m.now) (question_of q.now).nodes) }
{
    if !paths_fit(m, q) {
        return Err(Refusal::TooManyPaths);
    }
    if !plans_fit(m, q, counts) {
        return Err(Refusal::TooManyPlans);
    }
    Ok(())
}
