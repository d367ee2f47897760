// "equal": the totals of all plans that lie nearest to the bound, on either side, or the first plan that meets it.
ghost use Rattle.std.specs.Prelude.{◌≡◌, ◌≤◌, ◌<◌, length};
ghost use Rattle.logic.specs.Plan as plans;
ghost use Rattle.blocks.specs.Splice.{splice};
ghost use Rattle.models.specs.Layout.{state_count};
ghost use Rattle.prepared_model.specs.promises.Rows.{model_in};
ghost use Rattle.questions.specs.Layout.{node_of};
ghost use Rattle.prepared_question.specs.promises.Nodes.{formula};
ghost use Rattle.bounds.specs.promises.Bounded.{Bounded, most_of};
ghost use Rattle.exact_plan.specs.promises.Sides.{Around};
ghost use Rattle.judging.specs.promises.Asked.{Asked};
ghost use Rattle.judging.specs.promises.Decided.{plan_at, Posed};
ghost use Rattle.logic.specs.Limits.{plan_total};
ghost use Rattle.reasons.specs.promises.Told.{raised_totals, near_reached, side_code, side_choices, Placed, at_bound, shown_code, TellsOf};

use crate::{Between, Explanation, Reached, ShownPlan};
use bounds::{Exact, exact_total, lamp_of, lowered, whole};
use evaluation::TRUTHS;
use exact_plan::Sought;
use exact_plan::nearest::{Near, Neighbours, nearest};
use judging::worths::worth_of;
use limits::{COUNTS, plans_counted};
use plan_choices::ranking::nth;
use prepared_model::MODEL;
use prepared_question::{QUESTION, steps};
use questions::NODES;

// The raised totals of all plans nearest to x, for node j in s.
fn neighbours(
    m: &[u16; MODEL],
    q: &[u8; QUESTION],
    counts: &[u64; COUNTS],
    truth: &[u8; TRUTHS],
    j: u8,
    s: u8,
    x: u64,
) -> Neighbours
    requires { Asked m.now q.now counts.now × Posed m.now q.now truth.now j s × ((node_of q.now j).right ≡ 2) }
    ensures { Around (raised_totals m.now q.now j s) x result }
{
    let mut nodes = [0u8; NODES];
    let w = worth_of(m, q, j, &mut nodes);
    let l = Sought {
        s: s,
        a: w.before,
        d: w.last,
        n: steps(q, j),
    };
    nearest(m, q, truth, &nodes[..w.count], counts, l, x)
}

// Whether some plan meets the bound: the least total that is not below it is the one that does.
fn at_bound(x: Exact, least: Near, all: usize) -> bool
    ensures { result ≡ at_bound x least all }
{
    if !x.whole {
        return false;
    }
    if least.place == all {
        return false;
    }
    least.total == x.total
}

// Writes the choices of the plan at a place, and tells what it reaches; nothing where the place is past the last of `all`.
fn reached(
    m: &[u16; MODEL],
    q: &[u8; QUESTION],
    counts: &[u64; COUNTS],
    choices: &mut [u8],
    j: u8,
    s: u8,
    near: Near,
    all: usize,
) -> Option<Reached>
    requires { Asked m.now q.now counts.now × Bounded m.now q.now j × ((node_of q.now j).right ≡ 2) × (s < state_count m.now)
        × Placed m.now q.now j s all near × (1365 ≤ length choices.old) }
    ensures value { result ≡ side_code (near_reached m.now q.now j s all near) }
    ensures frame { let choices' = choices.exit.now in let choices = choices.entry.now in let m = m.entry.now in let q = q.entry.now in
        choices' ≡ splice choices 0 (side_choices (near_reached m q j s all near)) }
{
    if near.place == all {
        return None;
    }
    let size = nth(m, counts, choices, s, steps(q, j), near.place as u64);
    Some(Reached {
        total: lowered(m, q, j, near.total),
        whole: whole(m, q, j),
        size,
    })
}

// Writes the choices of the plan at a place, which meets the bound, and tells of it.
fn shown(
    m: &[u16; MODEL],
    q: &[u8; QUESTION],
    counts: &[u64; COUNTS],
    choices: &mut [u8],
    j: u8,
    s: u8,
    near: Near,
) -> Explanation
    requires { Asked m.now q.now counts.now × Bounded m.now q.now j × ((node_of q.now j).right ≡ 2) × (s < state_count m.now)
        × (near.place < plan_total (model_in m.now) (node_of q.now j).n s) × (near.total ≤ most_of m.now q.now j)
        × (1365 ≤ length choices.old) }
    ensures value { result ≡ shown_code m.now q.now j s near }
    ensures frame { let choices' = choices.exit.now in let choices = choices.entry.now in let m = m.entry.now in let q = q.entry.now in
        choices' ≡ splice choices 0 (plans.choices (node_of q j).n (plan_at (model_in m) (node_of q j).n s near.place)) }
{
    let size = nth(m, counts, choices, s, steps(q, j), near.place as u64);
    let lamp = lamp_of(m, q, j, near.total);
    Explanation::Shown(ShownPlan {
        total: lowered(m, q, j, near.total),
        whole: whole(m, q, j),
        lamp,
        count: 1 + near.place as u32,
        size,
    })
}

// What is said of node j, "equal", in s. The one list of totals is gone before the choices are written.
pub fn by_list(
    m: &[u16; MODEL],
    q: &[u8; QUESTION],
    counts: &[u64; COUNTS],
    truth: &[u8; TRUTHS],
    choices: &mut [u8],
    further: &mut [u8],
    j: u8,
    s: u8,
) -> Explanation
    requires asked { Asked m.now q.now counts.now × Posed m.now q.now truth.now j s × ((node_of q.now j).right ≡ 2) }
    requires in_bounds { (1365 ≤ length choices.old) × (1365 ≤ length further.old) }
    ensures { let choices' = choices.exit.now in let further' = further.exit.now in let m = m.entry.now in let q = q.entry.now in
        let choices = choices.entry.now in let further = further.entry.now in
        TellsOf (model_in m) s (formula q j) result choices choices' further further' }
{
    let all = plans_counted(counts, steps(q, j), s as usize) as usize;
    let x = exact_total(m, q, j);
    let r = neighbours(m, q, counts, truth, j, s, x.total);
    let above = r.above;
    if at_bound(x, above, all) {
        return shown(m, q, counts, choices, j, s, above);
    }
    let below = reached(m, q, counts, choices, j, s, r.below, all);
    let above = reached(m, q, counts, further, j, s, above, all);
    Explanation::Nearest(Between { below, above })
}
