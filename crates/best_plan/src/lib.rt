// The search for the plan of greatest or of least weight: one pass over the tree of paths, which meets each path at most once: a choice that
// cannot win any more is given up. The last step of the paths through a state is taken for all its outcomes at once.
#![tactic(auto)]

ghost use Rattle.std.specs.Prelude.{◌≡◌, not, ◌++◌, ◌+◌, ◌*◌, ◌<◌, ◌≤◌, ◌^◌, length, take, drop};
ghost use Rattle.logic.specs.Formula.{depth};
ghost use Rattle.models.specs.Layout.{state_count, denominator_of};
ghost use Rattle.prepared_model.specs.promises.Rows.{choices_in, row_in, Prepared};
ghost use Rattle.prepared_question.specs.promises.Nodes.{formula};
ghost use Rattle.logic.specs.promises.MostChoices.{most_choices};
ghost use Rattle.evaluation.specs.promises.Learnt as learnt;
ghost use Rattle.evaluation.specs.promises.Reached.{root_of, on_path, Ready};
ghost use Rattle.evaluation.specs.promises.Known.{Back};
ghost use Rattle.best_plan.specs.promises.Greatest.{Finds, best_left};
ghost use Rattle.best_plan.specs.promises.Buffers.{Keeps, Setting, Picked, Candidate, Ends};
ghost use Rattle.best_plan.specs.promises.Buffers as spec;

use bounds::{exceeds, power};
use evaluation::{PLACES, Place, STEPS, TRUTHS, VALUES, known, learn, step};
use last_step::lanes::total;
use last_step::late::late;
use last_step::masks::mask;
use prepared_model::{MODEL, choice, denominator, outcomes, weight};
use prepared_question::QUESTION;
use questions::NODES;

// The bytes of a search's stack of choices: at each step the best plan's and the candidate's, which are at most three times a plan's.
pub const STACK: usize = 4095;

// Where a search stands: h steps led from the start to the state s, and k are left; choices are written from `at` on. And whether the least
// total is looked for.
#[derive(Clone, Copy)]
pub struct Spot {
    start: u8,
    h: u8,
    s: u8,
    k: u8,
    at: usize,
    least: bool,
}

// What was found: the best plan's total, and the number of its choices.
#[derive(Clone, Copy)]
pub struct Found {
    pub value: u64,
    pub count: usize,
}

// What a walk came to: the total of plans, and where their choices end.
#[derive(Clone, Copy)]
pub struct Walked {
    value: u64,
    end: usize,
}

// Whether a choice can no longer win over the best so far: `sum` is the total of its outcomes walked so far, `rest` the weight of those left.
fn hopeless(m: &[u16; MODEL], best: Option<Walked>, sum: u64, rest: u64, k: u8, least: bool) -> bool
    requires { (denominator_of m.now ≤ 100) × (k ≤ 6) × (sum + rest * denominator_of m.now ^ k < 2 ^ 64) }
    ensures { let m = m.entry.now in
        result ≡ not (spec.wins best (best_left least (denominator_of m) k sum rest) least) }
{
    let Some(b) = best else {
        return false;
    };
    if least {
        return !exceeds(sum, b.value, least);
    }
    let most = sum + rest * power(denominator(m), k);
    !exceeds(most, b.value, least)
}

// Where the choices of the best so far end, and the candidate's begin.
fn end_of(best: Option<Walked>, at: usize) -> usize
    ensures { result ≡ spec.end_of at best }
{
    match best {
        Some(b) => b.end,
        None => at,
    }
}

// Keeps the better of the best so far, if there is one, whose choices stand from `at` on, and the candidate behind it.
fn keep(choices: &mut [u8], best: Option<Walked>, w: Walked, at: usize, least: bool) -> Walked
    requires { (at ≤ spec.end_of at best) × (spec.end_of at best ≤ w.end) × (w.end ≤ length choices.old) }
    ensures { Keeps best w at least choices.old choices.new result }
{
    let Some(b) = best else {
        return w;
    };
    if exceeds(w.value, b.value, least) {
        choices.copy_within(b.end..w.end, at);
        return Walked {
            value: w.value,
            end: at + (w.end - b.end),
        };
    }
    b
}

fn add_mul(sum: u64, w: u64, v: u64) -> u64
    requires { sum + w * v < 2 ^ 64 }
    ensures { result ≡ sum + w * v }
{
    sum + w * v
}

// The condition's own node, the last of its cone.
fn root(cone: &[u8]) -> u8
    requires { 0 < length cone.now }
    ensures { result ≡ root_of cone.now }
{
    cone[cone.len() - 1]
}

// What is found where no step is left: the condition's value, which is known there.
fn leaf(cone: &[u8], v: &[u8; VALUES], at: usize) -> Walked
    requires { 0 < length cone.now }
    ensures { (result.value ≡ learnt.known v.now (root_of cone.now) 0) × (result.end ≡ at) }
{
    Walked {
        value: u64::from(known(v, root(cone), 0)),
        end: at,
    }
}

// Tries the choices of a state from which one step is left: x has, in the lane of each outcome, the condition's value on its path.
fn last_choice(
    m: &[u16; MODEL],
    choices: &mut [u8],
    x: u32,
    s: usize,
    at: usize,
    least: bool,
) -> Walked
    requires { Prepared m.now × (s < state_count m.now) × (at + 3 ≤ length choices.old) }
    ensures { Ends least m.now s x at choices.old choices.new result }
{
    let n = prepared_model::choices(m, s);
    let mut value = total(m, x, s, 0);
    let mut place: usize = 0;
    for i in 1..n {
        let v = total(m, x, s, i);
        if exceeds(v, value, least) {
            value = v;
            place = i;
        }
    }
    choices[at] = choice(m, s, place);
    Walked { value, end: at + 1 }
}

// Picks the best choice where one step is left, for all outcomes at once. Its one call is in `walk`, into which it is built for speed.
fn pick_last(
    m: &[u16; MODEL],
    q: &[u8; QUESTION],
    truth: &[u8; TRUTHS],
    cone: &[u8],
    late: &[u8; NODES],
    trail: &[u16; STEPS],
    gains: &[i32; PLACES],
    v: &[u8; VALUES],
    choices: &mut [u8],
    spot: Spot,
) -> Walked
    requires setting { Setting m.now q.now truth.now cone.now late.now spot.start trail.now gains.now v.now spot.h spot.s 1 }
    requires most_choices_in_bounds { spot.at + 3 * most_choices 1 ≤ length choices.old }
    ensures { let choices' = choices.exit.now in let m = m.entry.now in let q = q.entry.now in let cone = cone.entry.now in
        let trail = trail.entry.now in let choices = choices.entry.now in
        Picked spot.least m (on_path m q spot.start cone (take spot.h trail)) spot.s 1 spot.at choices choices' result }
{
    let here = Place {
        start: spot.start,
        h: spot.h,
        s: spot.s,
    };
    let x = mask(m, q, truth, cone, late, trail, gains, v, here);
    last_choice(m, choices, x, spot.s as usize, spot.at, spot.least)
}

// Picks the best choice in the state where a search stands, and writes its plan's choices.
#[cycle(pick_walk)]
fn pick(
    m: &[u16; MODEL],
    q: &[u8; QUESTION],
    truth: &[u8; TRUTHS],
    cone: &[u8],
    late: &[u8; NODES],
    trail: &mut [u16; STEPS],
    gains: &mut [i32; PLACES],
    v: &mut [u8; VALUES],
    choices: &mut [u8],
    spot: Spot,
) -> Walked
    requires setting { Setting m.now q.now truth.now cone.now late.now spot.start trail.old gains.old v.old spot.h spot.s
        spot.k }
    requires k_in_bounds { spot.at + 3 * most_choices spot.k ≤ length choices.old }
    ensures effect { let choices' = choices.exit.now in let m = m.entry.now in let q = q.entry.now in let cone = cone.entry.now in
        let trail = trail.entry.now in let choices = choices.entry.now in
        Picked spot.least m (on_path m q spot.start cone (take spot.h trail)) spot.s spot.k spot.at choices choices' result }
    ensures frame { let trail' = trail.exit.now in let gains' = gains.new in let v' = v.new in let m = m.entry.now in
        let q = q.entry.now in let cone = cone.entry.now in let trail = trail.entry.now in
        Back m q spot.start cone spot.h trail trail' gains' v' }
{
    if spot.k == 0 {
        return leaf(cone, v, spot.at);
    }
    let s = spot.s as usize;
    let n = prepared_model::choices(m, s) as u8;
    let mut best: Option<Walked> = None;
    for i in 0..n {
        let from = end_of(best, spot.at);
        choices[from] = choice(m, s, i as usize);
        let below = Spot {
            k: spot.k - 1,
            at: from + 1,
            ..spot
        };
        let w = walk(
            m, q, truth, cone, late, trail, gains, v, choices, below, i, best,
        );
        best = Some(keep(choices, best, w, spot.at, spot.least));
    }
    best.unwrap()
}

// Walks the outcomes of the choice at place i, with k steps left after it: sums their weights times the best totals below, and writes the
// choices there. Gives up where the choice cannot win any more over the best so far, which it does not ask where one step is left: there it
// costs more than it saves.
#[cycle(pick_walk)]
fn walk(
    m: &[u16; MODEL],
    q: &[u8; QUESTION],
    truth: &[u8; TRUTHS],
    cone: &[u8],
    late: &[u8; NODES],
    trail: &mut [u16; STEPS],
    gains: &mut [i32; PLACES],
    v: &mut [u8; VALUES],
    choices: &mut [u8],
    spot: Spot,
    i: u8,
    best: Option<Walked>,
) -> Walked
    requires setting { Setting m.now q.now truth.now cone.now late.now spot.start trail.old gains.old v.old spot.h spot.s
        (spot.k + 1) }
    requires i_bound { (i < choices_in m.now spot.s) × (spot.at + 6 * most_choices spot.k ≤ length choices.old) }
    ensures effect { let choices' = choices.exit.now in let m = m.entry.now in let q = q.entry.now in let cone = cone.entry.now in
        let trail = trail.entry.now in let choices = choices.entry.now in
        Candidate best spot.least m (on_path m q spot.start cone (take spot.h trail))
        (row_in m spot.s i) spot.k spot.at choices choices' result }
    ensures frame { let trail' = trail.exit.now in let gains' = gains.new in let v' = v.new in let m = m.entry.now in
        let q = q.entry.now in let cone = cone.entry.now in let trail = trail.entry.now in
        Back m q spot.start cone spot.h trail trail' gains' v' }
{
    let k = spot.k;
    let s = spot.s as usize;
    let n = outcomes(m, s, i as usize) as u8;
    let mut sum: u64 = 0;
    let mut rest = denominator(m) as u64;
    let mut end = spot.at;
    for o in 0..n {
        if k > 1 && hopeless(m, best, sum, rest, k, spot.least) {
            return Walked { value: sum, end };
        }
        let here = Place {
            start: spot.start,
            h: spot.h,
            s: spot.s,
        };
        let t = step(m, q, truth, cone, trail, gains, v, here, i, o);
        let below = Spot {
            h: spot.h + 1,
            s: t,
            k,
            at: end,
            ..spot
        };
        let b = if k == 1 {
            pick_last(m, q, truth, cone, late, trail, gains, v, choices, below)
        } else {
            pick(m, q, truth, cone, late, trail, gains, v, choices, below)
        };
        let w = weight(m, s, i as usize, o as usize);
        sum = add_mul(sum, w, b.value);
        rest -= w;
        end = b.end;
    }
    Walked { value: sum, end }
}

// Finds the plan of d steps, as many as the condition looks ahead, that has the greatest weight, or the least.
pub fn find(
    m: &[u16; MODEL],
    q: &[u8; QUESTION],
    truth: &[u8; TRUTHS],
    cone: &[u8],
    choices: &mut [u8],
    start: u8,
    d: u8,
    least: bool,
) -> Found
    requires ready { Ready m.now q.now start truth.now cone.now }
    requires d_value { (d ≡ depth (formula q.now (root_of cone.now))) × (d ≤ 6) × (4095 ≤ length choices.old) × (0 < length cone.now) }
    ensures { Finds least m.now q.now start cone.now d choices.new result }
{
    let marks = late(q, cone);
    let mut trail = [0u16; STEPS];
    let mut gains = [0i32; PLACES];
    let mut v = [0u8; VALUES];
    learn(q, truth, &trail, &gains, cone, &mut v, 0, start);
    let spot = Spot {
        start,
        h: 0,
        s: start,
        k: d,
        at: 0,
        least,
    };
    let b = pick(
        m, q, truth, cone, &marks, &mut trail, &mut gains, &mut v, choices, spot,
    );
    Found {
        value: b.value,
        count: b.end,
    }
}
