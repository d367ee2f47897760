// Weighing a plan: what the paths that it allows are worth, weighed and summed, each path met once.
ghost use Rattle.std.specs.Prelude.{◌≡◌, ◌+◌, ◌*◌, ◌^◌, ◌<◌, ◌≤◌, length, take, drop};
ghost use Rattle.logic.specs.Checked.{ok};
ghost use Rattle.logic.specs.Plan.{Plan};
ghost use Rattle.logic.specs.Choices.{plan_of};
ghost use Rattle.logic.specs.Formula.{depth};
ghost use Rattle.logic.specs.Quantity.{naturals};
ghost use Rattle.logic.specs.Bound.{total};
ghost use Rattle.prepared_model.specs.promises.Rows.{step_in, model_in};
ghost use Rattle.prepared_question.specs.promises.Nodes.{formula};
ghost use Rattle.evaluation.specs.promises.Reached.{root_of, Ready};
ghost use Rattle.evaluation.specs.promises.Worth.{worth_of, worth_on};
ghost use Rattle.plan_choices.specs.promises.PlanSum.{weigh};
ghost use Rattle.plan_choices.specs.promises.Weighed.{Here, Ran};

use blocks::byte;
use evaluation::{PLACES, Place, STEPS, TRUTHS, VALUES, learn, step, worth};
use prepared_model::{MODEL, row_of, weight};
use prepared_question::QUESTION;

// Where a sum is made: after h steps from the start, in the state s, with k steps to go; the choices are read from `at` on. The worth of a
// path looks d steps ahead; a gain is that of the steps after the first a.
#[derive(Clone, Copy)]
pub struct Spot {
    start: u8,
    a: u8,
    d: u8,
    h: u8,
    s: u8,
    k: u8,
    at: usize,
}

// A sum, and where to read on.
#[derive(Clone, Copy)]
pub struct Part {
    value: u64,
    next: usize,
}

// One choice further, but not beyond the end.
fn after(choices: &[u8], at: usize) -> usize
    requires { at ≤ length choices.now }
    ensures { let choices = choices.entry.now in
        (result ≤ length choices) × (drop result choices ≡ drop 1 (drop at choices)) }
{
    (at + 1).min(choices.len())
}

// A sum with the weight of an outcome times x.
fn plus(m: &[u16; MODEL], s: u8, i: usize, o: usize, sum: u64, x: u64) -> u64
    requires { (s < 32) × (i < 8) × (o < 4) × (sum + (step_in m.now s i o).weight * x < 2 ^ 64) }
    ensures { result ≡ sum + (step_in m.now s i o).weight * x }
{
    sum + weight(m, s as usize, i, o) * x
}

// Sums over the paths from a spot that the choices allow: the choice there is read, and each of its outcomes leads on.
fn weigh_from(
    m: &[u16; MODEL],
    q: &[u8; QUESTION],
    truth: &[u8; TRUTHS],
    cone: &[u8],
    choices: &[u8],
    trail: &mut [u16; STEPS],
    gains: &mut [i32; PLACES],
    v: &mut [u8; VALUES],
    spot: Spot,
) -> Part
    requires ready { Ready m.now q.now spot.start truth.now cone.now }
    requires d_value { (0 < length cone.now → spot.d ≡ depth (formula q.now (root_of cone.now))) × (spot.a ≤ spot.d) }
    requires here { Here m.now q.now spot.start spot.d cone.now trail.old gains.old v.old spot.h spot.s spot.k
        × (spot.at ≤ length choices.now) }
    ensures { let trail' = trail.exit.now in let gains' = gains.new in let v' = v.new in let m = m.entry.now in
        let q = q.entry.now in let cone = cone.entry.now in let trail = trail.entry.now in let choices = choices.entry.now in
        let f = worth_on m q spot.start spot.a spot.d cone (take spot.h trail) in
        Ran (weigh (model_in m) spot.k spot.s f (drop spot.at choices)) m q spot.start cone spot.h trail trail' gains' v'
        choices result.value result.next }
{
    if spot.k == 0 {
        return Part {
            value: worth(cone, gains, v, spot.a, spot.d),
            next: spot.at,
        };
    }
    let row = row_of(m, spot.s as usize, byte(choices, spot.at));
    let i = row.at as u8;
    let mut sum: u64 = 0;
    let mut next = after(choices, spot.at);
    for o in 0..row.count {
        let here = Place {
            start: spot.start,
            h: spot.h,
            s: spot.s,
        };
        let t = step(m, q, truth, cone, trail, gains, v, here, i, o as u8);
        let on = Spot {
            h: spot.h + 1,
            s: t,
            k: spot.k - 1,
            at: next,
            ..spot
        };
        let r = weigh_from(m, q, truth, cone, choices, trail, gains, v, on);
        sum = plus(m, spot.s, row.at, o, sum, r.value);
        next = r.next;
    }
    Part { value: sum, next }
}

// The total of the plan with these choices: what the paths that it allows are worth, weighed and summed. A path is worth the value of the
// condition at the cone's root, which looks d steps ahead, or with no nodes in the cone the raised gain of steps a + 1 to d.
pub fn plan_weight(
    m: &[u16; MODEL],
    q: &[u8; QUESTION],
    truth: &[u8; TRUTHS],
    cone: &[u8],
    choices: &[u8],
    start: u8,
    a: u8,
    d: u8,
    n: u8,
) -> u64
    requires ready { Ready m.now q.now start truth.now cone.now }
    requires d_value { (0 < length cone.now → d ≡ depth (formula q.now (root_of cone.now))) × (a ≤ d) × (d ≤ n) × (n ≤ 6) }
    ensures value { let m = m.entry.now in let choices = choices.entry.now in let q = q.entry.now in let cone = cone.entry.now in
        ((π : Plan n) → plan_of (model_in m) n start choices ≡ ok π
        → result ≡ total naturals (model_in m) n start π (worth_of m q start a d cone)) }
    ensures range { result ≤ 12000 * 100 ^ 6 }
{
    let mut trail = [0u16; STEPS];
    let mut gains = [0i32; PLACES];
    let mut v = [0u8; VALUES];
    learn(q, truth, &trail, &gains, cone, &mut v, 0, start);
    let spot = Spot {
        start,
        a,
        d,
        h: 0,
        s: start,
        k: n,
        at: 0,
    };
    let r = weigh_from(
        m, q, truth, cone, choices, &mut trail, &mut gains, &mut v, spot,
    );
    r.value
}
