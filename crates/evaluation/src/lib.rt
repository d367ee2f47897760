// The values of a condition's nodes along a path, each computed once, with the step that makes it known; and what a path is worth to a node
// that sets a bound on plans.
#![tactic(auto)]

ghost use Rattle.std.specs.Prelude.{◌≡◌, ◌^◌, ◌<◌, pos, ◌-ℤ◌, length, get_or, set, take};
ghost use Rattle.std.specs.Int.Signed.{mag};
ghost use Rattle.logic.specs.Quantity.{integers};
ghost use Rattle.logic.specs.Quantity as quantity;
ghost use Rattle.logic.specs.Formula.{relation};
ghost use Rattle.logic.specs.Bound.{one_if};
ghost use Rattle.evaluation.specs.promises.Learnt.{value_by, learn_node, learnt, Below40};
ghost use Rattle.evaluation.specs.promises.Learnt as spec;
ghost use Rattle.evaluation.specs.promises.Reached.{Ready};
ghost use Rattle.evaluation.specs.promises.Known.{Knows, Offered, Stepped};
ghost use Rattle.evaluation.specs.promises.Worth.{worth_known, Readable};
ghost use Rattle.questions.specs.Layout.{node_of};

use blocks::byte;
use models::STATES;
use prepared_model::{MODEL, RAISE, choice, reward, target};
use prepared_question::{QUESTION, bound, depth, left, operator, right};
use questions::operators::{Operator, Relation};

// The most steps of a path.
pub const STEPS: usize = 6;

// The places on it: before the first step and after each.
pub const PLACES: usize = 7;

// The numbers of a table of truths, by node and state.
pub const TRUTHS: usize = 1280;

// The numbers of a table of values, by node and place.
pub const VALUES: usize = 280;

// A place of a path: where it starts, how many steps were taken, and the state that they led to.
#[derive(Clone, Copy)]
pub struct Place {
    pub start: u8,
    pub h: u8,
    pub s: u8,
}

pub fn bit(t: bool) -> u8
    ensures { result ≡ one_if t }
{
    u8::from(t)
}

// The value of node j at place k.
pub fn known(v: &[u8; VALUES], j: u8, k: u8) -> u8
    ensures { result ≡ spec.known v.now j k }
{
    byte(v, PLACES * usize::from(j) + usize::from(k))
}

// The gain after k steps.
pub fn gain_at(gains: &[i32; PLACES], k: u8) -> i32
    requires { k < 7 }
    ensures { result ≡ get_or gains.now k (pos 0) }
{
    gains[usize::from(k)]
}

// The bytes of two relations, for a match.
const LESS: u8 = Relation::Less as u8;

const EQUAL: u8 = Relation::Equal as u8;

// Whether a gain stands in the relation of this number to a bound. A match of the byte, since last_step's loop over lanes asks this of each: from
// three arms the compiler makes a loop for each relation, and from tests one after another it makes a loop that takes a third longer.
pub fn related(kind: u8, gain: i64, bound: i64) -> bool
    ensures { result ≡ quantity.related integers (relation kind) gain bound }
{
    match kind {
        LESS => gain < bound,
        0 | EQUAL => gain == bound,
        _ => gain > bound,
    }
}

// The gain of the steps after the first k, up to step h.
fn gain_between(gains: &[i32; PLACES], k: u8, h: u8) -> i64
    requires { (k < 7) × (h < 7) }
    ensures value { let gains = gains.entry.now in result ≡ get_or gains h (pos 0) -ℤ get_or gains k (pos 0) }
    ensures range { mag result < 2 ^ 33 }
{
    i64::from(gain_at(gains, h)) - i64::from(gain_at(gains, k))
}

// Whether node j, a "gain", is true at place k.
fn gained(q: &[u8; QUESTION], gains: &[i32; PLACES], h: u8, k: u8, j: u8) -> bool
    requires { (j < 40) × (h < 7) × (k < 7) }
    ensures { result ≡ spec.gained q.now gains.now h k j }
{
    related(
        right(q, j),
        gain_between(gains, k, h),
        i64::from(bound(q, j)),
    )
}

// The value at place k of node j, which looks at steps: each arm has its operator's meaning.
fn value_by(
    q: &[u8; QUESTION],
    trail: &[u16; STEPS],
    gains: &[i32; PLACES],
    v: &[u8; VALUES],
    h: u8,
    k: u8,
    j: u8,
) -> u8
    requires { (j < 40) × (k < h) × (h < 7) }
    ensures { let q = q.entry.now in let trail = trail.entry.now in let gains = gains.entry.now in let v = v.entry.now in
        result ≡ value_by q trail gains h k j (node_of q j).operator v }
{
    let Ok(operator) = Operator::try_from(operator(q, j)) else {
        return 0;
    };
    match operator {
        Operator::Not => u8::from(known(v, left(q, j), k) == 0),
        Operator::And => known(v, left(q, j), k) & known(v, right(q, j), k),
        Operator::Do => u8::from(trail[k as usize] / 32 == left(q, j) as u16),
        Operator::Next => known(v, left(q, j), k + 1),
        Operator::Gain => u8::from(gained(q, gains, h, k, j)),
        _ => 0,
    }
}

// The value of node j where it becomes known after h steps, the last of which led to the state s. Places are widened by `as`, here and in `step`: what
// `from` gives is another value to the proof, tied to the first by an equation at each use.
fn learn_node(
    q: &[u8; QUESTION],
    truth: &[u8; TRUTHS],
    trail: &[u16; STEPS],
    gains: &[i32; PLACES],
    v: &mut [u8; VALUES],
    h: u8,
    s: u8,
    j: u8,
)
    requires { (j < 40) × (s < 32) × (h < 7) }
    ensures { let v' = v.exit.now in let q = q.entry.now in let truth = truth.entry.now in let trail = trail.entry.now in
        let gains = gains.entry.now in let v = v.entry.now in
        v' ≡ learn_node q truth trail gains h s j v }
{
    let d = depth(q, j);
    if d > h {
        return;
    }
    let k = h - d;
    let at = PLACES * j as usize + k as usize;
    if d == 0 {
        v[at] = truth[STATES * j as usize + s as usize];
        return;
    }
    v[at] = value_by(q, trail, gains, v, h, k, j);
}

// What the last of h steps, which led to the state s, makes known of the nodes of a cone.
pub fn learn(
    q: &[u8; QUESTION],
    truth: &[u8; TRUTHS],
    trail: &[u16; STEPS],
    gains: &[i32; PLACES],
    cone: &[u8],
    v: &mut [u8; VALUES],
    h: u8,
    s: u8,
)
    requires { Below40 cone.now × (s < 32) × (h < 7) }
    ensures { let v' = v.exit.now in let q = q.entry.now in let truth = truth.entry.now in let trail = trail.entry.now in
        let gains = gains.entry.now in let cone = cone.entry.now in let v = v.entry.now in
        v' ≡ learnt q truth trail gains h s cone v }
{
    for j in cone {
        learn_node(q, truth, trail, gains, v, h, s, *j);
    }
}

// What the path taken is worth, once as many steps are taken as that looks ahead, d: with nodes in the cone, the value of the condition at
// its root; with none, the raised gain of the steps after the first a.
pub fn worth(cone: &[u8], gains: &[i32; PLACES], v: &[u8; VALUES], a: u8, d: u8) -> u64
    requires { Readable cone.now gains.now a d }
    ensures { result ≡ worth_known cone.now gains.now v.now a d }
{
    let Some(root) = cone.last() else {
        let up = RAISE * (d - a) as u16;
        return (gain_between(gains, a, d) + up as i64) as u64;
    };
    u64::from(known(v, *root, 0))
}

// Takes a step: the outcome o of the choice at place i of the state there. Gives the state reached.
pub fn step(
    m: &[u16; MODEL],
    q: &[u8; QUESTION],
    truth: &[u8; TRUTHS],
    cone: &[u8],
    trail: &mut [u16; STEPS],
    gains: &mut [i32; PLACES],
    v: &mut [u8; VALUES],
    at: Place,
    i: u8,
    o: u8,
) -> u8
    requires ready { Ready m.now q.now at.start truth.now cone.now }
    requires offered { Offered m.now at.start trail.old at.h at.s i o }
    requires knows { Knows m.now q.now at.start cone.now (take at.h trail.old) gains.old v.old }
    ensures { let trail' = trail.exit.now in let gains' = gains.new in let v' = v.new in let m = m.entry.now in
        let q = q.entry.now in let cone = cone.entry.now in let trail = trail.entry.now in
        Stepped m q at.start cone at.h at.s i o trail trail' gains' v' result }
{
    let h = at.h;
    let n = h as usize;
    let s = at.s as usize;
    let c = i as usize;
    let e = o as usize;
    trail[n] = 32 * choice(m, s, c) as u16 + 4 * i as u16 + o as u16;
    gains[n + 1] = gain_at(gains, h) + reward(m, s, c, e) as i32;
    let t = target(m, s, c, e) as u8;
    learn(q, truth, trail, gains, cone, v, h + 1, t);
    t
}
