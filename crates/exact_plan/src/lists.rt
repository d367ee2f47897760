// The list of the totals of all plans from a history, made in a lent buffer. Each history is met once.
ghost use Rattle.std.specs.Prelude.{◌≡◌, ◌⊎◌, ◌+◌, ◌*◌, ◌^◌, ◌-◌, ◌≤◌, ◌<◌, min, max, ◌∷◌, get_or, length, replicate, take};
ghost use Rattle.logic.specs.Model.{outcomes};
ghost use Rattle.logic.specs.Limits.{multiply, plan_total};
ghost use Rattle.blocks.specs.Splice.{splice};
ghost use Rattle.models.specs.Layout.{denominator_of};
ghost use Rattle.prepared_model.specs.promises.Rows.{choices_in, choice_in, outcomes_in, step_in, Offers, model_in};
ghost use Rattle.evaluation.specs.promises.Worth.{worth_on, worth_known};
ghost use Rattle.exact_plan.specs.promises.Totals.{totals, combined, weighed, joined, part};
ghost use Rattle.exact_plan.specs.promises.Room.{Room};
ghost use Rattle.exact_plan.specs.promises.Last.{Marked};
ghost use Rattle.exact_plan.specs.promises.Search.{ways_below, Counted};
ghost use Rattle.exact_plan.specs.promises.Listing.{Given, Here, Written, Longest, Decides, Grows};

use crate::last::{by_last_step, one_decides};
use crate::spread::{fill, join, shift};
use bounds::power;
use evaluation::{PLACES, Place, STEPS, TRUTHS, VALUES, step, worth};
use limits::{COUNTS, plans_counted};
use prepared_model::{MODEL, choices, denominator, outcomes, target, weight};
use prepared_question::QUESTION;
use questions::NODES;

// Where a list is made: after h steps from the start, in the state s, with k steps to go, and written from `at` on. The worth of a path
// looks d steps ahead; a gain is that of the steps after the first a.
#[derive(Clone, Copy)]
pub struct Spot {
    pub start: u8,
    pub a: u8,
    pub d: u8,
    pub h: u8,
    pub s: u8,
    pub k: u8,
    pub at: usize,
}

// The outcome o of the choice at place i.
#[derive(Clone, Copy)]
pub struct Outcome {
    pub i: usize,
    pub o: usize,
}

// A further outcome to combine a list of `len` totals with, on its right or on its left.
#[derive(Clone, Copy)]
pub struct Further {
    to: Outcome,
    len: usize,
    right: bool,
}

// An outcome with the most plans below it: its list is made first, in its place.
fn longest(m: &[u16; MODEL], table: &[u64; COUNTS], s: usize, i: usize, c: usize, k: u8) -> usize
    requires { (k ≤ 6) × (s < 32) × (i < 8) × (0 < c) × (c ≤ 4) × ((o : _) → o < c → (step_in m.now s i o).target < 32) }
    ensures { Longest m.now table.now s i c k result }
{
    let mut best: usize = 0;
    for o in 1..c {
        let n = plans_counted(table, k, target(m, s, i, o));
        if plans_counted(table, k, target(m, s, i, best)) < n {
            best = o;
        }
    }
    best
}

// The number of ways to go on for k steps below the first c outcomes of the choice at place i. Most often no step is left, and there is one.
pub fn plans_below(
    m: &[u16; MODEL],
    table: &[u64; COUNTS],
    s: usize,
    i: usize,
    k: u8,
    c: usize,
) -> u64
    requires { (s < 32) × (i < 8) × Counted m.now table.now s i k c }
    ensures { result ≡ ways_below m.now s i k c }
{
    if k == 0 {
        return 1;
    }
    let mut n: u64 = 1;
    for o in 0..c {
        n *= plans_counted(table, k, target(m, s, i, o));
    }
    n
}

// The outcome to take next, beside those from lo to hi: on the right as long as there is one.
fn beside(lo: usize, hi: usize, c: usize) -> usize
    requires { (lo < hi) × (hi ≤ c) × (hi - lo < c) }
    ensures { ((result ≡ hi) × (hi < c)) ⊎ ((result + 1 ≡ lo) × (c ≤ hi)) }
{
    if hi < c { hi } else { lo - 1 }
}

// The total of all plans from a spot where the worth of the paths is decided.
pub fn alike(
    m: &[u16; MODEL],
    cone: &[u8],
    gains: &[i32; PLACES],
    v: &[u8; VALUES],
    spot: Spot,
) -> u64
    requires { Decides m.now cone.now gains.now v.now spot.a spot.d spot.k }
    ensures { let gains = gains.entry.now in let v = v.entry.now in let cone = cone.entry.now in let m = m.entry.now in
        result ≡ worth_known cone gains v spot.a spot.d * denominator_of m ^ spot.k }
{
    worth(cone, gains, v, spot.a, spot.d) * power(denominator(m), spot.k)
}

// The list where the worth of the paths is decided: all plans have the same total.
fn decided(
    m: &[u16; MODEL],
    table: &[u64; COUNTS],
    cone: &[u8],
    gains: &[i32; PLACES],
    v: &[u8; VALUES],
    buf: &mut [u64],
    spot: Spot,
) -> usize
    requires decides { Decides m.now cone.now gains.now v.now spot.a spot.d spot.k }
    requires s_bound { (spot.s < 32) × (spot.at + get_or table.now (32 * spot.k + spot.s) 0 ≤ length buf.old) }
    ensures value { result ≡ get_or table.now (32 * spot.k + spot.s) 0 }
    ensures frame { let buf' = buf.exit.now in let buf = buf.entry.now in let table = table.entry.now in let gains = gains.entry.now in
        let v = v.entry.now in let cone = cone.entry.now in let m = m.entry.now in
        buf' ≡ splice buf spot.at (replicate (get_or table (32 * spot.k + spot.s) 0)
        (worth_known cone gains v spot.a spot.d * denominator_of m ^ spot.k)) }
{
    let n = plans_counted(table, spot.k, spot.s as usize) as usize;
    fill(buf, spot.at, n, alike(m, cone, gains, v, spot));
    n
}

// Writes the totals of all plans from a spot, and gives their number.
#[cycle(below_combine_grown_list_weighed_below)]
pub fn list(
    m: &[u16; MODEL],
    q: &[u8; QUESTION],
    truth: &[u8; TRUTHS],
    cone: &[u8],
    table: &[u64; COUNTS],
    late: &[u8; NODES],
    trail: &mut [u16; STEPS],
    gains: &mut [i32; PLACES],
    v: &mut [u8; VALUES],
    buf: &mut [u64],
    spot: Spot,
) -> usize
    requires given { Given m.now q.now spot.start spot.a spot.d truth.now cone.now table.now }
    requires here { Here m.now q.now spot.start spot.d cone.now trail.old gains.old v.old spot.h spot.s spot.k
        × Marked q.now cone.now late.now }
    requires room { Room spot.k (plan_total (model_in m.now) spot.k spot.s) spot.at (length buf.old) }
    ensures { let trail' = trail.exit.now in let gains' = gains.new in let v' = v.new in let buf' = buf.exit.now in
        let m = m.entry.now in let q = q.entry.now in let cone = cone.entry.now in let trail = trail.entry.now in
        let buf = buf.entry.now in
        let f = worth_on m q spot.start spot.a spot.d cone (take spot.h trail) in
        Written (totals (model_in m) spot.k spot.s f) m q spot.start cone spot.h spot.at trail trail' gains' v' buf buf' result }
{
    if spot.d <= spot.h {
        return decided(m, table, cone, gains, v, buf, spot);
    }
    if one_decides(cone, spot) {
        return by_last_step(m, q, truth, cone, table, late, trail, gains, v, buf, spot);
    }
    let n = choices(m, spot.s as usize);
    let mut len: usize = 0;
    for i in 0..n {
        let first = Spot {
            k: spot.k - 1,
            at: spot.at + len,
            ..spot
        };
        let c = outcomes(m, spot.s as usize, i);
        len += combine(
            m, q, truth, cone, table, late, trail, gains, v, buf, first, i, c,
        );
    }
    len
}

// Writes the sums of one total below each of the first c outcomes of the choice at place i, with k steps below it: the lists below them, combined
// from the longest one on, to the right and then to the left. With all outcomes these are the totals of all plans that begin with the choice.
#[cycle(below_combine_grown_list_weighed_below)]
pub fn combine(
    m: &[u16; MODEL],
    q: &[u8; QUESTION],
    truth: &[u8; TRUTHS],
    cone: &[u8],
    table: &[u64; COUNTS],
    late: &[u8; NODES],
    trail: &mut [u16; STEPS],
    gains: &mut [i32; PLACES],
    v: &mut [u8; VALUES],
    buf: &mut [u64],
    spot: Spot,
    i: usize,
    c: usize,
) -> usize
    requires given { Given m.now q.now spot.start spot.a spot.d truth.now cone.now table.now }
    requires here { Here m.now q.now spot.start spot.d cone.now trail.old gains.old v.old spot.h spot.s (spot.k + 1)
        × (i < choices_in m.now spot.s) × (0 < c) × (c ≤ outcomes_in m.now spot.s i) × Marked q.now cone.now late.now }
    requires room { Room (spot.k + 1) (multiply (λ o. plan_total (model_in m.now) spot.k o.target)
        (take c (outcomes (model_in m.now) spot.s (choice_in m.now spot.s i)))) spot.at (length buf.old) }
    ensures { let trail' = trail.exit.now in let gains' = gains.new in let v' = v.new in let buf' = buf.exit.now in
        let m = m.entry.now in let q = q.entry.now in let cone = cone.entry.now in let trail = trail.entry.now in
        let buf = buf.entry.now in
        let f = worth_on m q spot.start spot.a spot.d cone (take spot.h trail) in
        Written (combined (weighed (model_in m) spot.k f) (take c (outcomes (model_in m) spot.s (choice_in m spot.s i)))) m q
        spot.start cone spot.h spot.at trail trail' gains' v' buf buf' result }
{
    let s = spot.s as usize;
    let start = longest(m, table, s, i, c, spot.k);
    let first = Outcome { i, o: start };
    let mut len = weighed_below(
        m, q, truth, cone, table, late, trail, gains, v, buf, spot, first,
    );
    for taken in 1..c {
        // Those taken stand side by side: from the first on, or as many as are taken before the end.
        let lo = start.min(c - taken);
        let o = beside(lo, lo + taken, c);
        let more = Further {
            to: Outcome { i, o },
            len,
            right: lo < o,
        };
        len = grown(
            m, q, truth, cone, table, late, trail, gains, v, buf, spot, more,
        );
    }
    len
}

// Combines the list at `at` with the totals below a further outcome, which are made behind the product.
#[cycle(below_combine_grown_list_weighed_below)]
fn grown(
    m: &[u16; MODEL],
    q: &[u8; QUESTION],
    truth: &[u8; TRUTHS],
    cone: &[u8],
    table: &[u64; COUNTS],
    late: &[u8; NODES],
    trail: &mut [u16; STEPS],
    gains: &mut [i32; PLACES],
    v: &mut [u8; VALUES],
    buf: &mut [u64],
    spot: Spot,
    more: Further,
) -> usize
    requires given { Given m.now q.now spot.start spot.a spot.d truth.now cone.now table.now }
    requires here { Here m.now q.now spot.start spot.d cone.now trail.old gains.old v.old spot.h spot.s (spot.k + 1)
        × Offers m.now spot.s more.to.i more.to.o × Marked q.now cone.now late.now }
    requires grows { Grows buf.old spot.at more.len
        (plan_total (model_in m.now) spot.k (step_in m.now spot.s more.to.i more.to.o).target) spot.k }
    ensures { let trail' = trail.exit.now in let gains' = gains.new in let v' = v.new in let buf' = buf.exit.now in
        let buf = buf.entry.now in let m = m.entry.now in let q = q.entry.now in let cone = cone.entry.now in
        let trail = trail.entry.now in
        let f = worth_on m q spot.start spot.a spot.d cone (take spot.h trail) in
        Written (joined more.right (part buf spot.at more.len)
        (weighed (model_in m) spot.k f (step_in m spot.s more.to.i more.to.o)))
        m q spot.start cone spot.h spot.at trail trail' gains' v' buf buf' result }
{
    let s = spot.s as usize;
    let n = plans_counted(table, spot.k, target(m, s, more.to.i, more.to.o)) as usize;
    let behind = Spot {
        at: spot.at + more.len * n,
        ..spot
    };
    below(
        m, q, truth, cone, table, late, trail, gains, v, buf, behind, more.to,
    );
    join(
        buf,
        spot.at,
        more.len,
        n,
        weight(m, s, more.to.i, more.to.o),
        more.right,
    );
    more.len * n
}

// Writes the totals of all plans of k steps below an outcome, times its weight.
#[cycle(below_combine_grown_list_weighed_below)]
pub fn weighed_below(
    m: &[u16; MODEL],
    q: &[u8; QUESTION],
    truth: &[u8; TRUTHS],
    cone: &[u8],
    table: &[u64; COUNTS],
    late: &[u8; NODES],
    trail: &mut [u16; STEPS],
    gains: &mut [i32; PLACES],
    v: &mut [u8; VALUES],
    buf: &mut [u64],
    spot: Spot,
    to: Outcome,
) -> usize
    requires given { Given m.now q.now spot.start spot.a spot.d truth.now cone.now table.now }
    requires here { Here m.now q.now spot.start spot.d cone.now trail.old gains.old v.old spot.h spot.s (spot.k + 1)
        × Offers m.now spot.s to.i to.o × Marked q.now cone.now late.now }
    requires room { Room spot.k (plan_total (model_in m.now) spot.k (step_in m.now spot.s to.i to.o).target) spot.at
        (length buf.old) }
    ensures { let trail' = trail.exit.now in let gains' = gains.new in let v' = v.new in let buf' = buf.exit.now in
        let m = m.entry.now in let q = q.entry.now in let cone = cone.entry.now in let trail = trail.entry.now in
        let buf = buf.entry.now in
        let f = worth_on m q spot.start spot.a spot.d cone (take spot.h trail) in
        Written (weighed (model_in m) spot.k f (step_in m spot.s to.i to.o)) m q spot.start cone spot.h spot.at trail
        trail' gains' v' buf buf' result }
{
    let n = below(
        m, q, truth, cone, table, late, trail, gains, v, buf, spot, to,
    );
    let w = weight(m, spot.s as usize, to.i, to.o);
    shift(buf, spot.at, spot.at, n, w, 0);
    n
}

// Writes the totals of all plans of k steps below an outcome.
#[cycle(below_combine_grown_list_weighed_below)]
fn below(
    m: &[u16; MODEL],
    q: &[u8; QUESTION],
    truth: &[u8; TRUTHS],
    cone: &[u8],
    table: &[u64; COUNTS],
    late: &[u8; NODES],
    trail: &mut [u16; STEPS],
    gains: &mut [i32; PLACES],
    v: &mut [u8; VALUES],
    buf: &mut [u64],
    spot: Spot,
    to: Outcome,
) -> usize
    requires given { Given m.now q.now spot.start spot.a spot.d truth.now cone.now table.now }
    requires here { Here m.now q.now spot.start spot.d cone.now trail.old gains.old v.old spot.h spot.s (spot.k + 1)
        × Offers m.now spot.s to.i to.o × Marked q.now cone.now late.now }
    requires room { Room spot.k (plan_total (model_in m.now) spot.k (step_in m.now spot.s to.i to.o).target) spot.at
        (length buf.old) }
    ensures { let trail' = trail.exit.now in let gains' = gains.new in let v' = v.new in let buf' = buf.exit.now in
        let m = m.entry.now in let q = q.entry.now in let cone = cone.entry.now in let trail = trail.entry.now in
        let buf = buf.entry.now in
        let f = worth_on m q spot.start spot.a spot.d cone (take spot.h trail) in
        Written (totals (model_in m) spot.k (step_in m spot.s to.i to.o).target
        (λ l. f ((step_in m spot.s to.i to.o) ∷ l))) m q spot.start cone spot.h spot.at trail trail' gains' v' buf buf' result }
{
    let here = Place {
        start: spot.start,
        h: spot.h,
        s: spot.s,
    };
    let t = step(
        m, q, truth, cone, trail, gains, v, here, to.i as u8, to.o as u8,
    );
    let on = Spot {
        h: spot.h + 1,
        s: t,
        ..spot
    };
    list(m, q, truth, cone, table, late, trail, gains, v, buf, on)
}
