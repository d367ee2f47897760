// The search for the first plan with a given total, in a lent buffer. The list of all totals is not stored: below each choice the sums of one total
// below each outcome are searched, of which two lists are stored.
ghost use Rattle.std.specs.Prelude.{◌≡◌, ℕ, map, ◌+◌, ◌*◌, ◌^◌, ◌≤◌, ◌<◌, length, replicate, take};
ghost use Rattle.logic.specs.Model.{outcomes};
ghost use Rattle.logic.specs.Limits.{multiply, plan_total};
ghost use Rattle.models.specs.Layout.{denominator_of};
ghost use Rattle.prepared_model.specs.promises.Rows.{choices_in, choice_in, outcomes_in, model_in};
ghost use Rattle.evaluation.specs.promises.Known.{Back};
ghost use Rattle.evaluation.specs.promises.Worth.{worth_of, worth_on, worth_known};
ghost use Rattle.exact_plan.specs.promises.Totals.{combined, weighed, grid};
ghost use Rattle.exact_plan.specs.promises.Totals as spec;
ghost use Rattle.exact_plan.specs.promises.Room.{Room};
ghost use Rattle.exact_plan.specs.promises.Listing.{Given, Here, Written, Decides, Found};
ghost use Rattle.exact_plan.specs.promises.Last.{Marked};
ghost use Rattle.exact_plan.specs.promises.Search.{Searched, Between, stored_at, Housed};

use crate::Sought;
use crate::last::marks;
use crate::lists::{Outcome, Spot, alike, combine, weighed_below};
use crate::spread::fill;
use evaluation::{PLACES, STEPS, TRUTHS, VALUES, learn};
use limits::COUNTS;
use prepared_model::{MODEL, choices, outcomes};
use prepared_question::QUESTION;
use questions::NODES;

// Where a total was sought among those of some plans: its first place, if it is there, and their number.
#[derive(Clone, Copy)]
pub struct Placed {
    place: Option<usize>,
    all: usize,
}

// Bounds of some numbers: the least and the greatest.
#[derive(Clone, Copy)]
pub struct Ends {
    low: u64,
    high: u64,
}

// The place of the first x in a list. It is never built into its caller: by itself its loop is short enough to run as fast wherever it is placed.
#[inline(never)]
fn find(list: &[u64], x: u64) -> Option<usize>
    ensures { Found list.now x result }
{
    list.iter().position(|y| *y == x)
}

// The least and the greatest number of a list.
fn ends_of(list: &[u64]) -> Ends
    requires { 0 < length list.now }
    ensures { Between list.now result }
{
    let mut low = list[0];
    let mut high = low;
    for y in list {
        low = low.min(*y);
        high = high.max(*y);
    }
    Ends { low, high }
}

// The place of the first number of a list that makes x with y. Few y come within the range of these numbers, and the others are passed over.
fn first_with(list: &[u64], e: Ends, y: u64, x: u64) -> Option<usize>
    requires { Between list.now e }
    ensures { Found (map (λ z. y + z) list.now) x result }
{
    let z = x.checked_sub(y)?;
    if z < e.low {
        return None;
    }
    if e.high < z {
        return None;
    }
    find(list, z)
}

// Where the first sum x of one number of each of two lists stands among all these sums, those of the first list varying slowest.
fn first_sum(slow: &[u64], fast: &[u64], x: u64) -> Option<usize>
    requires { (0 < length fast.now) × (length slow.now * length fast.now ≤ 65536) }
    ensures { Found (grid slow.now fast.now) x result }
{
    let e = ends_of(fast);
    for (i, y) in slow.iter().enumerate() {
        if let Some(j) = first_with(fast, e, *y, x) {
            return Some(i * fast.len() + j);
        }
    }
    None
}

// Writes the combined list of the first c outcomes of the choice at place i; of none it is the number 0 alone.
fn front(
    m: &[u16; MODEL],
    q: &[u8; QUESTION],
    truth: &[u8; TRUTHS],
    cone: &[u8],
    table: &[u64; COUNTS],
    late: &[u8; NODES],
    trail: &mut [u16; STEPS],
    gains: &mut [i32; PLACES],
    v: &mut [u8; VALUES],
    buf: &mut [u64],
    spot: Spot,
    i: usize,
    c: usize,
) -> usize
    requires given { Given m.now q.now spot.start spot.a spot.d truth.now cone.now table.now }
    requires here { Here m.now q.now spot.start spot.d cone.now trail.old gains.old v.old spot.h spot.s (spot.k + 1)
        × (i < choices_in m.now spot.s) × (c ≤ outcomes_in m.now spot.s i) × Marked q.now cone.now late.now }
    requires room { Room (spot.k + 1) (multiply (λ o. plan_total (model_in m.now) spot.k o.target)
        (take c (outcomes (model_in m.now) spot.s (choice_in m.now spot.s i)))) spot.at (length buf.old) }
    ensures { let trail' = trail.exit.now in let gains' = gains.new in let v' = v.new in let buf' = buf.exit.now in
        let m = m.entry.now in let q = q.entry.now in let cone = cone.entry.now in let trail = trail.entry.now in
        let buf = buf.entry.now in
        let f = worth_on m q spot.start spot.a spot.d cone (take spot.h trail) in
        Written (combined (weighed (model_in m) spot.k f) (take c (outcomes (model_in m) spot.s (choice_in m spot.s i)))) m q
        spot.start cone spot.h spot.at trail trail' gains' v' buf buf' result }
{
    if c == 0 {
        fill(buf, spot.at, 1, 0);
        return 1;
    }
    combine(
        m, q, truth, cone, table, late, trail, gains, v, buf, spot, i, c,
    )
}

// Where x stands among the totals of all plans that begin with the choice at place i, with k steps below it. The combined list of all outcomes but the
// last is stored, and behind it that of the last; the sums are not.
fn seek(
    m: &[u16; MODEL],
    q: &[u8; QUESTION],
    truth: &[u8; TRUTHS],
    cone: &[u8],
    table: &[u64; COUNTS],
    late: &[u8; NODES],
    trail: &mut [u16; STEPS],
    gains: &mut [i32; PLACES],
    v: &mut [u8; VALUES],
    buf: &mut [u64],
    spot: Spot,
    i: usize,
    x: u64,
) -> Placed
    requires given { Given m.now q.now spot.start spot.a spot.d truth.now cone.now table.now }
    requires here { Here m.now q.now spot.start spot.d cone.now trail.old gains.old v.old spot.h spot.s (spot.k + 1)
        × (i < choices_in m.now spot.s) × Marked q.now cone.now late.now }
    requires s_bound { (plan_total (model_in m.now) (spot.k + 1) spot.s ≤ 65536)
        × (spot.at + stored_at m.now spot.s i spot.k + 282 ≤ length buf.old) }
    ensures value { let m = m.entry.now in let q = q.entry.now in let cone = cone.entry.now in let trail = trail.entry.now in
        let f = worth_on m q spot.start spot.a spot.d cone (take spot.h trail) in
        Searched (combined (weighed (model_in m) spot.k f) (outcomes (model_in m) spot.s (choice_in m spot.s i))) x result }
    ensures frame { let trail' = trail.exit.now in let gains' = gains.new in let v' = v.new in
        let m = m.entry.now in let q = q.entry.now in let cone = cone.entry.now in let trail = trail.entry.now in
        Back m q spot.start cone spot.h trail trail' gains' v' }
{
    let last = outcomes(m, spot.s as usize, i) - 1;
    let slow = front(
        m, q, truth, cone, table, late, trail, gains, v, buf, spot, i, last,
    );
    let behind = Spot {
        at: spot.at + slow,
        ..spot
    };
    let to = Outcome { i, o: last };
    let fast = weighed_below(
        m, q, truth, cone, table, late, trail, gains, v, buf, behind, to,
    );
    let end = behind.at + fast;
    let place = first_sum(&buf[spot.at..behind.at], &buf[behind.at..end], x);
    Placed {
        place,
        all: slow * fast,
    }
}

// Where x stands among the totals of all plans from a spot with k + 1 steps to go: the choices are searched in order, until one has it.
fn by_choices(
    m: &[u16; MODEL],
    q: &[u8; QUESTION],
    truth: &[u8; TRUTHS],
    cone: &[u8],
    table: &[u64; COUNTS],
    late: &[u8; NODES],
    trail: &mut [u16; STEPS],
    gains: &mut [i32; PLACES],
    v: &mut [u8; VALUES],
    buf: &mut [u64],
    spot: Spot,
    x: u64,
) -> Option<usize>
    requires given { Given m.now q.now spot.start spot.a spot.d truth.now cone.now table.now }
    requires here { Here m.now q.now spot.start spot.d cone.now trail.old gains.old v.old spot.h spot.s (spot.k + 1)
        × Marked q.now cone.now late.now }
    requires s_bound { (plan_total (model_in m.now) (spot.k + 1) spot.s ≤ 65536)
        × ((i : _) → i < choices_in m.now spot.s → spot.at + stored_at m.now spot.s i spot.k + 282 ≤ length buf.old) }
    ensures { let m = m.entry.now in let q = q.entry.now in let cone = cone.entry.now in let trail = trail.entry.now in
        let f = worth_on m q spot.start spot.a spot.d cone (take spot.h trail) in
        Found (spec.totals (model_in m) (spot.k + 1) spot.s f) x result }
{
    let n = choices(m, spot.s as usize);
    let mut before: usize = 0;
    for i in 0..n {
        let p = seek(
            m, q, truth, cone, table, late, trail, gains, v, buf, spot, i, x,
        );
        if let Some(place) = p.place {
            return Some(before + place);
        }
        before += p.all;
    }
    None
}

// Where x stands among the totals of all plans from a spot where the worth of the paths is decided: all are the same, however many there are.
fn at_once(
    m: &[u16; MODEL],
    cone: &[u8],
    gains: &[i32; PLACES],
    v: &[u8; VALUES],
    spot: Spot,
    x: u64,
) -> Option<usize>
    requires { Decides m.now cone.now gains.now v.now spot.a spot.d spot.k }
    ensures { let gains = gains.entry.now in let v = v.entry.now in let cone = cone.entry.now in let m = m.entry.now in
        ((n : ℕ) → 0 < n → Found (replicate n (worth_known cone gains v spot.a spot.d * denominator_of m ^ spot.k)) x result) }
{
    if alike(m, cone, gains, v, spot) == x {
        return Some(0);
    }
    None
}

// Where x stands among the totals of all plans, in a lent buffer, which has room for what is stored and for what is made beside it.
pub fn first_within(
    m: &[u16; MODEL],
    q: &[u8; QUESTION],
    truth: &[u8; TRUTHS],
    cone: &[u8],
    table: &[u64; COUNTS],
    buf: &mut [u64],
    l: Sought,
    x: u64,
) -> Option<usize>
    requires given { Given m.now q.now l.s l.a l.d truth.now cone.now table.now }
    requires housed { Housed m.now l.d l.n l.s (length buf.old) }
    ensures { let m = m.entry.now in let q = q.entry.now in let cone = cone.entry.now in
        Found (spec.totals (model_in m) l.n l.s (worth_of m q l.s l.a l.d cone)) x result }
{
    let late = marks(q, cone);
    let mut trail = [0u16; STEPS];
    let mut gains = [0i32; PLACES];
    let mut v = [0u8; VALUES];
    learn(q, truth, &trail, &gains, cone, &mut v, 0, l.s);
    let mut spot = Spot {
        start: l.s,
        a: l.a,
        d: l.d,
        h: 0,
        s: l.s,
        k: l.n,
        at: 0,
    };
    if l.d == 0 {
        return at_once(m, cone, &gains, &v, spot, x);
    }
    spot.k = l.n - 1;
    by_choices(
        m, q, truth, cone, table, &late, &mut trail, &mut gains, &mut v, buf, spot, x,
    )
}
