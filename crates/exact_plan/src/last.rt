// Lists where one step decides: it is taken for all outcomes of a state at once.
ghost use Rattle.std.specs.Prelude.{◌≡◌, true, ◌++◌, ◌+◌, ◌-◌, ◌≤◌, ◌<◌, length, take};
ghost use Rattle.logic.specs.Limits.{plan_total};
ghost use Rattle.models.specs.Layout.{state_count};
ghost use Rattle.prepared_model.specs.promises.Rows.{choices_in, model_in, Prepared};
ghost use Rattle.evaluation.specs.promises.Reached.{Cone};
ghost use Rattle.last_step.specs.promises.Late.{Deep};
ghost use Rattle.evaluation.specs.promises.Worth.{worth_on};
ghost use Rattle.exact_plan.specs.promises.Totals.{totals};
ghost use Rattle.exact_plan.specs.promises.Room.{Room};
ghost use Rattle.exact_plan.specs.promises.Listing.{Counts, Given, Here, Written};
ghost use Rattle.exact_plan.specs.promises.Last.{Marked, lane_totals};

use crate::lists::{Spot, plans_below};
use crate::spread::fill;
use bounds::power;
use evaluation::{PLACES, Place, STEPS, TRUTHS, VALUES};
use last_step::lanes::total;
use last_step::late::late;
use last_step::masks::mask;
use limits::COUNTS;
use prepared_model::{MODEL, choices, denominator, outcomes};
use prepared_question::QUESTION;
use questions::NODES;

// The nodes of the condition that matter with its last step; none where there is no condition.
pub fn marks(q: &[u8; QUESTION], cone: &[u8]) -> [u8; NODES]
    requires { Deep q.now × Cone q.now cone.now }
    ensures { Marked q.now cone.now result }
{
    if cone.len() == 0 {
        return [0u8; NODES];
    }
    late(q, cone)
}

// Whether there is a condition and one step decides it.
pub fn one_decides(cone: &[u8], spot: Spot) -> bool
    requires { spot.h ≤ 6 }
    ensures { result ≡ true → (spot.d ≡ spot.h + 1) × (0 < length cone.now) }
{
    if cone.len() == 0 {
        return false;
    }
    spot.d == spot.h + 1
}

// Writes the total of each choice as often as there are plans below it: x has in the lane of each outcome the condition's value on the paths that
// begin with it.
fn by_lanes(m: &[u16; MODEL], table: &[u64; COUNTS], buf: &mut [u64], spot: Spot, x: u32) -> usize
    requires prepared { Prepared m.now × Counts m.now table.now × (spot.s < state_count m.now) }
    requires k_nonzero { (0 < spot.k) × (spot.k ≤ 6) × (plan_total (model_in m.now) spot.k spot.s ≤ 65536)
        × (spot.at + plan_total (model_in m.now) spot.k spot.s ≤ length buf.old) }
    ensures value { let m = m.entry.now in result ≡ length (lane_totals m spot.s (spot.k - 1) x (choices_in m spot.s)) }
    ensures frame { let buf' = buf.exit.now in let buf = buf.entry.now in let m = m.entry.now in
        take (spot.at + result) buf' ≡ take spot.at buf ++ lane_totals m spot.s (spot.k - 1) x (choices_in m spot.s) }
{
    let s = spot.s as usize;
    let k = spot.k - 1;
    let more = power(denominator(m), k);
    let n = choices(m, s);
    let mut len: usize = 0;
    for i in 0..n {
        let c = plans_below(m, table, s, i, k, outcomes(m, s, i)) as usize;
        fill(buf, spot.at + len, c, total(m, x, s, i) * more);
        len += c;
    }
    len
}

// Writes the totals of all plans from a spot where one step decides the condition.
pub fn by_last_step(
    m: &[u16; MODEL],
    q: &[u8; QUESTION],
    truth: &[u8; TRUTHS],
    cone: &[u8],
    table: &[u64; COUNTS],
    late: &[u8; NODES],
    trail: &[u16; STEPS],
    gains: &[i32; PLACES],
    v: &[u8; VALUES],
    buf: &mut [u64],
    spot: Spot,
) -> usize
    requires given { Given m.now q.now spot.start spot.a spot.d truth.now cone.now table.now }
    requires here { Here m.now q.now spot.start spot.d cone.now trail.now gains.now v.now spot.h spot.s spot.k
        × Marked q.now cone.now late.now × (spot.d ≡ spot.h + 1) × (0 < length cone.now) }
    requires room { Room spot.k (plan_total (model_in m.now) spot.k spot.s) spot.at (length buf.old) }
    ensures { let buf' = buf.exit.now in
        let m = m.entry.now in let q = q.entry.now in let cone = cone.entry.now in let trail = trail.entry.now in
        let gains = gains.entry.now in let v = v.entry.now in let buf = buf.entry.now in
        let f = worth_on m q spot.start spot.a spot.d cone (take spot.h trail) in
        Written (totals (model_in m) spot.k spot.s f) m q spot.start cone spot.h spot.at trail trail gains v buf buf' result }
{
    let here = Place {
        start: spot.start,
        h: spot.h,
        s: spot.s,
    };
    let x = mask(m, q, truth, cone, late, trail, gains, v, here);
    by_lanes(m, table, buf, spot, x)
}
