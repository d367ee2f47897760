// The totals nearest to a number, on either side, each with its first place.
ghost use Rattle.std.specs.Prelude.{◌≡◌, true, false, ◌+◌, ◌≤◌, length};
ghost use Rattle.logic.specs.Limits.{plan_total};
ghost use Rattle.prepared_model.specs.promises.Rows.{model_in};
ghost use Rattle.evaluation.specs.promises.Worth.{worth_of};
ghost use Rattle.exact_plan.specs.promises.Totals as spec;
ghost use Rattle.exact_plan.specs.promises.Listing.{Given};
ghost use Rattle.exact_plan.specs.promises.Sides.{on_side, wins, NearestIn, Around};

use crate::{FEW, FEW_ROOM, ROOM, SOME, SOME_ROOM, Sought, totals};
use bounds::exceeds;
use evaluation::TRUTHS;
use limits::{COUNTS, plans_counted};
use prepared_model::MODEL;
use prepared_question::QUESTION;

// A number of a list, and its place there; the list's length where there is none, and no Option: that is what the contract of `nearest` says.
#[derive(Clone, Copy)]
pub struct Near {
    pub place: usize,
    pub total: u64,
}

// The nearest total below a number, and the nearest of those that are not below it.
#[derive(Clone, Copy)]
pub struct Neighbours {
    pub below: Near,
    pub above: Near,
}

// Whether y is on this side of x: below it, or not below it.
fn on_side(y: u64, x: u64, above: bool) -> bool
    ensures { result ≡ on_side above x y }
{
    if above {
        return x <= y;
    }
    y < x
}

// Whether y is on this side of x and nearer to it than the best so far, if there is one.
fn wins(y: u64, x: u64, best: Near, len: usize, above: bool) -> bool
    ensures { result ≡ wins above x len best y }
{
    if !on_side(y, x, above) {
        return false;
    }
    if best.place == len {
        return true;
    }
    exceeds(y, best.total, above)
}

// The number of a list nearest to x on this side of it, at its first place.
fn nearest_in(list: &[u64], x: u64, above: bool) -> Near
    ensures { NearestIn list.now (length list.now) (length list.now) above x result }
{
    let len = list.len();
    let mut best = Near {
        place: len,
        total: 0,
    };
    for (place, y) in list.iter().enumerate() {
        if wins(*y, x, best, len, above) {
            best = Near { place, total: *y };
        }
    }
    best
}

// `nearest` in a lent buffer, which has room for the list and for what is made beside it.
fn nearest_within(
    m: &[u16; MODEL],
    q: &[u8; QUESTION],
    truth: &[u8; TRUTHS],
    cone: &[u8],
    table: &[u64; COUNTS],
    buf: &mut [u64],
    l: Sought,
    x: u64,
) -> Neighbours
    requires given { Given m.now q.now l.s l.a l.d truth.now cone.now table.now }
    requires d_le_n { (l.d ≤ l.n) × (l.n ≤ 6) × (plan_total (model_in m.now) l.n l.s ≤ 65536)
        × (plan_total (model_in m.now) l.n l.s + 282 ≤ length buf.old) }
    ensures { let m = m.entry.now in let q = q.entry.now in let cone = cone.entry.now in
        Around (spec.totals (model_in m) l.n l.s (worth_of m q l.s l.a l.d cone)) x result }
{
    let len = totals(m, q, truth, cone, table, buf, l);
    Neighbours {
        below: nearest_in(&buf[..len], x, false),
        above: nearest_in(&buf[..len], x, true),
    }
}

// `nearest` in a room of N numbers, which stands in this function's own frame, never in its caller's.
#[inline(never)]
fn nearest_in_room<const N: usize>(
    m: &[u16; MODEL],
    q: &[u8; QUESTION],
    truth: &[u8; TRUTHS],
    cone: &[u8],
    table: &[u64; COUNTS],
    l: Sought,
    x: u64,
) -> Neighbours
    requires given { Given m.now q.now l.s l.a l.d truth.now cone.now table.now }
    requires d_le_n { (l.d ≤ l.n) × (l.n ≤ 6) × (plan_total (model_in m.now) l.n l.s ≤ 65536)
        × (plan_total (model_in m.now) l.n l.s + 282 ≤ N) × (N ≤ 65819) }
    ensures { let m = m.entry.now in let q = q.entry.now in let cone = cone.entry.now in
        Around (spec.totals (model_in m) l.n l.s (worth_of m q l.s l.a l.d cone)) x result }
{
    let mut buf = [0u64; N];
    nearest_within(m, q, truth, cone, table, &mut buf, l, x)
}

// Of the totals of all plans, the nearest below x and the nearest that is not below it, so may be x, each at its first place in dictionary order of the
// plans. One list is made, in a buffer of one of three lengths.
pub fn nearest(
    m: &[u16; MODEL],
    q: &[u8; QUESTION],
    truth: &[u8; TRUTHS],
    cone: &[u8],
    table: &[u64; COUNTS],
    l: Sought,
    x: u64,
) -> Neighbours
    requires given { Given m.now q.now l.s l.a l.d truth.now cone.now table.now }
    requires d_le_n { (l.d ≤ l.n) × (l.n ≤ 6) × (plan_total (model_in m.now) l.n l.s ≤ 65536) }
    ensures { let m = m.entry.now in let q = q.entry.now in let cone = cone.entry.now in
        Around (spec.totals (model_in m) l.n l.s (worth_of m q l.s l.a l.d cone)) x result }
{
    let all = plans_counted(table, l.n, l.s as usize);
    if all <= FEW {
        return nearest_in_room::<FEW_ROOM>(m, q, truth, cone, table, l, x);
    }
    if all <= SOME {
        return nearest_in_room::<SOME_ROOM>(m, q, truth, cone, table, l, x);
    }
    nearest_in_room::<ROOM>(m, q, truth, cone, table, l, x)
}
