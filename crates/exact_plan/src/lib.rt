// The list of the totals of all plans in dictionary order; for the relation "equal" the first place of one of them, and those nearest to a number.
#![tactic(auto)]

ghost use Rattle.std.specs.Prelude.{◌+◌, ◌≤◌, length};
ghost use Rattle.logic.specs.Limits.{plan_total};
ghost use Rattle.prepared_model.specs.promises.Rows.{model_in};
ghost use Rattle.evaluation.specs.promises.Worth.{worth_of};
ghost use Rattle.exact_plan.specs.promises.Totals as spec;
ghost use Rattle.exact_plan.specs.promises.Listing.{Given, Listed, First};

mod last;
mod lists;
pub mod nearest;
mod rooms;
mod search;
mod spread;

use crate::last::marks;
use crate::lists::{Spot, list};
use crate::rooms::{in_room, stored};
use evaluation::{PLACES, STEPS, TRUTHS, VALUES, learn};
use limits::{COUNTS, plans_counted};
use prepared_model::MODEL;
use prepared_question::QUESTION;

// What is stored has one of three rooms, by how many numbers it is, each with 282 numbers beside them for what is made there. The largest is for two
// lists whose lengths have a product of up to 65,536, so a sum of one more.
const FEW: u64 = 1024;

const SOME: u64 = 8192;

const FEW_ROOM: usize = 1306;

const SOME_ROOM: usize = 8474;

pub const ROOM: usize = 65819;

// What is listed: the totals of all n-step plans from s. A path is worth the value of the condition at the cone's root, which looks d steps ahead, or
// with no nodes in the cone the raised gain of steps a + 1 to d.
#[derive(Clone, Copy)]
pub struct Sought {
    pub s: u8,
    pub a: u8,
    pub d: u8,
    pub n: u8,
}

// Writes the totals in dictionary order of the plans to the front of a lent buffer, which has room for them and for what is made beside them; gives
// their number.
pub fn totals(
    m: &[u16; MODEL],
    q: &[u8; QUESTION],
    truth: &[u8; TRUTHS],
    cone: &[u8],
    table: &[u64; COUNTS],
    buf: &mut [u64],
    l: Sought,
) -> usize
    requires given { Given m.now q.now l.s l.a l.d truth.now cone.now table.now }
    requires d_le_n { (l.d ≤ l.n) × (l.n ≤ 6) × (plan_total (model_in m.now) l.n l.s ≤ 65536)
        × (plan_total (model_in m.now) l.n l.s + 282 ≤ length buf.old) }
    ensures { let m = m.entry.now in let q = q.entry.now in let cone = cone.entry.now in
        Listed (spec.totals (model_in m) l.n l.s (worth_of m q l.s l.a l.d cone)) buf.new result }
{
    let late = marks(q, cone);
    let mut trail = [0u16; STEPS];
    let mut gains = [0i32; PLACES];
    let mut v = [0u8; VALUES];
    learn(q, truth, &trail, &gains, cone, &mut v, 0, l.s);
    let spot = Spot {
        start: l.s,
        a: l.a,
        d: l.d,
        h: 0,
        s: l.s,
        k: l.n,
        at: 0,
    };
    list(
        m, q, truth, cone, table, &late, &mut trail, &mut gains, &mut v, buf, spot,
    )
}

// The place of the first plan in dictionary order whose total is x; where there is none, the number of plans, and no Option: a caller tells it as
// the count of a no, and the contract says it.
pub fn first_equal(
    m: &[u16; MODEL],
    q: &[u8; QUESTION],
    truth: &[u8; TRUTHS],
    cone: &[u8],
    table: &[u64; COUNTS],
    l: Sought,
    x: u64,
) -> usize
    requires given { Given m.now q.now l.s l.a l.d truth.now cone.now table.now }
    requires d_le_n { (l.d ≤ l.n) × (l.n ≤ 6) × (plan_total (model_in m.now) l.n l.s ≤ 65536) }
    ensures { let m = m.entry.now in let q = q.entry.now in let cone = cone.entry.now in
        First (spec.totals (model_in m) l.n l.s (worth_of m q l.s l.a l.d cone)) x result }
{
    let need = stored(m, table, l);
    let all = plans_counted(table, l.n, l.s as usize) as usize;
    in_room(m, q, truth, cone, table, l, x, need).unwrap_or(all)
}
