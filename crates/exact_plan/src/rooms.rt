// The buffer of a search, which has one of three lengths: to clear the longest takes longer than to search few plans.
ghost use Rattle.std.specs.Prelude.{◌≡◌, ◌+◌, ◌≤◌, ◌<◌};
ghost use Rattle.logic.specs.Limits.{plan_total};
ghost use Rattle.models.specs.Layout.{state_count};
ghost use Rattle.prepared_model.specs.promises.Rows.{outcomes_in, model_in, Prepared};
ghost use Rattle.evaluation.specs.promises.Worth.{worth_of};
ghost use Rattle.exact_plan.specs.promises.Totals as spec;
ghost use Rattle.exact_plan.specs.promises.Listing.{Counts, Given, Found};
ghost use Rattle.exact_plan.specs.promises.Search.{Counted, stored_at, Housed};

use crate::lists::plans_below;
use crate::search::first_within;
use crate::{FEW, FEW_ROOM, ROOM, SOME, SOME_ROOM, Sought};
use evaluation::TRUTHS;
use limits::{COUNTS, plans_counted};
use prepared_model::{MODEL, choices, outcomes, target};
use prepared_question::QUESTION;

// How many numbers the search below the choice at place i stores. The room is chosen by it, and not by the number of plans, so that few numbers are
// cleared where few are stored.
fn stored_below(m: &[u16; MODEL], table: &[u64; COUNTS], s: usize, i: usize, k: u8) -> u64
    requires { (s < 32) × (i < 8) × Counted m.now table.now s i k (outcomes_in m.now s i) }
    ensures value { result ≡ stored_at m.now s i k }
    ensures range { result ≤ 65537 }
{
    let last = outcomes(m, s, i) - 1;
    plans_below(m, table, s, i, k, last) + plans_counted(table, k, target(m, s, i, last))
}

// How many numbers a search stores at once, at most.
pub fn stored(m: &[u16; MODEL], table: &[u64; COUNTS], l: Sought) -> u64
    requires prepared { Prepared m.now × Counts m.now table.now × (l.s < state_count m.now) }
    requires d_le_n { (l.d ≤ l.n) × (l.n ≤ 6) × (plan_total (model_in m.now) l.n l.s ≤ 65536) }
    ensures value { Housed m.now l.d l.n l.s (result + 282) }
    ensures range { result ≤ 65537 }
{
    if l.d == 0 {
        return 0;
    }
    let n = choices(m, l.s as usize);
    let mut most: u64 = 0;
    for i in 0..n {
        most = most.max(stored_below(m, table, l.s as usize, i, l.n - 1));
    }
    most
}

// Searches in a room of N numbers, which stands in this function's own frame: it is never built into its caller, so that a search takes the stack of
// one room and not of all three.
#[inline(never)]
fn first_in<const N: usize>(
    m: &[u16; MODEL],
    q: &[u8; QUESTION],
    truth: &[u8; TRUTHS],
    cone: &[u8],
    table: &[u64; COUNTS],
    l: Sought,
    x: u64,
) -> Option<usize>
    requires given { Given m.now q.now l.s l.a l.d truth.now cone.now table.now }
    requires housed { Housed m.now l.d l.n l.s N × (N ≤ 65819) }
    ensures { let m = m.entry.now in let q = q.entry.now in let cone = cone.entry.now in
        Found (spec.totals (model_in m) l.n l.s (worth_of m q l.s l.a l.d cone)) x result }
{
    let mut buf = [0u64; N];
    first_within(m, q, truth, cone, table, &mut buf, l, x)
}

// Searches in the smallest room that is enough for what is stored.
pub fn in_room(
    m: &[u16; MODEL],
    q: &[u8; QUESTION],
    truth: &[u8; TRUTHS],
    cone: &[u8],
    table: &[u64; COUNTS],
    l: Sought,
    x: u64,
    need: u64,
) -> Option<usize>
    requires given { Given m.now q.now l.s l.a l.d truth.now cone.now table.now }
    requires housed { Housed m.now l.d l.n l.s (need + 282) × (need ≤ 65537) }
    ensures { let m = m.entry.now in let q = q.entry.now in let cone = cone.entry.now in
        Found (spec.totals (model_in m) l.n l.s (worth_of m q l.s l.a l.d cone)) x result }
{
    if need <= FEW {
        return first_in::<FEW_ROOM>(m, q, truth, cone, table, l, x);
    }
    if need <= SOME {
        return first_in::<SOME_ROOM>(m, q, truth, cone, table, l, x);
    }
    first_in::<ROOM>(m, q, truth, cone, table, l, x)
}
