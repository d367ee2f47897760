// The choices of plan number i in dictionary order, by division, without the list of plans.
ghost use Rattle.std.specs.Prelude.{◌≡◌, ◌+◌, ◌*◌, ◌<◌, ◌≤◌, true, length};
ghost use Rattle.logic.specs.Plan as plan;
ghost use Rattle.logic.specs.Limits.{plan_total};
ghost use Rattle.blocks.specs.Splice.{splice};
ghost use Rattle.models.specs.Layout.{state_count};
ghost use Rattle.prepared_model.specs.promises.Rows.{choices_in, choice_in, model_in, Prepared};
ghost use Rattle.limits.specs.promises.Totals.{Totals};
ghost use Rattle.logic.specs.promises.MostChoices.{most_choices};
ghost use Rattle.plan_choices.specs.promises.Numbered.{listed, plan_at, Found, Wrote};
ghost use Rattle.plan_choices.specs.promises.Numbered as spec;

use limits::{COUNTS, plans_counted};
use prepared_model::MODEL;

// The place of a choice in the row of its state, and which of the `size` ways to go on below it.
#[derive(Clone, Copy)]
struct Block {
    at: usize,
    size: u64,
    place: u64,
}

// How many ways there are to continue for n steps after choice i.
fn ways(m: &[u16; MODEL], counts: &[u64; COUNTS], s: usize, i: usize, n: u8) -> u64
    requires prepared { Prepared m.now × Totals true (model_in m.now) 7 counts.now }
    requires s_bound { (s < state_count m.now) × (i < choices_in m.now s) × (n < 6) × (plan_total (model_in m.now) (n + 1) s ≤ 65536) }
    ensures value { result ≡ spec.ways (model_in m.now) n s (choice_in m.now s i) }
    ensures range { result ≤ 65536 }
{
    let c = prepared_model::outcomes(m, s, i);
    let mut size: u64 = 1;
    for o in 0..c {
        let t = prepared_model::target(m, s, i, o);
        size *= plans_counted(counts, n, t);
    }
    size
}

// The choice of plan number i of n + 1 steps: the choices of a state in order, each with as many plans as ways to go on.
fn block_of(m: &[u16; MODEL], counts: &[u64; COUNTS], s: usize, n: u8, i: u64) -> Block
    requires prepared { Prepared m.now × Totals true (model_in m.now) 7 counts.now }
    requires s_bound { (s < state_count m.now) × (n < 6) × (plan_total (model_in m.now) (n + 1) s ≤ 65536)
        × (i < plan_total (model_in m.now) (n + 1) s) }
    ensures { let m = m.entry.now in
        (result.at < choices_in m s) × Found (model_in m) n s i (choice_in m s result.at) result.size result.place }
{
    let c = prepared_model::choices(m, s);
    let mut rest = i;
    for at in 0..c {
        let size = ways(m, counts, s, at, n);
        if rest < size {
            return Block {
                at,
                size,
                place: rest,
            };
        }
        rest -= size;
    }
    // Not reached: there are more than i plans.
    Block {
        at: 0,
        size: 1,
        place: 0,
    }
}

// Writes the choices of plan number i of n steps from s; gives the next place. Below each outcome of the choice in s, what is left of the
// plan's place is divided by the ways of the outcomes after it.
fn nth_from(
    m: &[u16; MODEL],
    counts: &[u64; COUNTS],
    choices: &mut [u8],
    s: usize,
    n: u8,
    i: u64,
    at: usize,
) -> usize
    requires prepared { Prepared m.now × Totals true (model_in m.now) 7 counts.now }
    requires s_bound { (s < state_count m.now) × (n ≤ 6) × (plan_total (model_in m.now) n s ≤ 65536) × (i < plan_total (model_in m.now) n s)
        × (at + most_choices n ≤ length choices.old) }
    ensures { let choices' = choices.exit.now in let m = m.entry.now in let choices = choices.entry.now in
        Wrote (plan.choices n (plan_at (model_in m) n s i)) (most_choices n) choices choices' at result }
{
    if n == 0 {
        return at;
    }
    let k = n - 1;
    let b = block_of(m, counts, s, k, i);
    choices[at] = prepared_model::choice(m, s, b.at);
    let c = prepared_model::outcomes(m, s, b.at);
    let mut size = b.size;
    let mut rest = b.place;
    let mut next = at + 1;
    for o in 0..c {
        let t = prepared_model::target(m, s, b.at, o);
        size /= plans_counted(counts, k, t);
        next = nth_from(m, counts, choices, t, k, rest / size, next);
        rest %= size;
    }
    next
}

// Writes the choices of plan number i, from 0, of all n-step plans from s in dictionary order; gives their number.
pub fn nth(
    m: &[u16; MODEL],
    counts: &[u64; COUNTS],
    choices: &mut [u8],
    s: u8,
    n: u8,
    i: u64,
) -> usize
    requires prepared { Prepared m.now × Totals true (model_in m.now) 7 counts.now }
    requires s_bound { (s < state_count m.now) × (n ≤ 6) × (plan_total (model_in m.now) n s ≤ 65536) × (i < plan_total (model_in m.now) n s)
        × (1365 ≤ length choices.old) }
    ensures frame { let choices' = choices.exit.now in let choices = choices.entry.now in let m = m.entry.now in
        choices' ≡ splice choices 0 (plan.choices n (listed (model_in m) n s i)) }
    ensures value { result ≡ length (plan.choices n (listed (model_in m.now) n s i)) }
{
    nth_from(m, counts, choices, s as usize, n, i, 0)
}
