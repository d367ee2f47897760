// Plans by expected gain, for "less" and "greater". A gain is a sum over steps, so the best plan from a state does not depend on how the state was
// reached: a table by steps left and states has the best totals, from the last step back, and the place of the first choice that has each.
#![tactic(auto)]

ghost use Rattle.std.specs.Prelude.{◌≡◌, ◌+◌, ◌*◌, ◌-◌, ◌^◌, ◌≤◌, ◌<◌, get_or, length};
ghost use Rattle.logic.specs.Model.{outcomes};
ghost use Rattle.logic.specs.promises.Raised.{raise, pay, Modest};
ghost use Rattle.models.specs.Layout.{state_count, denominator_of};
ghost use Rattle.prepared_model.specs.promises.Rows.{choices_in, choice_in, step_in, Offers, Prepared};
ghost use Rattle.best_gain.specs.promises.Tabled.{worth_by, Low, Picks, WindowRight, Tabled};

use bounds::{exceeds, power};
use models::STATES;
use prepared_model::{
    MODEL, RAISE, STAGES, choices, denominator, outcomes, reward, states, target, weight,
};

// The steps of a plan, those before the first that earns, and the last that does.
#[derive(Clone, Copy)]
pub struct Window {
    pub steps: u8,
    pub before: u8,
    pub last: u8,
}

// The best total of a state, and the place of the first choice that has it.
#[derive(Clone, Copy)]
pub struct Picked {
    value: u64,
    place: u8,
}

// A reward raised.
fn raised(r: i16) -> u64
    requires { Modest r }
    ensures value { result ≡ raise r }
    ensures range { result ≤ 2000 }
{
    (r as i64 + RAISE as i64) as u64
}

// What a path earns on its first step and at best below it, by the outcome o of the choice at place i: `unit` for each point of the raised
// reward, and what the table has from `at` on for the state reached.
fn outcome_worth(
    m: &[u16; MODEL],
    best: &[u64; STAGES],
    at: usize,
    unit: u64,
    s: usize,
    i: usize,
    o: usize,
) -> u64
    requires { Prepared m.now × (s < state_count m.now) × Offers m.now s i o × Low m.now best.now at unit }
    ensures value { let m = m.entry.now in let best = best.entry.now in
        result ≡ unit * raise (step_in m s i o).reward + get_or best (at + (step_in m s i o).target) 0 }
    ensures range { result ≤ 12000 * 100 ^ 5 }
{
    unit * raised(reward(m, s, i, o)) + best[at + target(m, s, i, o)]
}

// What the choice at place i is worth.
fn choice_worth(
    m: &[u16; MODEL],
    best: &[u64; STAGES],
    at: usize,
    unit: u64,
    s: usize,
    i: usize,
) -> u64
    requires { Prepared m.now × (s < state_count m.now) × (i < choices_in m.now s) × Low m.now best.now at unit }
    ensures { let m = m.entry.now in let best = best.entry.now in
        result ≡ worth_by m best at unit s (choice_in m s i) }
{
    let mut sum: u64 = 0;
    for o in 0..outcomes(m, s, i) {
        sum += weight(m, s, i, o) * outcome_worth(m, best, at, unit, s, i, o);
    }
    sum
}

// The first of the best choices of a state.
fn pick(
    m: &[u16; MODEL],
    best: &[u64; STAGES],
    at: usize,
    unit: u64,
    s: usize,
    least: bool,
) -> Picked
    requires { Prepared m.now × (s < state_count m.now) × Low m.now best.now at unit }
    ensures { Picks least m.now best.now at unit s (choices_in m.now s) result.value result.place }
{
    let n = choices(m, s) as u8;
    let mut value = choice_worth(m, best, at, unit, s, 0);
    let mut place: u8 = 0;
    for i in 1..n {
        let v = choice_worth(m, best, at, unit, s, i as usize);
        if exceeds(v, value, least) {
            value = v;
            place = i;
        }
    }
    Picked { value, place }
}

// What a point of the reward of the next step is worth with k steps left, that one among them: nothing where that step does not earn.
fn unit_of(m: &[u16; MODEL], window: Window, k: u8) -> u64
    requires { Prepared m.now × WindowRight window × (1 ≤ k) × (k ≤ window.steps) }
    ensures value { result
        ≡ denominator_of m.now ^ (k - 1)
        * pay (window.before - (window.steps - k)) (window.last - (window.steps - k)) }
    ensures range { result ≤ 100 ^ 5 }
{
    let behind = window.steps - k;
    if behind < window.before {
        return 0;
    }
    if behind < window.last {
        return power(denominator(m), k - 1);
    }
    0
}

// The best totals of a plan's steps that earn, with 0 to all steps left, from each state; `places` gets the places of the choices that have them.
pub fn best_gains(
    m: &[u16; MODEL],
    window: Window,
    least: bool,
    places: &mut [u8; STAGES],
) -> [u64; STAGES]
    requires { Prepared m.now × WindowRight window × (length places.old ≡ 224) }
    ensures { Tabled least m.now window result places.new }
{
    let count = states(m);
    let mut best = [0u64; STAGES];
    for k in STATES..STATES * (window.steps as usize + 1) {
        let left = (k / STATES) as u8;
        if k % STATES < count {
            let unit = unit_of(m, window, left);
            let x = pick(m, &best, k - k % STATES - STATES, unit, k % STATES, least);
            best[k] = x.value;
            places[k] = x.place;
        }
    }
    best
}
