// Words of lanes: the last step of a path for all outcomes of a state at once, a bit each, bit 4·i + o for the outcome o of the choice at
// place i.
ghost use Rattle.std.specs.Prelude.{◌≡◌, ℕ, Bool, not, ◌+◌, ◌*◌, ◌<◌, eqb, ◌+ℤ◌, ◌-ℤ◌};
ghost use Rattle.std.specs.Int.Bits.{bit_and};
ghost use Rattle.logic.specs.Formula.{relation};
ghost use Rattle.logic.specs.Quantity.{integers};
ghost use Rattle.logic.specs.Quantity as quantity;
ghost use Rattle.logic.specs.Bound.{one_if};
ghost use Rattle.blocks.specs.Block.{sum_below};
ghost use Rattle.blocks.specs.Bytes as bytes;
ghost use Rattle.models.specs.Layout.{state_count};
ghost use Rattle.prepared_model.specs.promises.Rows.{choices_in, choice_in, outcomes_in, step_in, lane, Prepared};
ghost use Rattle.last_step.specs.promises.Lanes.{Lanes, Laned};

use blocks::byte;
use evaluation::related;
use models::STATES;
use prepared_model::{MODEL, choice, choices, lane_reward, lane_target, sum};

// ---- words made lane by lane

// The lanes of s, from the highest down: in each, whether what is asked holds there.
fn lanes_where<F: Fn(usize) -> bool>(m: &[u16; MODEL], s: usize, asks: F) -> u32
    requires prepared { Prepared m.now × (s < state_count m.now) }
    requires asked { (k : ℕ) → k < 4 * choices_in m.now s → F.pre asks k }
    ensures { let m = m.entry.now in (f : ℕ → Bool)
        → ((k : ℕ) (t : Bool) → k < 4 * choices_in m s → F.post asks k t → t ≡ f k)
        → (k : ℕ) → k < 4 * choices_in m s → lane result k ≡ one_if (f k) }
{
    let mut x: u32 = 0;
    for k in (0..4 * choices(m, s)).rev() {
        x = 2 * x + u32::from(asks(k));
    }
    x
}

// Of a state formula, node j: whether it is true in each outcome's target.
pub fn told(m: &[u16; MODEL], truth: &[u8], s: usize, j: u8) -> u32
    requires { Prepared m.now × (s < state_count m.now) }
    ensures { let m = m.entry.now in let truth = truth.entry.now in
        Laned m s (λ i o. one_if (not (eqb (bytes.byte truth (32 * j + (step_in m s i o).target)) 0))) result }
{
    lanes_where(m, s, |k| {
        byte(truth, STATES * j as usize + lane_target(m, s, k)) != 0
    })
}

// Of "do": whether an outcome is one of the action a.
pub fn done(m: &[u16; MODEL], s: usize, a: u8) -> u32
    requires { Prepared m.now × (s < state_count m.now) }
    ensures { Laned m.now s (λ i o. one_if (eqb (choice_in m.now s i) a)) result }
{
    lanes_where(m, s, |k| choice(m, s, k / 4) == a)
}

// Of "gain": whether the rewards since its place, the outcome's among them, stand in the relation to its bound.
pub fn gained(m: &[u16; MODEL], s: usize, kind: u8, after: i32, before: i32, bound: i32) -> u32
    requires { Prepared m.now × (s < state_count m.now) }
    ensures { let m = m.entry.now in
        Laned m s (λ i o. one_if (quantity.related integers (relation kind) ((after -ℤ before) +ℤ (step_in m s i o).reward) bound)) result }
{
    let gain = i64::from(after) - i64::from(before);
    lanes_where(m, s, |k| {
        related(
            kind,
            gain + i64::from(lane_reward(m, s, k)),
            i64::from(bound),
        )
    })
}

// ---- words made of words

// The same value in all lanes.
pub fn spread(t: u8) -> u32
    ensures { Lanes (λ _. one_if (not (eqb t 0))) result }
{
    if t == 0 { 0 } else { u32::MAX }
}

// Of "not".
pub fn flipped(x: u32) -> u32
    ensures { Lanes (λ i. one_if (eqb (lane x i) 0)) result }
{
    x ^ u32::MAX
}

// Of "and".
pub fn met(x: u32, y: u32) -> u32
    ensures { Lanes (λ i. bit_and (lane x i) (lane y i)) result }
{
    x & y
}

// ---- what the lanes weigh

// The weights of the outcomes of the choice at place i whose lanes are 1, summed.
pub fn total(m: &[u16; MODEL], x: u32, s: usize, i: usize) -> u64
    requires { Prepared m.now × (s < state_count m.now) × (i < choices_in m.now s) }
    ensures { let m = m.entry.now in
        result ≡ sum_below (outcomes_in m s i) (λ o. (step_in m s i o).weight * lane x (4 * i + o)) }
{
    let y = (x >> (4 * i as u32)) % 16;
    sum(m, s, i, y as usize)
}
