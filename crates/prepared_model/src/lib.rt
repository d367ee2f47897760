// A model prepared for those who go through its choices: one array of numbers, made once, in which the choices of a state stand in order.
#![tactic(auto)]

ghost use Rattle.std.specs.Prelude.{◌≡◌, ℕ, ◌<◌, ◌≤◌, ◌/◌, ◌%◌, length, get_or};
ghost use Rattle.logic.specs.promises.Refusal.{refusal};
ghost use Rattle.models.specs.Grounds.{read_model};
ghost use Rattle.logic.specs.Model.{prop_in};
ghost use Rattle.blocks.specs.Bytes as bytes;
ghost use Rattle.models.specs.Layout.{state_count, denominator_of, state_mask};
ghost use Rattle.prepared_model.specs.promises.Rows.{choices_in, choice_in, outcomes_in, step_in, sum_in, model_in, Prepared, Prepares, RowOf};

mod rows;

use crate::rows::fill;
use blocks::signed16;
use models::{DENOMINATOR_AT, MASK_SIZE, MASKS_AT, STATE_COUNT_AT, state_count};

// The numbers of a prepared model: the head block, and a row for each state.
pub const MODEL: usize = 8704;

// The numbers of a table by steps left, 0 to 6, and states.
pub const STAGES: usize = 224;

// How much a reward is raised where a search has natural numbers: no reward is below -1000.
pub const RAISE: u16 = 1000;

// Where the upper 16 bits of the states' masks begin.
const UPPER_HALVES_AT: usize = MASKS_AT + 2;

// Where the rows begin.
const ROWS: usize = 512;

// The numbers of a row. The bytes of its choices, at most eight, come first.
const ROW: usize = 256;

// Where a row has the number of outcomes of each choice.
const OUTCOMES: usize = 8;

// Where it has the number of choices.
const COUNT: usize = 16;

// Where it has the targets of all outcomes, four to a choice.
const TARGETS: usize = 32;

// Where it has their weights.
const WEIGHTS: usize = 64;

// Where it has their rewards.
const REWARDS: usize = 96;

// Where it has the sums of weights, sixteen to a choice, one for each pattern.
const SUMS: usize = 128;

// ---- the head

pub fn states(m: &[u16; MODEL]) -> usize
    ensures { result ≡ state_count m.now }
{
    usize::from(m[STATE_COUNT_AT])
}

pub fn denominator(m: &[u16; MODEL]) -> usize
    ensures { result ≡ denominator_of m.now }
{
    usize::from(m[DENOMINATOR_AT])
}

// Two bytes of the head as a number.
fn pair(m: &[u16; MODEL], k: usize) -> u32
    requires { Prepared m.now × (k < 510) }
    ensures value { result ≡ bytes.u16 m.now k }
    ensures range { result < 65536 }
{
    u32::from(m[k]) + 256 * u32::from(m[k + 1])
}

// The mask of a state.
fn mask(m: &[u16; MODEL], s: usize) -> u32
    requires { Prepared m.now × (s < 32) }
    ensures { result ≡ state_mask m.now s }
{
    pair(m, MASKS_AT + MASK_SIZE * s) + 65536 * pair(m, UPPER_HALVES_AT + MASK_SIZE * s)
}

// Whether proposition i is true in s.
pub fn holds(m: &[u16; MODEL], s: usize, i: u8) -> bool
    requires { Prepared m.now × (s < state_count m.now) × (i < 32) }
    ensures { result ≡ prop_in (model_in m.now) s i }
{
    (mask(m, s) >> i) % 2 == 1
}

// ---- the rows

// How many choices a state has.
pub fn choices(m: &[u16; MODEL], s: usize) -> usize
    requires { s < 32 }
    ensures { result ≡ choices_in m.now s }
{
    usize::from(m[ROWS + ROW * s + COUNT])
}

// The byte of choice i: its action's number, or 255.
pub fn choice(m: &[u16; MODEL], s: usize, i: usize) -> u8
    requires { Prepared m.now × (s < state_count m.now) × (i < choices_in m.now s) }
    ensures { result ≡ choice_in m.now s i }
{
    m[ROWS + ROW * s + i] as u8
}

// How many outcomes it has.
pub fn outcomes(m: &[u16; MODEL], s: usize, i: usize) -> usize
    requires { (s < 32) × (i < 8) }
    ensures { result ≡ outcomes_in m.now s i }
{
    usize::from(m[ROWS + ROW * s + OUTCOMES + i])
}

pub fn target(m: &[u16; MODEL], s: usize, i: usize, o: usize) -> usize
    requires { (s < 32) × (i < 8) × (o < 4) }
    ensures { result ≡ (step_in m.now s i o).target }
{
    usize::from(m[ROWS + ROW * s + TARGETS + 4 * i + o])
}

pub fn weight(m: &[u16; MODEL], s: usize, i: usize, o: usize) -> u64
    requires { (s < 32) × (i < 8) × (o < 4) }
    ensures value { result ≡ (step_in m.now s i o).weight }
    ensures range { result < 65536 }
{
    u64::from(m[ROWS + ROW * s + WEIGHTS + 4 * i + o])
}

// A reward of its two bytes, which stand in the row as they are.
fn signed(x: u16) -> i16
    ensures { result ≡ bytes.signed 15 x }
{
    signed16(u32::from(x))
}

pub fn reward(m: &[u16; MODEL], s: usize, i: usize, o: usize) -> i16
    requires { (s < 32) × (i < 8) × (o < 4) }
    ensures { result ≡ (step_in m.now s i o).reward }
{
    signed(m[ROWS + ROW * s + REWARDS + 4 * i + o])
}

// The outcomes of a state by lanes: lane k is outcome k % 4 of choice k / 4.
pub fn lane_target(m: &[u16; MODEL], s: usize, k: usize) -> usize
    requires { (s < 32) × (k < 32) }
    ensures value { result ≡ (step_in m.now s (k / 4) (k % 4)).target }
    ensures range { result < 65536 }
{
    usize::from(m[ROWS + ROW * s + TARGETS + k])
}

pub fn lane_reward(m: &[u16; MODEL], s: usize, k: usize) -> i16
    requires { (s < 32) × (k < 32) }
    ensures { result ≡ (step_in m.now s (k / 4) (k % 4)).reward }
{
    signed(m[ROWS + ROW * s + REWARDS + k])
}

// The summed weights of the outcomes of choice i whose bits in the pattern y are 1.
pub fn sum(m: &[u16; MODEL], s: usize, i: usize, y: usize) -> u64
    requires { (s < 32) × (i < 8) × (y < 16) }
    ensures value { result ≡ sum_in m.now s i y }
    ensures range { result < 65536 }
{
    u64::from(m[ROWS + ROW * s + SUMS + 16 * i + y])
}

// ---- a choice by its byte

// Where the outcomes of a choice stand, and how many they are: none for what is no choice, so that whoever goes through them needs no other test.
#[derive(Clone, Copy)]
pub struct Row {
    pub at: usize,
    pub count: usize,
}

pub fn row_of(m: &[u16; MODEL], s: usize, a: u8) -> Row
    requires { Prepared m.now × (s < state_count m.now) }
    ensures { RowOf m.now s a result.at result.count }
{
    for at in 0..choices(m, s) {
        if choice(m, s, at) == a {
            return Row {
                at,
                count: outcomes(m, s, at),
            };
        }
    }
    Row { at: 0, count: 0 }
}

// ---- how it is made

// The head block, and room for the rows.
fn head(b: &[u8]) -> [u16; MODEL]
    requires { 512 ≤ length b.now }
    ensures { (length result ≡ 8704) × ((k : ℕ) → k < 512 → (get_or result k 0 ≡ get_or b.now k 0) × (get_or result k 0 < 256)) }
{
    let mut m = [0; MODEL];
    for k in 0..ROWS {
        m[k] = u16::from(b[k]);
    }
    m
}

// Prepares the model of accepted blocks: the one maker of what every search, count and weighing reads.
pub fn prepare_model(b: &[u8]) -> [u16; MODEL]
    requires { refusal (read_model b.now) ≡ 0 }
    ensures { Prepares b.now result }
{
    let mut m = head(b);
    for s in 0..state_count(b) {
        let from = ROWS + ROW * s;
        fill(b, &mut m[from..from + ROW], s);
    }
    m
}
