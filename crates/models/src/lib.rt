// Models: readers of their bytes, and the grounds on which they are refused (document 01, numbers 1 to 7; document 02, A.1, took ground 8
// away).
#![tactic(auto)]

ghost use Rattle.std.specs.Prelude.{◌≡◌, ℕ, ◌+◌, ◌*◌, ◌/◌, ◌<◌, ◌≤◌, true};
ghost use Rattle.logic.specs.Model.{true_of};
ghost use Rattle.refusals.specs.Number.{refusal_number};
ghost use Rattle.logic.specs.promises.Refusal.{refusal};
ghost use Rattle.blocks.specs.Block.{whole_blocks};
ghost use Rattle.models.specs.Layout.{state_count, action_count, prop_count, denominator_of, literals, state_mask, post_count, action_at, cell_at, outcome_of};
ghost use Rattle.models.specs.Layout as layout;
ghost use Rattle.models.specs.Grounds.{kinds_right, sizes_right, read_model};
ghost use Rattle.models.specs.promises.Used.{Used};

pub mod choices;
mod consistent;
mod fields;
mod spare;

use blocks::{
    BLOCK, Kind, all_pass, headed, i16_at, sums_right, u32_at, whole_blocks, wide, within,
};
use refusals::Refusal;

// The most states, actions and propositions of a model, and the most postconditions of an action.
pub const STATES: usize = 32;

pub const ACTIONS: usize = 8;

pub const PROPS: usize = 32;

pub const POSTS: usize = 4;

// The choice byte of the silent move: the number of no action.
pub const SILENT: usize = 255;

// The most that a weight and the denominator may be.
pub const MOST_WEIGHT: usize = 100;

// The least and the most blocks of a model: the head, and row blocks of three states each.
const LEAST_BLOCKS: usize = 2;

pub const BLOCKS: usize = 12;

pub const ROW_STATES: usize = 3;

// The cells of a row block and of the most row blocks, one for each state and action: there is room for 33 states.
pub const ROW_CELLS: usize = ROW_STATES * ACTIONS;

pub const CELLS: usize = ROW_CELLS * (BLOCKS - 1);

// Where the fields of the head stand.
pub const STATE_COUNT_AT: usize = 2;

const ACTION_COUNT_AT: usize = 3;

const PROP_COUNT_AT: usize = 4;

pub const DENOMINATOR_AT: usize = 5;

pub const MASKS_AT: usize = 8;

pub const MASK_SIZE: usize = 4;

const MASKS_SIZE: usize = MASK_SIZE * STATES;

const ACTIONS_AT: usize = MASKS_AT + MASKS_SIZE;

const ACTION_SIZE: usize = 44;

// Where the fields of an action stand after its precondition.
const POST_COUNT_AT: usize = 8;

const POSTS_AT: usize = 12;

// Literals are a true mask and after it a false mask.
const NEGATIVE_AT: usize = MASK_SIZE;

const LITERALS_SIZE: usize = 2 * MASK_SIZE;

// Where the cells of a row block begin, and the sizes of an outcome, of a cell and of a state's cells.
const CELLS_AT: usize = 4;

const OUTCOME_SIZE: usize = 4;

const CELL_SIZE: usize = OUTCOME_SIZE * POSTS;

const STATE_SIZE: usize = CELL_SIZE * ACTIONS;

// Where the fields of an outcome stand after its target, which is its first byte.
const WEIGHT_AT: usize = 1;

const REWARD_AT: usize = 2;

// How many states a model has.
pub fn state_count(b: &[u8]) -> usize
    ensures value { result ≡ state_count b.now }
    ensures range { result < 256 }
{
    wide(b, STATE_COUNT_AT)
}

pub fn action_count(b: &[u8]) -> usize
    ensures value { result ≡ action_count b.now }
    ensures range { result < 256 }
{
    wide(b, ACTION_COUNT_AT)
}

pub fn prop_count(b: &[u8]) -> usize
    ensures value { result ≡ prop_count b.now }
    ensures range { result < 256 }
{
    wide(b, PROP_COUNT_AT)
}

// What the weights of a cell sum to.
pub fn denominator(b: &[u8]) -> usize
    ensures value { result ≡ denominator_of b.now }
    ensures range { result < 256 }
{
    wide(b, DENOMINATOR_AT)
}

// Whether the literals at a place are true of a mask.
#[tactic(auto, unfolding(logic::specs::Model::true_of, crate::specs::Layout::literals))]
pub fn holds(b: &[u8], at: usize, v: u32) -> bool
    requires { at < 65536 }
    ensures { result ≡ true_of (literals b.now at) v }
{
    let positive = u32_at(b, at);
    let negative = u32_at(b, at + NEGATIVE_AT);
    (v & positive == positive) & (v & negative == 0)
}

// The mask of a state.
#[tactic(auto, unfolding(crate::specs::Layout::state_mask))]
pub fn state_mask(b: &[u8], s: usize) -> u32
    requires { s < 256 }
    ensures { result ≡ state_mask b.now s }
{
    u32_at(b, MASKS_AT + MASK_SIZE * s)
}

// Where an action stands, and first in it its precondition.
pub fn action_at(a: usize) -> usize
    requires { a < 256 }
    ensures { result ≡ action_at a }
{
    ACTIONS_AT + ACTION_SIZE * a
}

// Where a postcondition of an action stands.
pub fn post_at(a: usize, i: usize) -> usize
    requires { (a < 256) × (i < 256) }
    ensures { result ≡ action_at a + 12 + 8 * i }
{
    action_at(a) + POSTS_AT + LITERALS_SIZE * i
}

// How many postconditions an action has.
#[tactic(auto, unfolding(crate::specs::Layout::post_count))]
pub fn post_count(b: &[u8], a: usize) -> usize
    requires { a < 256 }
    ensures value { result ≡ post_count b.now a }
    ensures range { result < 256 }
{
    wide(b, action_at(a) + POST_COUNT_AT)
}

// How many outcomes of a state and an action are used.
#[tactic(auto, unfolding(crate::specs::Layout::entries, crate::specs::Layout::pre_of))]
pub fn entries(b: &[u8], s: usize, a: usize) -> usize
    requires { (s < 256) × (a < 256) }
    ensures value { result ≡ layout.entries b.now s a }
    ensures range { result < 256 }
{
    if state_count(b) <= s {
        return 0;
    }
    if action_count(b) <= a {
        return 0;
    }
    if holds(b, action_at(a), state_mask(b, s)) {
        return post_count(b, a);
    }
    0
}

// Where an outcome stands.
#[tactic(auto, unfolding(crate::specs::Layout::cell_at))]
pub fn outcome_at(s: usize, a: usize, i: usize) -> usize
    requires { (s < 256) × (a < 256) × (i < 256) }
    ensures value { result ≡ cell_at s a + 4 * i }
    ensures range { result < 65000 }
{
    BLOCK * (1 + s / ROW_STATES)
        + CELLS_AT
        + STATE_SIZE * (s % ROW_STATES)
        + CELL_SIZE * a
        + OUTCOME_SIZE * i
}

#[tactic(auto, unfolding(crate::specs::Layout::outcome_of))]
pub fn target(b: &[u8], s: usize, a: usize, i: usize) -> usize
    requires { (s < 256) × (a < 256) × (i < 256) }
    ensures value { result ≡ (outcome_of b.now s a i).target }
    ensures range { result < 256 }
{
    wide(b, outcome_at(s, a, i))
}

#[tactic(auto, unfolding(crate::specs::Layout::outcome_of))]
pub fn weight(b: &[u8], s: usize, a: usize, i: usize) -> usize
    requires { (s < 256) × (a < 256) × (i < 256) }
    ensures value { result ≡ (outcome_of b.now s a i).weight }
    ensures range { result < 256 }
{
    wide(b, outcome_at(s, a, i) + WEIGHT_AT)
}

#[tactic(auto, unfolding(crate::specs::Layout::outcome_of))]
pub fn reward(b: &[u8], s: usize, a: usize, i: usize) -> i16
    requires { (s < 256) × (a < 256) × (i < 256) }
    ensures { result ≡ (outcome_of b.now s a i).reward }
{
    i16_at(b, outcome_at(s, a, i) + REWARD_AT)
}

// Where the cells of the model's states end among all cells.
fn cells_end(b: &[u8]) -> usize
    ensures { (result ≤ 264) × ((k : ℕ) → k < 264 → result ≤ k → state_count b.now ≤ k / 8) }
{
    CELLS.min(ACTIONS * state_count(b))
}

// The number of used outcomes of every cell, 8 to a state: none in the cells of no state.
fn used_entries(b: &[u8]) -> [u8; CELLS]
    ensures { Used b.now result }
{
    let mut used = [0; CELLS];
    for k in 0..cells_end(b) {
        used[k] = entries(b, k / ACTIONS, k % ACTIONS) as u8;
    }
    used
}

// Ground 3: of the head, and of the row blocks.
fn kinds_right(b: &[u8]) -> bool
    requires { whole_blocks 2 12 b.now ≡ true }
    ensures { result ≡ kinds_right b.now }
{
    headed(b, 0, Kind::Head as usize, 0)
        & all_pass(
            b.len() / BLOCK - 1,
            move |k| headed(b, k + 1, Kind::Row as usize, k + 1),
        )
}

// Ground 4.
#[tactic(auto, unfolding(crate::specs::Grounds::sizes_right, blocks::specs::Block::block_count))]
fn sizes_right(b: &[u8]) -> bool
    ensures { result ≡ sizes_right b.now }
{
    let s = state_count(b);
    let rows = b.len() / BLOCK == 1 + (s + 2) / ROW_STATES;
    within(1, STATES, s)
        & within(1, ACTIONS, action_count(b))
        & within(1, PROPS, prop_count(b))
        & within(1, MOST_WEIGHT, denominator(b))
        & rows
}

// A model is refused on the first ground that it does not pass. It is kept out of its callers: built into the C call, its loops run a tenth slower.
#[inline(never)]
#[tactic(auto, unfolding(crate::specs::Grounds::read_model))]
pub fn accept_model(b: &[u8]) -> Result<(), Refusal>
    ensures { refusal_number result ≡ refusal (read_model b.now) }
{
    if !whole_blocks(b, LEAST_BLOCKS, BLOCKS) {
        return Err(Refusal::BlockCount);
    }
    if !sums_right(b) {
        return Err(Refusal::WordSum);
    }
    if !kinds_right(b) {
        return Err(Refusal::Heading);
    }
    if !sizes_right(b) {
        return Err(Refusal::HeadFields);
    }
    let used = used_entries(b);
    if !fields::fields_right(b, &used) {
        return Err(Refusal::FieldRange);
    }
    if !spare::spare_zero(b, &used) {
        return Err(Refusal::SpareBytes);
    }
    if !consistent::consistent(b, &used) {
        return Err(Refusal::Inconsistent);
    }
    Ok(())
}
