// Ground 5: used fields within their ranges.
ghost use Rattle.std.specs.Prelude.{◌≡◌, ◌<◌, ◌≤◌, ◌^◌, ltb};
ghost use Rattle.logic.specs.Lists.{every};
ghost use Rattle.models.specs.Layout.{literals, state_count, prop_count, state_mask, outcome_of, entries};
ghost use Rattle.models.specs.Grounds.{mask_in_range, literals_in_range, action_in_range, outcome_in_range, cell_in_range, fields_right};
ghost use Rattle.models.specs.promises.Used.{Used};
ghost use Rattle.models.specs.promises.Earlier.{Earlier};

use crate::{
    ACTIONS, CELLS, MOST_WEIGHT, NEGATIVE_AT, POSTS, action_at, action_count, post_at, post_count,
    prop_count, reward, state_count, state_mask, target, weight,
};
use blocks::{all_pass, u32_at, within};

// The ends of a reward's range.
const LEAST_REWARD: i16 = -1000;

const MOST_REWARD: i16 = 1000;

// Whether a mask has no bit from n up.
fn below_bit(v: u32, n: usize) -> bool
    requires { n ≤ 32 }
    ensures { result ≡ ltb v (2 ^ n) }
{
    u64::from(v) >> n == 0
}

#[tactic(auto, unfolding(crate::specs::Grounds::literals_in_range, crate::specs::Grounds::mask_in_range, crate::specs::Layout::literals))]
fn literals_in_range(b: &[u8], at: usize) -> bool
    requires { (at < 65536) × (prop_count b.now ≤ 32) }
    ensures { result ≡ literals_in_range b.now (literals b.now at) }
{
    let n = prop_count(b);
    let positive = u32_at(b, at);
    let negative = u32_at(b, at + NEGATIVE_AT);
    below_bit(positive, n) & below_bit(negative, n) & (positive & negative == 0)
}

// The masks of all states.
fn masks_in_range(b: &[u8]) -> bool
    requires { prop_count b.now ≤ 32 }
    ensures { let b = b.entry.now in
        result ≡ every (state_count b) (λ s. mask_in_range b (state_mask b s)) }
{
    let n = prop_count(b);
    all_pass(state_count(b), move |s| below_bit(state_mask(b, s), n))
}

fn action_in_range(b: &[u8], a: usize) -> bool
    requires { (a < 256) × (prop_count b.now ≤ 32) }
    ensures { result ≡ action_in_range b.now a }
{
    let n = post_count(b, a);
    literals_in_range(b, action_at(a))
        & within(1, POSTS, n)
        & all_pass(n, move |i| literals_in_range(b, post_at(a, i)))
}

#[tactic(auto, unfolding(crate::specs::Grounds::outcome_in_range, crate::specs::Layout::outcome_of))]
fn outcome_in_range(b: &[u8], s: usize, a: usize, i: usize) -> bool
    requires { (s < 256) × (a < 256) × (i < 256) }
    ensures { result ≡ outcome_in_range b.now (outcome_of b.now s a i) }
{
    let gain = reward(b, s, a, i);
    (target(b, s, a, i) < state_count(b))
        & within(1, MOST_WEIGHT, weight(b, s, a, i))
        & (LEAST_REWARD <= gain)
        & (gain <= MOST_REWARD)
}

// A cell with n used outcomes.
fn cell_in_range(b: &[u8], s: usize, a: usize, n: usize) -> bool
    requires { (s < 256) × (a < 256) × (n < 256) × (n ≡ entries b.now s a) }
    ensures { result ≡ cell_in_range b.now s a }
{
    all_pass(n, move |i| outcome_in_range(b, s, a, i))
}

// The cells are looked at last, once the counts of postconditions are known to be small.
pub fn fields_right(b: &[u8], used: &[u8; CELLS]) -> bool
    requires { Earlier b.now × Used b.now used.now }
    ensures { result ≡ fields_right b.now }
{
    if !masks_in_range(b) {
        return false;
    }
    if !all_pass(action_count(b), move |a| action_in_range(b, a)) {
        return false;
    }
    all_pass(ACTIONS * state_count(b), move |k| {
        cell_in_range(b, k / ACTIONS, k % ACTIONS, usize::from(used[k]))
    })
}
