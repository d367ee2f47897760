// Ground 7: postconditions, targets and weights agree.
ghost use Rattle.std.specs.Prelude.{◌≡◌, ◌<◌};
ghost use Rattle.logic.specs.Lists.{every};
ghost use Rattle.logic.specs.Model.{true_of};
ghost use Rattle.logic.specs.Model as model;
ghost use Rattle.blocks.specs.Block.{sum_below};
ghost use Rattle.models.specs.Layout.{literals, state_mask, post_of, outcome_of, entries};
ghost use Rattle.models.specs.Grounds.{posts_contradict, cell_consistent};
ghost use Rattle.models.specs.Grounds as grounds;
ghost use Rattle.models.specs.promises.Used.{Used};
ghost use Rattle.models.specs.promises.Earlier.{Earlier};

use crate::{
    ACTIONS, CELLS, NEGATIVE_AT, action_count, denominator, holds, post_at, post_count,
    state_count, state_mask, target, weight,
};
use blocks::{all_pass, u32_at};

// Whether the literals at two places contradict.
#[tactic(auto, unfolding(logic::specs::Model::contradict, crate::specs::Layout::literals))]
fn contradict(b: &[u8], i: usize, j: usize) -> bool
    requires { (i < 65536) × (j < 65536) }
    ensures { result ≡ model.contradict (literals b.now i) (literals b.now j) }
{
    (u32_at(b, i) & u32_at(b, j + NEGATIVE_AT) != 0)
        | (u32_at(b, j) & u32_at(b, i + NEGATIVE_AT) != 0)
}

// Whether postcondition i of an action contradicts each before it.
fn post_contradicts(b: &[u8], a: usize, i: usize) -> bool
    requires { (a < 256) × (i < 256) }
    ensures { result ≡ every i (λ j. model.contradict (post_of b.now a j) (post_of b.now a i)) }
{
    all_pass(i, move |j| contradict(b, post_at(a, j), post_at(a, i)))
}

// Whether an action's postconditions contradict in pairs.
fn posts_contradict(b: &[u8], a: usize) -> bool
    requires { a < 256 }
    ensures { result ≡ posts_contradict b.now a }
{
    all_pass(post_count(b, a), move |i| post_contradicts(b, a, i))
}

// Whether the target of outcome i of a cell makes its postcondition true.
#[tactic(auto, unfolding(crate::specs::Layout::post_of))]
fn target_true(b: &[u8], s: usize, a: usize, i: usize) -> bool
    requires { (s < 256) × (a < 256) × (i < 256) }
    ensures { let b = b.entry.now in
        result ≡ true_of (post_of b a i) (state_mask b (outcome_of b s a i).target) }
{
    holds(b, post_at(a, i), state_mask(b, target(b, s, a, i)))
}

// The sum of a cell's first n weights.
fn weight_sum(b: &[u8], s: usize, a: usize, n: usize) -> usize
    requires { (s < 256) × (a < 256) × (n < 256) }
    ensures { result ≡ sum_below n (λ i. (outcome_of b.now s a i).weight) }
{
    let mut sum = 0;
    for i in 0..n {
        sum += weight(b, s, a, i);
    }
    sum
}

// A cell with n used outcomes.
fn cell_consistent(b: &[u8], s: usize, a: usize, n: usize) -> bool
    requires { (s < 256) × (a < 256) × (n < 256) × (n ≡ entries b.now s a) }
    ensures { result ≡ cell_consistent b.now s a }
{
    all_pass(n, move |i| target_true(b, s, a, i))
        & ((n == 0) | (weight_sum(b, s, a, n) == denominator(b)))
}

pub fn consistent(b: &[u8], used: &[u8; CELLS]) -> bool
    requires { Earlier b.now × Used b.now used.now }
    ensures { result ≡ grounds.consistent b.now }
{
    all_pass(action_count(b), move |a| posts_contradict(b, a))
        & all_pass(ACTIONS * state_count(b), move |k| {
            cell_consistent(b, k / ACTIONS, k % ACTIONS, usize::from(used[k]))
        })
}
