// Ground 6: spare bytes are zero.
ghost use Rattle.std.specs.Prelude.{◌≡◌, ◌+◌, ◌*◌, ◌<◌, ◌≤◌, ◌&&◌, true, length};
ghost use Rattle.models.specs.Layout.{post_count, cell_at, entries};
ghost use Rattle.models.specs.Grounds.{fields_right, action_spare, head_spare, row_spare, rows_spare, cell_spare, cells_spare};
ghost use Rattle.models.specs.promises.Used.{Used};
ghost use Rattle.models.specs.promises.Earlier.{Earlier};

use crate::{
    ACTIONS, CELL_SIZE, CELLS, CELLS_AT, LITERALS_SIZE, MASK_SIZE, MASKS_AT, MASKS_SIZE,
    OUTCOME_SIZE, POSTS, POSTS_AT, ROW_CELLS, ROW_STATES, STATE_SIZE, action_at, action_count,
    outcome_at, post_at, post_count, state_count,
};
use blocks::{BLOCK, LAST_WORD, all_pass, zeros};

// The spare bytes of the head, which follow the denominator.
const HEAD_SPARE_AT: usize = 6;

const HEAD_SPARE_SIZE: usize = MASKS_AT - HEAD_SPARE_AT;

// Those of an action, which follow the count of its postconditions.
const ACTION_SPARE_AT: usize = 9;

const ACTION_SPARE_SIZE: usize = POSTS_AT - ACTION_SPARE_AT;

// The room for an action's postconditions.
const POSTS_SIZE: usize = LITERALS_SIZE * POSTS;

// Those of a row block, which follow its number, and its cells.
const ROW_SPARE_AT: usize = 2;

const ROW_SPARE_SIZE: usize = CELLS_AT - ROW_SPARE_AT;

const ROW_END: usize = CELLS_AT + STATE_SIZE * ROW_STATES;

const ROW_END_SIZE: usize = LAST_WORD - ROW_END;

// Of an action: the 3 bytes after the count, and the postconditions beyond it.
#[tactic(auto, unfolding(crate::specs::Grounds::action_spare))]
fn action_spare(b: &[u8], a: usize) -> bool
    requires { (a < 8) × (post_count b.now a ≤ 4) × (1024 ≤ length b.now) }
    ensures { result ≡ action_spare b.now a }
{
    let n = post_count(b, a);
    zeros(b, action_at(a) + ACTION_SPARE_AT, ACTION_SPARE_SIZE)
        & zeros(b, post_at(a, n), POSTS_SIZE - LITERALS_SIZE * n)
}

fn head_spare(b: &[u8]) -> bool
    requires { Earlier b.now × (fields_right b.now ≡ true) }
    ensures { result ≡ head_spare b.now }
{
    let masks = MASK_SIZE * state_count(b);
    let actions = action_count(b);
    let end = action_at(actions);
    zeros(b, HEAD_SPARE_AT, HEAD_SPARE_SIZE)
        & zeros(b, MASKS_AT + masks, MASKS_SIZE - masks)
        & all_pass(actions, move |a| action_spare(b, a))
        & zeros(b, end, LAST_WORD - end)
}

#[tactic(auto, unfolding(crate::specs::Grounds::row_spare))]
fn row_spare(b: &[u8], k: usize) -> bool
    requires { (k < 128) × (512 * k + 512 ≤ length b.now) }
    ensures { result ≡ row_spare b.now k }
{
    let at = BLOCK * k;
    zeros(b, at + ROW_SPARE_AT, ROW_SPARE_SIZE) & zeros(b, at + ROW_END, ROW_END_SIZE)
}

// Of a cell with n used outcomes: what follows them.
#[tactic(auto, unfolding(crate::specs::Grounds::cell_spare))]
fn cell_spare(b: &[u8], s: usize, a: usize, n: usize) -> bool
    requires { (s < 256) × (a < 8) × (n ≤ 4) × (n ≡ entries b.now s a) × (cell_at s a + 16 ≤ length b.now) }
    ensures { result ≡ cell_spare b.now s a }
{
    zeros(b, outcome_at(s, a, n), CELL_SIZE - OUTCOME_SIZE * n)
}

// Every cell of the row blocks is looked at, also those of no state.
pub fn spare_zero(b: &[u8], used: &[u8; CELLS]) -> bool
    requires { Earlier b.now × (fields_right b.now ≡ true) × Used b.now used.now }
    ensures { result ≡ (head_spare b.now && rows_spare b.now && cells_spare b.now) }
{
    let rows = b.len() / BLOCK - 1;
    head_spare(b)
        & all_pass(rows, move |k| row_spare(b, k + 1))
        & all_pass(ROW_CELLS * rows, move |k| {
            cell_spare(b, k / ACTIONS, k % ACTIONS, usize::from(used[k]))
        })
}
