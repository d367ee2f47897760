// The choices of an accepted model, read from its blocks: how many outcomes a choice byte has in a state, and where they lead.
ghost use Rattle.std.specs.Prelude.{◌≡◌, ◌<◌, length, get_or};
ghost use Rattle.logic.specs.Lists.{some_below};
ghost use Rattle.logic.specs.Model.{true_of, silent_step, outcomes};
ghost use Rattle.logic.specs.promises.Refusal.{refusal};
ghost use Rattle.models.specs.Layout.{state_count, action_count, state_mask, pre_of, model_of};
ghost use Rattle.models.specs.Grounds.{read_model};

use crate::{SILENT, action_at, action_count, entries, holds, state_mask, target};

// Whether an action is enabled in the state s. Where none is, the work is over.
fn has_action(b: &[u8], s: usize) -> bool
    requires { s < 256 }
    ensures { let b = b.entry.now in
        result ≡ some_below (action_count b) (λ a. true_of (pre_of b a) (state_mask b s)) }
{
    let v = state_mask(b, s);
    (0..action_count(b)).any(|a| holds(b, action_at(a), v))
}

// How many outcomes the choice a has in the state s: none where it is no choice.
pub fn outcome_count(b: &[u8], s: usize, a: usize) -> usize
    requires { (refusal (read_model b.now) ≡ 0) × (s < state_count b.now) × (a < 256) }
    ensures { result ≡ length (outcomes (model_of b.now) s a) }
{
    if a != SILENT {
        return entries(b, s, a);
    }
    if has_action(b, s) {
        return 0;
    }
    1
}

// Where outcome i of the choice a leads. (What the contract gives past the last outcome, the silent step, is never read.)
pub fn outcome_target(b: &[u8], s: usize, a: usize, i: usize) -> usize
    requires { (refusal (read_model b.now) ≡ 0) × (s < state_count b.now) × (a < 256)
        × (i < length (outcomes (model_of b.now) s a)) }
    ensures { let m = model_of b.now in
        result ≡ (get_or (outcomes m s a) i (silent_step m s)).target }
{
    if a == SILENT {
        return s;
    }
    target(b, s, a, i)
}
