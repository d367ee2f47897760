// The plan that a sheet's choices spell: one function reads a choice, another walks its outcomes and calls back, with fewer steps left.
ghost use Rattle.std.specs.Prelude.{◌≡◌, ◌<◌, ◌≤◌, length, drop};
ghost use Rattle.refusals.specs.Number.{refusal_number};
ghost use Rattle.logic.specs.promises.Refusal.{refusal};
ghost use Rattle.logic.specs.Model.{outcomes};
ghost use Rattle.logic.specs.Choices.{read_each, read_plan, plan_of};
ghost use Rattle.models.specs.Layout.{state_count, model_of};
ghost use Rattle.models.specs.Grounds.{read_model};
ghost use Rattle.sheets.specs.promises.Ends.{end_of};

use models::choices::{outcome_count, outcome_target};
use refusals::Refusal;

// Reads the choices from `at` on as an n-step plan from the state s; gives where they end.
#[cycle(below_plan_end)]
pub fn plan_end(m: &[u8], choices: &[u8], n: usize, s: usize, at: usize) -> Result<usize, Refusal>
    requires { (refusal (read_model m.now) ≡ 0) × (s < state_count m.now) × (at ≤ length choices.now) }
    ensures { let choices = choices.entry.now in let m = m.entry.now in
        result ≡ end_of (length choices) (read_plan (model_of m) n s (drop at choices)) }
{
    if n == 0 {
        return Ok(at);
    }
    if at == choices.len() {
        return Err(Refusal::NotThePlan);
    }
    let a = usize::from(choices[at]);
    let count = outcome_count(m, s, a);
    if count == 0 {
        return Err(Refusal::NotThePlan);
    }
    below(m, choices, n - 1, s, a, count, at + 1)
}

// Reads a plan of k steps below each of the `count` outcomes of the choice a.
#[cycle(below_plan_end)]
fn below(
    m: &[u8],
    choices: &[u8],
    k: usize,
    s: usize,
    a: usize,
    count: usize,
    at: usize,
) -> Result<usize, Refusal>
    requires { (refusal (read_model m.now) ≡ 0) × (s < state_count m.now) × (a < 256)
        × (count ≡ length (outcomes (model_of m.now) s a)) × (at ≤ length choices.now) }
    ensures { let choices = choices.entry.now in let m = m.entry.now in
        result ≡ end_of (length choices) (read_each (λ o. read_plan (model_of m) k o.target) (outcomes (model_of m) s a) (drop at choices)) }
{
    let mut next = at;
    for i in 0..count {
        next = plan_end(m, choices, k, outcome_target(m, s, a, i), next)?;
    }
    Ok(next)
}

// Ground 10: accepts the choices if they are an n-step plan from the state s, all of them.
pub fn accept_plan(m: &[u8], choices: &[u8], n: usize, s: usize) -> Result<(), Refusal>
    requires { (refusal (read_model m.now) ≡ 0) × (s < state_count m.now) }
    ensures { refusal_number result ≡ refusal (plan_of (model_of m.now) n s choices.now) }
{
    if plan_end(m, choices, n, s, 0)? != choices.len() {
        return Err(Refusal::NotThePlan);
    }
    Ok(())
}
