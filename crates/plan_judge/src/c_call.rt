// The call for the arm's controller, which is in C: what load, put, judge and, on yes to a root that asks for a plan, write do in turn on an empty
// desk, up to the first refusal. It has no desk: nothing is kept, so the bytes are asked for their grounds once.
ghost use Rattle.std.specs.Prelude.{◌≡◌, ◌≤◌, length, take};
ghost use Rattle.logic.specs.promises.Refusal.{refusal};
ghost use Rattle.models.specs.Layout.{state_count, action_count, prop_count, model_of};
ghost use Rattle.models.specs.Grounds.{read_model};
ghost use Rattle.questions.specs.Layout.{question_of};
ghost use Rattle.questions.specs.Grounds.{read_question};
ghost use Rattle.plan_judge.specs.View.{choices_in};
ghost use Rattle.plan_judge.specs.promises.State.{PlanRoot, size_in};
ghost use Rattle.plan_judge.specs.promises.CChain.{c_chain, told_on, Begins, told_sheet, Tells, c_code};

use crate::{Refusal, Ruling, Verdict, accept_question, judged_on, plan_size, sheet_size};
use models::accept_model;
use sheets::writer::write_sheet;

// Gives 0 for no, 1 for yes, or 100 plus the refusal. The sheet buffer changes only by the write.
pub fn plan_judge(model: &[u8], question: &[u8], sheet: &mut [u8]) -> u32
    ensures { let sheet' = sheet.exit.now in let model = model.entry.now in let question = question.entry.now in
        let sheet = sheet.entry.now in
        Tells (c_chain model question (length sheet)) sheet sheet' result }
{
    match judge_and_write(model, question, sheet) {
        Ok(yes) => u32::from(yes),
        Err(r) => 100 + r.number(),
    }
}

// Whether the answer is yes, or the refusal.
fn judge_and_write(model: &[u8], question: &[u8], sheet: &mut [u8]) -> Result<bool, Refusal>
    ensures { let sheet' = sheet.exit.now in let model = model.entry.now in let question = question.entry.now in
        let sheet = sheet.entry.now in
        Tells (c_chain model question (length sheet)) sheet sheet' (c_code result) }
{
    accept_model(model)?;
    accept_question(question, model)?;
    told(model, question, sheet)
}

// The same where both are accepted.
fn told(model: &[u8], question: &[u8], sheet: &mut [u8]) -> Result<bool, Refusal>
    requires { (refusal (read_model model.now) ≡ 0)
        × (refusal (read_question (state_count model.now) (action_count model.now) (prop_count model.now) question.now) ≡ 0) }
    ensures { let sheet' = sheet.exit.now in let model = model.entry.now in let question = question.entry.now in
        let sheet = sheet.entry.now in
        Tells (told_on (length sheet) (model_of model) (question_of question)) sheet sheet' (c_code result) }
{
    let Ruling { answer, choices } = judged_on(model, question);
    match answer? {
        Verdict::No(_) => Ok(false),
        Verdict::Yes => Ok(true),
        Verdict::YesPlan(p) => told_plan(model, question, sheet, p.total, &choices),
    }
}

// Writes the sheet of the plan with which the choices begin; or ground 12, where the buffer has no room for it.
fn told_plan(
    model: &[u8],
    question: &[u8],
    sheet: &mut [u8],
    total: i64,
    choices: &[u8],
) -> Result<bool, Refusal>
    requires { PlanRoot model.now question.now × Begins model.now question.now choices.now × (length choices.now ≤ 1365) }
    ensures { let sheet' = sheet.exit.now in let model = model.entry.now in let question = question.entry.now in
        let sheet = sheet.entry.now in let choices = choices.entry.now in
        let n = size_in (choices_in (model_of model) (question_of question) choices) in
        Tells (told_sheet question (length sheet) total (take n choices)) sheet sheet' (c_code result) }
{
    let n = questions::root_steps(question);
    let s = questions::start(question);
    let count = plan_size(model, choices, n as usize, s as usize);
    if sheet.len() < sheet_size(count) {
        return Err(Refusal::SmallBuffer);
    }
    write_sheet(sheet, model, n, s, total, &choices[..count]);
    Ok(true)
}
