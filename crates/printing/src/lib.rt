// The line that the program `verdict` prints: the calls load, put and judge in turn, from the empty desk, up to the first refusal.
#![tactic(auto)]

ghost use Rattle.std.specs.Prelude.{◌≡◌, cond, false, ◌^◌, ◌≤◌, length};
ghost use Rattle.models.specs.Layout.{denominator_of, model_of};
ghost use Rattle.questions.specs.Layout.{node_count, question_of};
ghost use Rattle.lamp.specs.Said.{said_optional};
ghost use Rattle.verdict_line.specs.Text.{Put};
ghost use Rattle.verdict_line.specs.Line.{no_plans_line, plain_line, verdict_says};
ghost use Rattle.verdict_line.specs.promises.Chain.{line_of, answer_text};
ghost use Rattle.printing.specs.promises.Printed.{plan_root, judging_line, asking_line, loading_line, shown_line, Shown, Loaded, Asked};

use lamp::Lamp;
use plan_judge::{Desk, Judging, Taking, Verdict};
use verdict_line::LINE;

// The line of a no.
fn no_line(out: &mut [u8], q: &[u8], count: u32, lamp: Option<Lamp>) -> usize
    requires { (8192 ≤ length out.old) × (1 ≤ node_count q.now) }
    ensures { let out' = out.exit.now in let q = q.entry.now in let out = out.entry.now in
        Put (cond (plan_root q) (no_plans_line count (said_optional lamp)) (plain_line false)) out out' 0 result }
{
    if questions::root_sets_bound(q) {
        return verdict_line::no_plans_line(out, count, lamp);
    }
    verdict_line::plain_line(out, false)
}

// D to the n: the total weight of all paths of a plan.
fn whole(model: &[u8], steps: u32) -> u64
    requires { (denominator_of model.now ≤ 100) × (steps ≤ 6) }
    ensures { result ≡ denominator_of model.now ^ steps }
{
    bounds::power(models::denominator(model), steps as u8)
}

// The line of a verdict, with its choices beside it.
fn verdict_line(out: &mut [u8], model: &[u8], q: &[u8], v: Verdict, choices: &[u8]) -> usize
    requires { (8192 ≤ length out.old) × Shown model.now q.now v choices.now }
    ensures { let out' = out.exit.now in let model = model.entry.now in let q = q.entry.now in let choices = choices.entry.now in
        let out = out.entry.now in
        Put (shown_line (denominator_of model) (plan_root q) v choices) out out' 0 result }
{
    match v {
        Verdict::No(x) => no_line(out, q, x.count, x.lamp),
        Verdict::Yes => verdict_line::plain_line(out, true),
        Verdict::YesPlan(p) => {
            verdict_line::yes_plan_line(
                out,
                p.total,
                whole(model, p.steps),
                p.lamp,
                p.count,
                choices,
            )
        }
    }
}

// The line where the model and the question are on the desk.
fn judging_line(out: &mut [u8], model: &[u8], q: &[u8], d: Desk) -> usize
    requires { (8192 ≤ length out.old) × Asked d model.now q.now }
    ensures { let out' = out.exit.now in let model = model.entry.now in let q = q.entry.now in let out = out.entry.now in
        Put (line_of (judging_line (model_of model) (question_of q))) out out' 0 result }
{
    let Judging {
        answer,
        choices,
        desk,
    } = plan_judge::judge(d);
    match answer {
        Err(r) => verdict_line::refused_line(out, r.number()),
        Ok(v) => {
            let count = plan_judge::shown_choices(desk);
            verdict_line(out, model, q, v, &choices[..count])
        }
    }
}

// The line where the model is on the desk.
fn asking_line(out: &mut [u8], model: &[u8], q: &[u8], d: Desk) -> usize
    requires { (8192 ≤ length out.old) × Loaded d model.now }
    ensures { let out' = out.exit.now in let model = model.entry.now in let q = q.entry.now in let out = out.entry.now in
        Put (line_of (asking_line (model_of model) q)) out out' 0 result }
{
    let Taking { answer, desk } = plan_judge::put(d, q);
    match answer {
        Err(r) => verdict_line::refused_line(out, r.number()),
        Ok(()) => judging_line(out, model, q, desk),
    }
}

// The line of a model and a question.
fn loading_line(out: &mut [u8], model: &[u8], q: &[u8]) -> usize
    requires { 8192 ≤ length out.old }
    ensures { Put (line_of (loading_line model.now q.now)) out.old out.new 0 result }
{
    let Taking { answer, desk } = plan_judge::load(plan_judge::empty(), model);
    match answer {
        Err(r) => verdict_line::refused_line(out, r.number()),
        Ok(()) => asking_line(out, model, q, desk),
    }
}

// The line that the program verdict prints for its input: a model followed by a question in the last 512 bytes.
pub fn answer(input: &[u8], out: &mut [u8; LINE]) -> usize
    ensures { Put (answer_text verdict_says input.now) out.old out.new 0 result }
{
    match verdict_line::parts(input) {
        Some((model, question)) => loading_line(out, model, question),
        None => verdict_line::refused_line(out, 1),
    }
}
