// The text that the program `whynot` prints: the line of `verdict` where that is a yes or a refusal, and the reason of a no. The grounds of load, put
// and judge are asked in turn; no desk is needed, since nothing is kept.
#![tactic(auto)]

ghost use Rattle.std.specs.Prelude.{◌≡◌, ◌+◌, ◌≤◌, length};
ghost use Rattle.refusals.specs.Number.{refusal_number};
ghost use Rattle.logic.specs.promises.Refusal.{refusal};
ghost use Rattle.models.specs.Layout.{model_of};
ghost use Rattle.models.specs.Grounds.{read_model};
ghost use Rattle.questions.specs.Layout.{question_of};
ghost use Rattle.protocol.specs.Calls.{question_for};
ghost use Rattle.verdict_line.specs.Text.{Put};
ghost use Rattle.verdict_line.specs.Reasons.{reached_line, whynot_says};
ghost use Rattle.verdict_line.specs.promises.Chain.{judging_text, loading_text, line_of, answer_text};
ghost use Rattle.explaining.specs.promises.Said.{side_said, side_size, explained_said, Few};

use limits::{accept_limits, plan_totals};
use plan_choices::CHOICES;
use prepared_model::prepare_model;
use prepared_question::prepare_question;
use reasons::{Between, Explanation, Reached, explained};
use refusals::Refusal;
use verdict_line::reason_lines::{TEXT, no_reason_text, put_nothing, put_reached};
use verdict_line::{parts, plain_line, refused_line, yes_plan_line};

// Writes the line of what is reached on a side, with the first of these choices.
fn put_side(out: &mut [u8], at: usize, word: &[u8], side: Option<Reached>, choices: &[u8]) -> usize
    requires { (at + (length word.now + 5540) ≤ length out.old) × (side_size side ≤ 1365) × (side_size side ≤ length choices.now) }
    ensures effect { let out' = out.exit.now in let out = out.entry.now in let word = word.entry.now in let choices = choices.entry.now in
        Put (reached_line word (side_said side choices)) out out' at result }
    ensures range { result ≤ at + (length word.now + 5540) }
{
    match side {
        None => put_nothing(out, at, word),
        Some(x) => { put_reached(out, at, word, x.total, x.whole, &choices[..x.size]) }
    }
}

// The text of what is said of a question, with the choices beside it.
fn explained_text(out: &mut [u8], e: Explanation, choices: &[u8], further: &[u8]) -> usize
    requires { (16384 ≤ length out.old) × Few e (length choices.now) (length further.now) }
    ensures { let out' = out.exit.now in let out = out.entry.now in let choices = choices.entry.now in
        let further = further.entry.now in
        Put (explained_said e choices further) out out' 0 result }
{
    match e {
        Explanation::Yes => plain_line(out, true),
        Explanation::Shown(x) => {
            yes_plan_line(out, x.total, x.whole, x.lamp, x.count, &choices[..x.size])
        }
        Explanation::NoReason => no_reason_text(out),
        Explanation::Greatest(x) => put_side(out, 0, b"greatest", x, choices),
        Explanation::Least(x) => put_side(out, 0, b"least", x, choices),
        Explanation::Nearest(Between { below, above }) => {
            let next = put_side(out, 0, b"below", below, choices);
            put_side(out, next, b"above", above, further)
        }
    }
}

// The text where the model and the question are accepted.
fn judging_text(out: &mut [u8], model: &[u8], q: &[u8]) -> usize
    requires in_bounds { 16384 ≤ length out.old }
    requires model_value { (refusal (read_model model.now) ≡ 0) × (refusal (question_for (model_of model.now) q.now) ≡ 0) }
    ensures { let out' = out.exit.now in let model = model.entry.now in let q = q.entry.now in let out = out.entry.now in
        Put (line_of (judging_text whynot_says (model_of model) (question_of q))) out out' 0 result }
{
    let m = prepare_model(model);
    let p = prepare_question(q);
    let counts = plan_totals(&m, &p);
    if let Err(r) = accept_limits(&m, &p, &counts) {
        return refused_line(out, r.number());
    }
    let mut choices = [0u8; CHOICES];
    let mut further = [0u8; CHOICES];
    let e = explained(&m, &p, &counts, &mut choices, &mut further);
    explained_text(out, e, &choices, &further)
}

// Whether a question is accepted for an accepted model; else its ground.
fn accept_question(model: &[u8], q: &[u8]) -> Result<(), Refusal>
    ensures { refusal_number result ≡ refusal (question_for (model_of model.now) q.now) }
{
    let states = models::state_count(model);
    let actions = models::action_count(model);
    let props = models::prop_count(model);
    questions::accept_question(q, states, actions, props)
}

// The text of a model and a question.
fn loading_text(out: &mut [u8], model: &[u8], q: &[u8]) -> usize
    requires { 16384 ≤ length out.old }
    ensures { let out' = out.exit.now in let model = model.entry.now in let q = q.entry.now in let out = out.entry.now in
        Put (line_of (loading_text whynot_says model q)) out out' 0 result }
{
    if let Err(r) = models::accept_model(model) {
        return refused_line(out, r.number());
    }
    if let Err(r) = accept_question(model, q) {
        return refused_line(out, r.number());
    }
    judging_text(out, model, q)
}

// The text that the program whynot prints for its input: a model followed by a question in the last 512 bytes.
pub fn answer(input: &[u8], out: &mut [u8; TEXT]) -> usize
    ensures { Put (answer_text whynot_says input.now) out.old out.new 0 result }
{
    match parts(input) {
        Some((model, question)) => loading_text(out, model, question),
        None => refused_line(out, 1),
    }
}
