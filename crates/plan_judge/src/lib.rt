// The plan judge as it is offered to callers: the desk (document 01's word for the judge's state) and its calls. No call asks anything of
// its caller; a refusal leaves the desk, and each lent buffer, as found.
#![tactic(auto)]

ghost use Rattle.std.specs.Prelude.{◌≡◌, true, ◌*◌, ◌-◌, ◌≤◌, ◌<◌, min, length, take, replicate};
ghost use Rattle.refusals.specs.Number.{refusal_number};
ghost use Rattle.logic.specs.promises.Refusal.{refusal};
ghost use Rattle.logic.specs.Choices.{read_plan};
ghost use Rattle.blocks.specs.Bytes.{byte};
ghost use Rattle.models.specs.Layout.{state_count, action_count, prop_count, model_of};
ghost use Rattle.prepared_model.specs.promises.Rows.{model_in};
ghost use Rattle.models.specs.Grounds.{read_model};
ghost use Rattle.questions.specs.Layout.{start_of, node_of, node_count, question_of};
ghost use Rattle.questions.specs.Grounds.{read_question};
ghost use Rattle.questions.specs.promises.Formed.{sets_bound};
ghost use Rattle.sheets.specs.Layout.{blocks_for, sheet_of};
ghost use Rattle.sheets.specs.promises.Reader.{Blocks};
ghost use Rattle.protocol.specs.promises.Chains.{check_on};
ghost use Rattle.limits.specs.promises.Counted.{Counted};
ghost use Rattle.judging.specs.promises.Asked.{Served};
ghost use Rattle.judging.specs.promises.Announced.{Spelled, Weighs};
ghost use Rattle.plan_judge.specs.View.{choices_in, question_block, view};
ghost use Rattle.plan_judge.specs.promises.State.{held_size};
ghost use Rattle.plan_judge.specs.promises.Values.{nothing, loaded_by, put_by, judge_on, ruling, judging, judged_by, written_by, filled_by, model_written_by, model_filled_by, checking, checked_by};
ghost use Rattle.plan_judge.specs.promises.State.{held_both, held_goal, plan_size, size_in, shown_size, shown_total, PlanRoot, plan_on};

pub mod c_call;

use blocks::BLOCK;
pub use judging::{Denial, PlanRecord, Verdict};
pub use lamp::Lamp;
use limits::{COUNTS, accept_limits, plan_totals};
use plan_choices::CHOICES;
use prepared_model::{MODEL, prepare_model};
use prepared_question::{QUESTION, prepare_question};
pub use refusals::Refusal;
use sheets::GATHERED;

// The bytes of the longest model.
pub const MODEL_BYTES: usize = 6144;

// The desk, document 01's word for the judge's state: the blocks of a model (none: 0 blocks), the block of a question, and a verdict with
// the choices of its plan. Their room is fixed, so it stands beside the verdict and not in it; where no plan is held, it is zero.
#[derive(Clone, Copy)]
pub struct Desk {
    pub blocks: usize,
    pub model: [u8; MODEL_BYTES],
    pub question: Option<[u8; BLOCK]>,
    pub verdict: Option<Verdict>,
    pub choices: [u8; CHOICES],
}

// The answer of load and put, and the desk after it.
#[derive(Clone, Copy)]
pub struct Taking {
    pub answer: Result<(), Refusal>,
    pub desk: Desk,
}

// The answer of judge, and the desk after it; the choices of a shown plan stand beside the answer.
#[derive(Clone, Copy)]
pub struct Judging {
    pub answer: Result<Verdict, Refusal>,
    pub choices: [u8; CHOICES],
    pub desk: Desk,
}

// What check reports of a sheet that it accepts: whether the sheet's total meets the bound, and its lamp.
#[derive(Clone, Copy)]
pub struct Report {
    pub met: bool,
    pub lamp: Lamp,
}

// A desk that holds nothing.
pub fn empty() -> Desk
    ensures { result ≡ nothing }
{
    Desk {
        blocks: 0,
        model: [0u8; MODEL_BYTES],
        question: None,
        verdict: None,
        choices: [0u8; CHOICES],
    }
}

// The answer where a model or a question is refused: the desk stays.
fn turned_down(d: Desk, r: Refusal) -> Taking
    ensures { result ≡ record { answer = Err r; desk = d } }
{
    Taking {
        answer: Err(r),
        desk: d,
    }
}

// Loads a model, which clears the question and the verdict; or refuses it by grounds 1 to 7.
pub fn load(d: Desk, b: &[u8]) -> Taking
    ensures { result ≡ loaded_by d b.now }
{
    if let Err(r) = models::accept_model(b) {
        return turned_down(d, r);
    }
    let mut m = [0u8; MODEL_BYTES];
    blocks::buffers::copy(&mut m, b);
    Taking {
        answer: Ok(()),
        desk: Desk {
            blocks: b.len() / BLOCK,
            model: m,
            ..empty()
        },
    }
}

// Where the bytes of so many blocks end in a slice of this length.
fn blocks_end(len: usize, blocks: usize) -> usize
    ensures { result ≡ min (512 * blocks) len }
{
    if blocks <= len / BLOCK {
        return BLOCK * blocks;
    }
    len
}

// How many bytes of a desk's model are held: all that it says, if they are a model that load would accept, else none.
fn held_bytes(model: &[u8], blocks: usize) -> usize
    ensures { result ≡ held_size model.now blocks }
{
    let n = blocks_end(model.len(), blocks);
    if models::accept_model(&model[..n]).is_err() {
        return 0;
    }
    n
}

// Whether a question is accepted for the model in these bytes; else its ground, 1 to 6, 9 or 13.
fn accept_question(b: &[u8], model: &[u8]) -> Result<(), Refusal>
    ensures { let model = model.entry.now in let b = b.entry.now in
        refusal_number result ≡ refusal (read_question (byte model 2) (byte model 3) (byte model 4) b) }
{
    let states = models::state_count(model);
    let actions = models::action_count(model);
    let props = models::prop_count(model);
    questions::accept_question(b, states, actions, props)
}

// Puts a question, which clears the verdict; or refuses it by grounds 20, then 1 to 6, 9 and 13.
pub fn put(d: Desk, b: &[u8]) -> Taking
    ensures { result ≡ put_by d b.now }
{
    if held_bytes(&d.model, d.blocks) == 0 {
        return turned_down(d, Refusal::NoModel);
    }
    if let Err(r) = accept_question(b, &d.model) {
        return turned_down(d, r);
    }
    let mut q = [0u8; BLOCK];
    blocks::buffers::copy(&mut q, b);
    Taking {
        answer: Ok(()),
        desk: Desk {
            blocks: d.blocks,
            model: d.model,
            question: Some(q),
            ..empty()
        },
    }
}

// The block that was put; no bytes where none was.
fn question_bytes(question: &Option<[u8; BLOCK]>) -> &[u8]
    ensures { result.now ≡ question_block question.now }
{
    match question {
        Some(q) => q,
        None => &[],
    }
}

// Whether the desk holds a model and a question for it; else the ground on which judge is refused.
fn question_held(d: Desk) -> Result<(), Refusal>
    ensures { refusal_number result ≡ refusal (held_both (view d)) }
{
    if held_bytes(&d.model, d.blocks) == 0 {
        return Err(Refusal::NoModel);
    }
    let Some(q) = &d.question else {
        return Err(Refusal::NoQuestion);
    };
    if accept_question(q, &d.model).is_err() {
        return Err(Refusal::NoQuestion);
    }
    Ok(())
}

// The answer where judging is refused: the desk stays.
fn turned_away(d: Desk, r: Refusal) -> Judging
    ensures { result ≡ record { answer = Err r; choices = replicate 1365 0; desk = d } }
{
    Judging {
        answer: Err(r),
        choices: [0u8; CHOICES],
        desk: d,
    }
}

// What judging came to: the answer, and the choices of a shown plan beside it.
#[derive(Clone, Copy)]
pub struct Ruling {
    pub answer: Result<Verdict, Refusal>,
    pub choices: [u8; CHOICES],
}

// Judges a question on a model, the bytes of both accepted: grounds 24 and 25, then the verdict.
fn judged_on(m: &[u8], q: &[u8]) -> Ruling
    requires { (refusal (read_model m.now) ≡ 0)
        × (refusal (read_question (state_count m.now) (action_count m.now) (prop_count m.now) q.now) ≡ 0) }
    ensures { result ≡ ruling (judge_on (model_of m.now) (question_of q.now)) }
{
    let model = prepare_model(m);
    let query = prepare_question(q);
    let counts = plan_totals(&model, &query);
    let mut choices = [0u8; CHOICES];
    let answer = match accept_limits(&model, &query, &counts) {
        Ok(()) => Ok(judging::judged(&model, &query, &counts, &mut choices)),
        Err(r) => Err(r),
    };
    Ruling { answer, choices }
}

// Judges the question that is held and sets the verdict; or refuses by grounds 20, 21, 24, 25.
pub fn judge(d: Desk) -> Judging
    ensures { result ≡ judged_by d }
{
    if let Err(r) = question_held(d) {
        return turned_away(d, r);
    }
    let n = blocks_end(MODEL_BYTES, d.blocks);
    let Ruling { answer, choices } = judged_on(&d.model[..n], question_bytes(&d.question));
    match answer {
        Err(r) => turned_away(d, r),
        Ok(v) => Judging {
            answer: Ok(v),
            choices,
            desk: Desk {
                verdict: Some(v),
                choices,
                ..d
            },
        },
    }
}

// Whether the desk holds a question whose root sets a bound on plans; else the ground on which write and check are refused.
fn plan_asked(d: Desk) -> Result<(), Refusal>
    ensures { refusal_number result ≡ refusal (held_goal (view d)) }
{
    question_held(d)?;
    if !questions::root_sets_bound(question_bytes(&d.question)) {
        return Err(Refusal::NoBoundOnPlans);
    }
    Ok(())
}

// How many choices the n-step plan has with which these choices begin; 0 where they begin with none.
fn plan_size(m: &[u8], choices: &[u8], n: usize, s: usize) -> usize
    requires { (refusal (read_model m.now) ≡ 0) × (s < state_count m.now) }
    ensures { result ≡ plan_size n (read_plan (model_of m.now) n s choices.now) }
{
    sheets::plans::plan_end(m, choices, n, s, 0).unwrap_or(0)
}

// The same for the plan that the root of a question asks for.
fn first_size(model: &[u8], blocks: usize, q: &[u8], choices: &[u8]) -> usize
    requires { PlanRoot (take (512 * blocks) model.now) q.now }
    ensures { let model = model.entry.now in let q = q.entry.now in let choices = choices.entry.now in
        result ≡ size_in (choices_in (model_of (take (512 * blocks) model)) (question_of q) choices) }
{
    let n = blocks_end(model.len(), blocks);
    plan_size(
        &model[..n],
        choices,
        questions::root_steps(q) as usize,
        questions::start(q) as usize,
    )
}

// How many choices the shown plan has; 0 where none is shown.
fn shown_size(d: Desk) -> usize
    requires { refusal (held_goal (view d)) ≡ 0 }
    ensures { result ≡ shown_size (view d).verdict }
{
    let Some(verdict) = d.verdict else {
        return 0;
    };
    match verdict {
        Verdict::YesPlan(_) => {
            let q = question_bytes(&d.question);
            first_size(&d.model, d.blocks, q, &d.choices)
        }
        Verdict::Yes => 0,
        Verdict::No(_) => 0,
    }
}

// How many choices the plan has that is held as shown; 0 where there is none.
pub fn shown_choices(d: Desk) -> usize
    ensures { result ≡ shown_size (view d).verdict }
{
    if plan_asked(d).is_err() {
        return 0;
    }
    shown_size(d)
}

// The total in the record of a shown plan.
fn shown_total(v: Option<Verdict>) -> i64
    ensures { result ≡ shown_total v }
{
    let Some(verdict) = v else {
        return 0;
    };
    match verdict {
        Verdict::YesPlan(p) => p.total,
        Verdict::Yes => 0,
        Verdict::No(_) => 0,
    }
}

// The bytes of a sheet with so many choices.
fn sheet_size(count: usize) -> usize
    requires { count ≤ 1365 }
    ensures { result ≡ 512 * blocks_for count }
{
    BLOCK * sheets::blocks_for(count)
}

// Writes the shown plan's sheet into the first blocks of a lent buffer; or refuses by grounds 20 to 23, then 12, and leaves the buffer.
pub fn write(d: Desk, buf: &mut [u8]) -> Result<usize, Refusal>
    ensures value { result ≡ written_by d (length buf.old) }
    ensures frame { buf.new ≡ filled_by d buf.old }
{
    plan_asked(d)?;
    let count = shown_size(d);
    if count == 0 {
        return Err(Refusal::NoPlanShown);
    }
    if buf.len() < sheet_size(count) {
        return Err(Refusal::SmallBuffer);
    }
    let q = question_bytes(&d.question);
    let n = questions::root_steps(q);
    let s = questions::start(q);
    let w = shown_total(d.verdict);
    let model = &d.model[..blocks_end(MODEL_BYTES, d.blocks)];
    Ok(sheets::writer::write_sheet(buf, model, n, s, w, &d.choices[..count]))
}

// Writes the blocks of the held model into the first bytes of a lent buffer; or refuses by ground 20, then 12, and leaves the buffer.
pub fn write_model(d: Desk, buf: &mut [u8]) -> Result<usize, Refusal>
    ensures value { result ≡ model_written_by d (length buf.old) }
    ensures frame { buf.new ≡ model_filled_by d buf.old }
{
    let n = held_bytes(&d.model, d.blocks);
    if n == 0 {
        return Err(Refusal::NoModel);
    }
    if buf.len() < n {
        return Err(Refusal::SmallBuffer);
    }
    blocks::buffers::copy(buf, &d.model[..n]);
    Ok(n)
}

// Whether a sheet has a plan for a question that asks for one; else its ground, 1 to 6 or 10.
fn accept_sheet(m: &[u8], q: &[u8], b: &[u8]) -> Result<(), Refusal>
    requires { PlanRoot m.now q.now }
    ensures { let m = m.entry.now in let q = q.entry.now in let b = b.entry.now in
        refusal_number result ≡ refusal (plan_on (model_of m) (node_of q (node_count q - 1)).n (start_of q) b) }
{
    let n = questions::root_steps(q) as usize;
    let s = questions::start(q) as usize;
    sheets::accept_sheet(b, n, s)?;
    let mut choices = [0u8; GATHERED];
    let count = sheets::gather(b, &mut choices);
    sheets::plans::accept_plan(m, &choices[..count], n, s)
}

// The total of the plan on a sheet, whether it meets the bound of the question's root, and its lamp.
fn sheet_weighed(
    m: &[u16; MODEL],
    q: &[u8; QUESTION],
    counts: &[u64; COUNTS],
    b: &[u8],
) -> judging::Weighed
    requires { Served m.now q.now × Counted m.now q.now counts.now × (sets_bound (node_of q.now (node_count q.now - 1)).operator ≡ true) × Blocks 6 b.now
        × Spelled (model_in m.now) q.now (sheet_of b.now).choices }
    ensures { Weighs (model_in m.now) q.now (sheet_of b.now).choices result }
{
    let mut choices = [0u8; GATHERED];
    let count = sheets::gather(b, &mut choices);
    judging::sheet_total(m, q, counts, &choices[..count])
}

// Checks a sheet for a question that asks for a plan: grounds 24 and 25, those of the sheet, then 11.
fn check_on(m: &[u8], q: &[u8], b: &[u8]) -> Result<Report, Refusal>
    requires { PlanRoot m.now q.now }
    ensures { result ≡ checking (check_on (model_of m.now) (question_of q.now) b.now) }
{
    let model = prepare_model(m);
    let query = prepare_question(q);
    let counts = plan_totals(&model, &query);
    accept_limits(&model, &query, &counts)?;
    accept_sheet(m, q, b)?;
    let w = sheet_weighed(&model, &query, &counts, b);
    if sheets::total_at(b) != w.total {
        return Err(Refusal::WrongTotal);
    }
    Ok(Report {
        met: w.met,
        lamp: w.lamp,
    })
}

// Checks a sheet for the question that is held, and reports whether its total meets the bound, and its lamp; or refuses it by grounds 20, 21, 22, 24,
// 25, then 1 to 6, 10, 11.
pub fn check(d: Desk, b: &[u8]) -> Result<Report, Refusal>
    ensures { result ≡ checked_by d b.now }
{
    plan_asked(d)?;
    let n = blocks_end(MODEL_BYTES, d.blocks);
    check_on(&d.model[..n], question_bytes(&d.question), b)
}
