// The one line that the program `verdict` prints, formed in a lent buffer; what `whynot` prints of a no (`reason_lines`).
#![tactic(auto)]

ghost use mathlib.Core.List.{◌++◌, flat_map};
ghost use Rattle.std.specs.Prelude.{◌≡◌, ◌+◌, ◌*◌, ◌≤◌, true, false, length, MatchOption};
ghost use Rattle.blocks.specs.Bytes.{within};
ghost use Rattle.lamp.specs.Said.{said_lamp, said_optional};
ghost use Rattle.verdict_line.specs.Text.{decimal, signed_decimal, numbered, Put};
ghost use Rattle.verdict_line.specs.Line.{model_part, question_part, lamp_word, optional_word, refused_line, plain_line, no_plans_line, yes_plan_line};

pub mod reason_lines;

use blocks::BLOCK;
use lamp::Lamp;

// The most bytes of a program's input: a model of 12 blocks, and a question.
pub const MOST_INPUT: usize = 6656;

// Room for the longest line.
pub const LINE: usize = 8192;

// The model and the question that an input holds, the question in its last block; none where the input is too short or too long for both.
pub fn parts(input: &[u8]) -> Option<(&[u8], &[u8])>
    ensures { MatchOption result (within 512 6656 (length input.now) ≡ false)
        (λ p. (within 512 6656 (length input.now) ≡ true) × (p.0.now ≡ model_part input.now) × (p.1.now ≡ question_part input.now)) }
{
    if !blocks::within(BLOCK, MOST_INPUT, input.len()) {
        return None;
    }
    Some(input.split_at(input.len() - BLOCK))
}

// Writes a text at a place; gives the place after it.
pub fn put_text(out: &mut [u8], at: usize, text: &[u8]) -> usize
    requires { at + length text.now ≤ length out.old }
    ensures { Put text.now out.old out.new at result }
{
    blocks::buffers::copy(&mut out[at..], text);
    at + text.len()
}

// Writes a text and a number after it.
pub fn put_decimal(out: &mut [u8], at: usize, text: &[u8], n: u64) -> usize
    requires { at + (length text.now + 20) ≤ length out.old }
    ensures effect { Put (text.now ++ decimal n) out.old out.new at result }
    ensures range { result ≤ at + (length text.now + 20) }
{
    let mut digits = [0u8; 20];
    let k = io::decimal(n, &mut digits);
    let next = put_text(out, at, text);
    put_text(out, next, &digits[..k])
}

// Writes a text and a number after it, which has a minus where it is below 0.
pub fn put_signed(out: &mut [u8], at: usize, text: &[u8], z: i64) -> usize
    requires { at + (length text.now + 21) ≤ length out.old }
    ensures effect { Put (text.now ++ signed_decimal z) out.old out.new at result }
    ensures range { result ≤ at + (length text.now + 21) }
{
    if z < 0 {
        let next = put_text(out, at, text);
        return put_decimal(out, next, b"-", blocks::below_minus_one(z) + 1);
    }
    put_decimal(out, at, text, z as u64)
}

// Writes a space and the number for each choice.
pub fn put_choices(out: &mut [u8], at: usize, choices: &[u8]) -> usize
    requires { at + (4 * length choices.now + 21) ≤ length out.old }
    ensures effect { Put (flat_map (numbered " ") choices.now) out.old out.new at result }
    ensures range { result ≤ at + 4 * length choices.now }
{
    let mut next = at;
    for choice in choices {
        next = put_decimal(out, next, b" ", u64::from(*choice));
    }
    next
}

// Writes a lamp's word after a space.
pub fn put_lamp(out: &mut [u8], at: usize, lamp: Lamp) -> usize
    requires { at + 6 ≤ length out.old }
    ensures effect { Put (lamp_word (said_lamp lamp)) out.old out.new at result }
    ensures range { result ≤ at + 6 }
{
    match lamp {
        Lamp::Below => put_text(out, at, b" below"),
        Lamp::At => put_text(out, at, b" at"),
        Lamp::Above => put_text(out, at, b" above"),
    }
}

// The same, or nothing where there is no lamp.
pub fn put_optional(out: &mut [u8], at: usize, lamp: Option<Lamp>) -> usize
    requires { at + 6 ≤ length out.old }
    ensures effect { Put (optional_word (said_optional lamp)) out.old out.new at result }
    ensures range { result ≤ at + 6 }
{
    match lamp {
        None => at,
        Some(l) => put_lamp(out, at, l),
    }
}

// A refusal's line. Every line leaves what stands behind it in the buffer.
pub fn refused_line(out: &mut [u8], k: u32) -> usize
    requires { 8192 ≤ length out.old }
    ensures { Put (refused_line k) out.old out.new 0 result }
{
    let next = put_decimal(out, 0, b"refused ", k as u64);
    put_text(out, next, b"\n")
}

// The line of a root that sets no bound on plans.
pub fn plain_line(out: &mut [u8], yes: bool) -> usize
    requires { 8192 ≤ length out.old }
    ensures { Put (plain_line yes) out.old out.new 0 result }
{
    if yes {
        return put_text(out, 0, b"yes\n");
    }
    put_text(out, 0, b"no\n")
}

// The line of a no to a root that sets a bound on plans.
pub fn no_plans_line(out: &mut [u8], count: u32, lamp: Option<Lamp>) -> usize
    requires { 8192 ≤ length out.old }
    ensures { Put (no_plans_line count (said_optional lamp)) out.old out.new 0 result }
{
    let mut next = put_decimal(out, 0, b"no plans ", count as u64);
    next = put_optional(out, next, lamp);
    put_text(out, next, b"\n")
}

// The line of a yes with a plan: at most 1365 choices of at most 3 digits, so that it is shorter than 8192 bytes.
pub fn yes_plan_line(
    out: &mut [u8],
    total: i64,
    whole: u64,
    lamp: Lamp,
    count: u32,
    choices: &[u8],
) -> usize
    requires { (8192 ≤ length out.old) × (length choices.now ≤ 1365) }
    ensures { let out' = out.exit.now in let out = out.entry.now in let choices = choices.entry.now in
        Put (yes_plan_line total whole (said_lamp lamp) count choices) out out' 0 result }
{
    let mut next = put_signed(out, 0, b"yes ", total);
    next = put_decimal(out, next, b"/", whole);
    next = put_lamp(out, next, lamp);
    next = put_decimal(out, next, b" plans ", count as u64);
    next = put_text(out, next, b" choices");
    next = put_choices(out, next, choices);
    put_text(out, next, b"\n")
}
