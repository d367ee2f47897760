// Replays a list of calls from standard input on a desk that begins empty, and prints a line for each: what second/README.md describes, so
// that the two can be compared. Operation 7 is no call: it puts another desk in the place of the last one, so that calls are tried on desks
// that no call gave back. A record that is cut short, too long or of another operation ends the list.
#![tactic(auto)]

ghost use Rattle.std.specs.Prelude.{◌+◌, ◌≤◌, ◌≡◌, length};

use plan_judge::{
    Denial, Desk, Judging, MODEL_BYTES, PlanRecord, Refusal, Report, Taking, Verdict,
};
use std::io::{Stdin, Stdout};
use verdict_line::LINE;

// The modulus of the checksum Adler-32, by which the lines tell bytes.
const ADLER: u32 = 65521;

// Room for a call's record.
const RECORD: usize = 16384;

// What a record asks for.
#[derive(Clone, Copy)]
enum Operation {
    Load,
    Put,
    Judge,
    Write,
    Check,
    WriteModel,
    LayDesk,
}

// The operation of a record's first byte, if there is one.
fn operation_of(byte: u8) -> Option<Operation> {
    match byte {
        1 => Some(Operation::Load),
        2 => Some(Operation::Put),
        3 => Some(Operation::Judge),
        4 => Some(Operation::Write),
        5 => Some(Operation::Check),
        6 => Some(Operation::WriteModel),
        7 => Some(Operation::LayDesk),
        _ => None,
    }
}

// ---- the words of each answer, put behind what stands in the line already

fn put_refused(out: &mut [u8], at: usize, r: Refusal) -> usize
    requires { at + 29 ≤ length out.old }
    ensures { result ≤ at + 29 }
{
    verdict_line::put_decimal(out, at, b" refused ", u64::from(r.number()))
}

fn put_taken(out: &mut [u8], at: usize, answer: Result<(), Refusal>) -> usize
    requires { at + 29 ≤ length out.old }
    ensures { result ≤ at + 29 }
{
    match answer {
        Ok(()) => verdict_line::put_text(out, at, b" done"),
        Err(r) => put_refused(out, at, r),
    }
}

fn put_plan(out: &mut [u8], at: usize, p: PlanRecord, choices: &[u8]) -> usize
    requires { (at + 5600 ≤ length out.old) × (length choices.now ≤ 1365) }
    ensures { result ≤ at + 5600 }
{
    let mut next = verdict_line::put_signed(out, at, b" yes ", p.total);
    next = verdict_line::put_decimal(out, next, b" ", u64::from(p.steps));
    next = verdict_line::put_lamp(out, next, p.lamp);
    next = verdict_line::put_decimal(out, next, b" ", u64::from(p.count));
    next = verdict_line::put_text(out, next, b" choices");
    verdict_line::put_choices(out, next, choices)
}

fn put_denial(out: &mut [u8], at: usize, x: Denial) -> usize
    requires { at + 30 ≤ length out.old }
    ensures { result ≤ at + 30 }
{
    let next = verdict_line::put_decimal(out, at, b" no ", u64::from(x.count));
    verdict_line::put_optional(out, next, x.lamp)
}

fn put_verdict(out: &mut [u8], at: usize, v: Verdict, choices: &[u8]) -> usize
    requires { (at + 5600 ≤ length out.old) × (length choices.now ≤ 1365) }
    ensures { result ≤ at + 5600 }
{
    match v {
        Verdict::No(x) => put_denial(out, at, x),
        Verdict::Yes => verdict_line::put_text(out, at, b" yes"),
        Verdict::YesPlan(p) => put_plan(out, at, p, choices),
    }
}

fn put_judged(out: &mut [u8], at: usize, r: Judging) -> usize
    requires { at + 5600 ≤ length out.old }
    ensures { result ≤ at + 5600 }
{
    let Judging {
        answer,
        choices,
        desk,
    } = r;
    match answer {
        Ok(v) => {
            let count = plan_judge::shown_choices(desk);
            put_verdict(out, at, v, &choices[..count])
        }
        Err(k) => put_refused(out, at, k),
    }
}

fn put_written(out: &mut [u8], at: usize, answer: Result<usize, Refusal>) -> usize
    requires { at + 29 ≤ length out.old }
    ensures { result ≤ at + 29 }
{
    match answer {
        Ok(n) => verdict_line::put_decimal(out, at, b" ", n as u64),
        Err(r) => put_refused(out, at, r),
    }
}

fn put_met(out: &mut [u8], at: usize, met: bool) -> usize
    requires { at + 29 ≤ length out.old }
    ensures { result ≤ at + 29 }
{
    if met {
        return verdict_line::put_text(out, at, b" accepted met");
    }
    verdict_line::put_text(out, at, b" accepted unmet")
}

fn put_report(out: &mut [u8], at: usize, r: Report) -> usize
    requires { at + 35 ≤ length out.old }
    ensures { result ≤ at + 35 }
{
    let next = put_met(out, at, r.met);
    verdict_line::put_lamp(out, next, r.lamp)
}

fn put_checked(out: &mut [u8], at: usize, answer: Result<Report, Refusal>) -> usize
    requires { at + 35 ≤ length out.old }
    ensures { result ≤ at + 35 }
{
    match answer {
        Ok(report) => put_report(out, at, report),
        Err(r) => put_refused(out, at, r),
    }
}

// The two Adler sums of a buffer, a short stand-in for its bytes.
#[derive(Clone, Copy)]
struct Sums {
    a: u32,
    b: u32,
}

fn adler(bytes: &[u8]) -> Sums {
    let mut a: u32 = 1;
    let mut b: u32 = 0;
    for byte in bytes {
        a = (a + u32::from(*byte)) % ADLER;
        b = (b + a) % ADLER;
    }
    Sums { a, b }
}

fn put_sums(out: &mut [u8], at: usize, bytes: &[u8]) -> usize
    requires { at + 42 ≤ length out.old }
    ensures { result ≤ at + 42 }
{
    let sums = adler(bytes);
    let next = verdict_line::put_decimal(out, at, b" ", u64::from(sums.a));
    verdict_line::put_decimal(out, next, b" ", u64::from(sums.b))
}

// ---- each call with its line

// Ends the line and writes it.
fn say(to: &mut Stdout, out: &mut [u8], at: usize)
    requires { at + 1 ≤ length out.old }
{
    let end = verdict_line::put_text(out, at, b"\n");
    streams::write_all(to, &out[..end]);
}

fn load(to: &mut Stdout, desk: Desk, input: &[u8], out: &mut [u8; LINE]) -> Desk {
    let Taking { answer, desk } = plan_judge::load(desk, input);
    let name = verdict_line::put_text(out, 0, b"load");
    let end = put_taken(out, name, answer);
    say(to, out, end);
    desk
}

fn put(to: &mut Stdout, desk: Desk, input: &[u8], out: &mut [u8; LINE]) -> Desk {
    let Taking { answer, desk } = plan_judge::put(desk, input);
    let name = verdict_line::put_text(out, 0, b"put");
    let end = put_taken(out, name, answer);
    say(to, out, end);
    desk
}

fn judge(to: &mut Stdout, desk: Desk, out: &mut [u8; LINE]) -> Desk {
    let r = plan_judge::judge(desk);
    let name = verdict_line::put_text(out, 0, b"judge");
    let end = put_judged(out, name, r);
    say(to, out, end);
    r.desk
}

fn write(to: &mut Stdout, desk: Desk, buffer: &mut [u8], out: &mut [u8; LINE]) {
    let a = plan_judge::write(desk, buffer);
    let name = verdict_line::put_text(out, 0, b"write");
    let next = put_written(out, name, a);
    let end = put_sums(out, next, buffer);
    say(to, out, end);
}

fn write_model(to: &mut Stdout, desk: Desk, buffer: &mut [u8], out: &mut [u8; LINE]) {
    let a = plan_judge::write_model(desk, buffer);
    let name = verdict_line::put_text(out, 0, b"write-model");
    let next = put_written(out, name, a);
    let end = put_sums(out, next, buffer);
    say(to, out, end);
}

fn check(to: &mut Stdout, desk: Desk, input: &[u8], out: &mut [u8; LINE]) {
    let a = plan_judge::check(desk, input);
    let name = verdict_line::put_text(out, 0, b"check");
    let end = put_checked(out, name, a);
    say(to, out, end);
}

// ---- a desk put together by hand

// A desk that no call gave back: the number of blocks that it says it has, in 8 bytes, then its room for a model, whatever that holds.
fn by_hand(input: &[u8]) -> Desk
    requires { length input.now ≡ 6152 }
{
    let mut model = [0u8; MODEL_BYTES];
    model.copy_from_slice(&input[8..]);
    Desk {
        blocks: blocks::u64_at(input, 0) as usize,
        model,
        ..plan_judge::empty()
    }
}

// It takes the place of the last desk; a record of another length ends the list.
fn lay(to: &mut Stdout, input: &[u8], out: &mut [u8; LINE]) -> Option<Desk> {
    if input.len() != 8 + MODEL_BYTES {
        return None;
    }
    let name = verdict_line::put_text(out, 0, b"desk");
    say(to, out, name);
    Some(by_hand(input))
}

// ---- the list

// The desk after the call, or none where the list ends.
fn call(
    to: &mut Stdout,
    desk: Desk,
    operation: Operation,
    input: &mut [u8],
    out: &mut [u8; LINE],
) -> Option<Desk> {
    match operation {
        Operation::Load => return Some(load(to, desk, input, out)),
        Operation::Put => return Some(put(to, desk, input, out)),
        Operation::Judge => return Some(judge(to, desk, out)),
        Operation::Write => write(to, desk, input, out),
        Operation::Check => check(to, desk, input, out),
        Operation::WriteModel => write_model(to, desk, input, out),
        Operation::LayDesk => return lay(to, input, out),
    }
    Some(desk)
}

// Reads one record into the lent buffer, and makes its call. A record that is cut short, too long or of no operation ends the list.
fn replay_one(
    from: &mut Stdin,
    to: &mut Stdout,
    desk: Desk,
    space: &mut [u8],
    out: &mut [u8; LINE],
) -> Option<Desk> {
    let mut head = [0u8; 5];
    if streams::read_full(from, &mut head).count < 5 {
        return None;
    }
    let n = blocks::u32_at(&head, 1) as usize;
    if space.len() < n {
        return None;
    }
    if streams::read_full(from, &mut space[..n]).count < n {
        return None;
    }
    // Only now, so that a record of no operation is read whole before it ends the list.
    let operation = operation_of(head[0])?;
    call(to, desk, operation, &mut space[..n], out)
}

// A proved loop has to end, and nothing says that the input does: it counts up to a number that no run reaches.
fn replay_all(from: &mut Stdin, to: &mut Stdout, space: &mut [u8], out: &mut [u8; LINE]) {
    let mut desk = plan_judge::empty();
    for _ in 0..u64::MAX {
        match replay_one(from, to, desk, space, out) {
            Some(next) => desk = next,
            None => return,
        }
    }
}

fn main(rt: HostRuntime) {
    let mut space = [0u8; RECORD];
    let mut line = [0u8; LINE];
    replay_all(&mut rt.stdin(), &mut rt.stdout(), &mut space, &mut line);
}
