// Conditions in a state: what is left of one when the state formulas that it joins are read there, and its best total, searched once.
ghost use Rattle.std.specs.Prelude.{◌≡◌, ◌≤◌, ◌<◌, length};
ghost use Rattle.logic.specs.Formula as formulas;
ghost use Rattle.prepared_question.specs.promises.Nodes.{formula};
ghost use Rattle.relevance.specs.promises.Need.{Given};
ghost use Rattle.judging.specs.promises.Conditions.{Stands, Peels, best_total, Searched, memo_place, Remembers};

use crate::BESTS;
use best_plan::{Found, find};
use blocks::byte;
use evaluation::{TRUTHS, bit};
use prepared_model::MODEL;
use prepared_question::{DEPTHS, QUESTION, depth};
use questions::NODES;
use questions::operators::Operator;
use relevance::{cone, place};

// Takes one state formula off c, where c is "and" of one and another node; where that formula is false nothing is left. It asks nothing of its
// numbers, so it reads them with a test.
fn peel_one(q: &[u8; QUESTION], truth: &[u8; TRUTHS], c: u8, s: u8) -> Option<u8>
    ensures { Peels q.now truth.now c s result }
{
    if questions::operator(q, c) != Operator::And as u8 {
        return Some(c);
    }
    let a = questions::left(q, c);
    let b = questions::right(q, c);
    if byte(q, DEPTHS + a as usize) == 0 {
        if byte(truth, place(a, s)) == 0 {
            return None;
        }
        return Some(b);
    }
    if byte(q, DEPTHS + b as usize) == 0 {
        if byte(truth, place(b, s)) == 0 {
            return None;
        }
        return Some(a);
    }
    Some(c)
}

// Takes all state formulas off c that it joins: nothing is left where c is false on every path, else a node that means the same in s.
pub fn peel(q: &[u8; QUESTION], truth: &[u8; TRUTHS], c: u8, s: u8) -> Option<u8>
    ensures { Peels q.now truth.now c s result }
{
    let mut at = c;
    loop {
        let node = peel_one(q, truth, at, s)?;
        if at <= node {
            return Some(node);
        }
        at = node;
    }
}

// Searches for the plan of greatest total, or of least, as deep as condition c looks.
pub fn searched(
    m: &[u16; MODEL],
    q: &[u8; QUESTION],
    truth: &[u8; TRUTHS],
    scratch: &mut [u8],
    c: u8,
    s: u8,
    least: bool,
) -> Found
    requires given { Given m.now q.now × Stands m.now q.now truth.now c s }
    requires c_bound { (formulas.depth (formula q.now c) ≤ 6) × (4095 ≤ length scratch.old) }
    ensures { Searched m.now q.now c s least scratch.new result }
{
    let d = depth(q, c);
    let mut nodes = [0u8; NODES];
    let k = cone(q, c, &mut nodes);
    find(m, q, truth, &nodes[..k], scratch, s, d, least)
}

// Where the best total of c in s is remembered.
fn memo_at(c: u8, s: u8, least: bool) -> usize
    ensures { result ≡ memo_place c s least }
{
    64 * c as usize + 2 * s as usize + bit(least) as usize
}

// The best total of condition c in s: remembered, or searched and remembered.
pub fn best_value(
    m: &[u16; MODEL],
    q: &[u8; QUESTION],
    truth: &[u8; TRUTHS],
    scratch: &mut [u8],
    memo: &mut [u64; BESTS],
    c: u8,
    s: u8,
    least: bool,
) -> u64
    requires given { Given m.now q.now × Stands m.now q.now truth.now c s }
    requires c_bound { (formulas.depth (formula q.now c) ≤ 6) × (4095 ≤ length scratch.old) × Remembers m.now q.now memo.old }
    ensures value { result ≡ best_total m.now q.now c s least }
    ensures frame { Remembers m.now q.now memo.new }
{
    let k = memo_at(c, s, least);
    let known = memo[k];
    if known != 0 {
        return known - 1;
    }
    let r = searched(m, q, truth, scratch, c, s, least);
    let value = r.value;
    memo[k] = 1 + value;
    value
}
