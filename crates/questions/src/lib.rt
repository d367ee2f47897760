// Reading questions: the grounds of refusal 1 to 6, 9 and 13, and the fields of a node. A node's number is a byte, so the readers are total.
#![tactic(auto, unfolding(crate::specs::Layout::node_of, crate::specs::Grounds::compares, crate::specs::Grounds::gain_bound, crate::specs::Grounds::plan_in_range, crate::specs::Grounds::span, crate::specs::Grounds::expected_bound, crate::specs::Grounds::earns_in_range, crate::specs::promises::Formed::sets_bound))]

ghost use Rattle.std.specs.Prelude.{◌≡◌, true, ◌&&◌, ◌+◌, ◌-◌, ◌≤◌, ◌<◌, min, ltb, length, get_or, take};
ghost use Rattle.logic.specs.Lists.{every};
ghost use Rattle.refusals.specs.Number.{refusal_number};
ghost use Rattle.logic.specs.promises.Refusal.{refusal};
ghost use Rattle.logic.specs.Formula.{depth, shallow, never, formula_of};
ghost use Rattle.blocks.specs.Bytes.{byte, zeros, within};
ghost use Rattle.questions.specs.Layout.{start_of, node_count, node_at, node_of, formulas_of, question_of};
ghost use Rattle.questions.specs.Grounds.{gain_bound, plan_bound, plan_in_range, expected_bound, earns_in_range, node_in_range, node_spare, spare_zero, read_question};
ghost use Rattle.questions.specs.Grounds as spec;
ghost use Rattle.questions.specs.promises.Formed.{sets_bound};
ghost use Rattle.questions.specs.promises.Tables.{formulas_before, table};
ghost use Rattle.questions.specs.promises.Passes.{Nodes, InRangeOfSome};

pub mod operators;
pub mod used;

use crate::operators::{Operator, Relation};
use crate::used::all_reached;
use refusals::Refusal;

// Where a question's fields stand in its block. Four spare bytes follow the node count; a question has at most 40 nodes of 12 bytes.
pub const START_AT: usize = 2;

pub const NODE_COUNT_AT: usize = 3;

const SPARE_AT: usize = 4;

const SPARE_SIZE: usize = NODES_AT - SPARE_AT;

pub const NODES_AT: usize = 8;

pub const NODE_SIZE: usize = 12;

pub const NODES: usize = 40;

// Where a node's cells stand after its operator, which is its first byte.
pub const STEPS_AT: usize = 1;

pub const LEFT_AT: usize = 2;

pub const RIGHT_AT: usize = 3;

pub const P_AT: usize = 4;

pub const Q_AT: usize = 8;

// The sizes of a node's cells from one of them to the end.
const FROM_STEPS: usize = NODE_SIZE - STEPS_AT;

const FROM_RIGHT: usize = NODE_SIZE - RIGHT_AT;

const FROM_P: usize = NODE_SIZE - P_AT;

// The ends of the ranges of n, of p in "gain" and of q in "plan".
const MOST_STEPS: usize = 6;

const LEAST_GAIN: i32 = -6000;

const MOST_GAIN: i32 = 6000;

const MOST_Q: usize = 1000000;

// The ends of the ranges of p and q of operator 9, and the base of its left byte: l + 8 u for the steps l to u.
const LEAST_EARNED: i32 = -6000000;

const MOST_EARNED: i32 = 6000000;

const MOST_EARNED_Q: usize = 1000;

pub const SPAN_BASE: u8 = 8;

// The start state.
pub fn start(b: &[u8]) -> u8
    ensures { result ≡ start_of b.now }
{
    blocks::byte(b, START_AT)
}

pub fn node_count(b: &[u8]) -> u8
    ensures { result ≡ node_count b.now }
{
    blocks::byte(b, NODE_COUNT_AT)
}

// Where node i stands.
fn node_at(i: u8) -> usize
    ensures value { result ≡ node_at i }
    ensures range { result < 3080 }
{
    NODES_AT + NODE_SIZE * usize::from(i)
}

pub fn operator(b: &[u8], i: u8) -> u8
    ensures { result ≡ (node_of b.now i).operator }
{
    blocks::byte(b, node_at(i))
}

// The byte of node i at a place after its operator.
fn cell(b: &[u8], i: u8, at: usize) -> u8
    requires { at < 12 }
    ensures { result ≡ byte b.now (node_at i + at) }
{
    blocks::byte(b, node_at(i) + at)
}

// The n of "gain", "plan" or operator 9.
pub fn steps(b: &[u8], i: u8) -> u8
    ensures { result ≡ (node_of b.now i).n }
{
    cell(b, i, STEPS_AT)
}

pub fn left(b: &[u8], i: u8) -> u8
    ensures { result ≡ (node_of b.now i).left }
{
    cell(b, i, LEFT_AT)
}

pub fn right(b: &[u8], i: u8) -> u8
    ensures { result ≡ (node_of b.now i).right }
{
    cell(b, i, RIGHT_AT)
}

pub fn p(b: &[u8], i: u8) -> i32
    ensures { result ≡ (node_of b.now i).p }
{
    blocks::i32_at(b, node_at(i) + P_AT)
}

pub fn q(b: &[u8], i: u8) -> u32
    ensures { result ≡ (node_of b.now i).q }
{
    blocks::u32_at(b, node_at(i) + Q_AT)
}

// The number of a question's root, its last node.
pub fn root(q: &[u8]) -> u8
    ensures { result ≡ node_count q.now - 1 }
{
    let count = node_count(q);
    if count == 0 {
        return 0;
    }
    count - 1
}

// Whether an operator sets a bound on plans: "plan", or 9.
pub fn sets_bound(operator: u8) -> bool
    ensures { result ≡ sets_bound operator }
{
    (operator == Operator::Plan as u8) | (operator == Operator::Earns as u8)
}

// Whether the root's operator sets a bound on plans.
pub fn root_sets_bound(q: &[u8]) -> bool
    ensures { result ≡ sets_bound (node_of q.now (node_count q.now - 1)).operator }
{
    sets_bound(operator(q, root(q)))
}

// The steps of a root that sets a bound on plans.
pub fn root_steps(q: &[u8]) -> u8
    ensures { result ≡ (node_of q.now (node_count q.now - 1)).n }
{
    steps(q, root(q))
}

// Whether a number stands for a relation.
fn relation_in_range(relation: u8) -> bool
    ensures { result ≡ within 1 3 relation }
{
    Relation::try_from(relation).is_ok()
}

// Whether the steps and the relation of node i, a "gain", a "plan" or of operator 9, are in range.
fn compares(b: &[u8], i: u8) -> bool
    ensures { result ≡ spec.compares (node_of b.now i) }
{
    blocks::within(1, MOST_STEPS, usize::from(steps(b, i))) & relation_in_range(right(b, i))
}

fn gain_bound(p: i32, q: u32) -> bool
    ensures { result ≡ gain_bound p q }
{
    (q == 1) & (LEAST_GAIN <= p) & (p <= MOST_GAIN)
}

fn plan_bound(p: i32, q: u32) -> bool
    ensures { result ≡ plan_bound p q }
{
    if !blocks::within(1, MOST_Q, q as usize) {
        return false;
    }
    (0 <= p) & (p <= q as i32)
}

fn plan_in_range(b: &[u8], i: u8) -> bool
    ensures { result ≡ plan_in_range i (node_of b.now i) }
{
    compares(b, i) & (left(b, i) < i) & plan_bound(p(b, i), q(b, i))
}

// Whether a left byte l + 8 u has 1 ≤ l ≤ u ≤ n.
fn span(left: u8, n: u8) -> bool
    ensures { result ≡ spec.span left n }
{
    let l = left % SPAN_BASE;
    let u = left / SPAN_BASE;
    (0 < l) & (l <= u) & (u <= n)
}

fn expected_bound(p: i32, q: u32) -> bool
    ensures { result ≡ expected_bound p q }
{
    blocks::within(1, MOST_EARNED_Q, q as usize) & (LEAST_EARNED <= p) & (p <= MOST_EARNED)
}

fn earns_in_range(b: &[u8], i: u8) -> bool
    ensures { result ≡ earns_in_range (node_of b.now i) }
{
    compares(b, i) & span(left(b, i), steps(b, i)) & expected_bound(p(b, i), q(b, i))
}

// Ground 5 of node i.
fn node_in_range(b: &[u8], i: u8, actions: usize, props: usize) -> bool
    ensures { result ≡ node_in_range actions props i (node_of b.now i) }
{
    let Ok(operator) = Operator::try_from(operator(b, i)) else {
        return false;
    };
    match operator {
        Operator::False => true,
        Operator::Prop => usize::from(left(b, i)) < props,
        Operator::Not | Operator::Next => left(b, i) < i,
        Operator::And => (left(b, i) < i) & (right(b, i) < i),
        Operator::Do => usize::from(left(b, i)) < actions,
        Operator::Gain => compares(b, i) & gain_bound(p(b, i), q(b, i)),
        Operator::Plan => plan_in_range(b, i),
        Operator::Earns => earns_in_range(b, i),
    }
}

// Whether the node at a place, which uses the left cell alone, has zeros in the others.
fn only_left(b: &[u8], at: usize) -> bool
    requires { at + 12 ≤ length b.now }
    ensures { let b = b.entry.now in
        result ≡ (zeros b (at + 1) 1 && zeros b (at + 3) 1 && zeros b (at + 4) 8) }
{
    blocks::zeros(b, at + STEPS_AT, 1) & blocks::zeros(b, at + RIGHT_AT, FROM_RIGHT)
}

// Ground 6 of node i.
fn node_spare(b: &[u8], i: u8) -> bool
    requires { (length b.now ≡ 512) × (i < 40) }
    ensures { result ≡ node_spare b.now i }
{
    let at = node_at(i);
    let Ok(operator) = Operator::try_from(operator(b, i)) else {
        return true;
    };
    match operator {
        Operator::False => blocks::zeros(b, at + STEPS_AT, FROM_STEPS),
        Operator::Prop | Operator::Do => only_left(b, at),
        Operator::Not | Operator::Next => only_left(b, at),
        Operator::And => blocks::zeros(b, at + STEPS_AT, 1) & blocks::zeros(b, at + P_AT, FROM_P),
        Operator::Gain => blocks::zeros(b, at + LEFT_AT, 1),
        Operator::Plan | Operator::Earns => true,
    }
}

// How many nodes a table holds: the node count, at most 40.
fn nodes_held(b: &[u8]) -> u8
    ensures { result ≡ min (node_count b.now) 40 }
{
    node_count(b).min(NODES as u8)
}

// The depth of a child of node i, from the table; 0 for a node that is not before i.
fn child_depth(depths: &[u32; NODES], i: u8, child: u8) -> u32
    requires { i ≤ 40 }
    ensures { result ≡ get_or (take i depths.now) child 0 }
{
    if child < i {
        return depths[usize::from(child)];
    }
    0
}

// The depth of node i, from those of the nodes before it.
fn node_depth(b: &[u8], depths: &[u32; NODES], i: u8) -> u32
    requires { (i < 40) × (depths.now ≡ table depth (formulas_before b.now i)) }
    ensures { result ≡ depth (formula_of (formulas_before b.now i) (node_of b.now i)) }
{
    let Ok(operator) = Operator::try_from(operator(b, i)) else {
        return 0;
    };
    match operator {
        Operator::Not => child_depth(depths, i, left(b, i)),
        Operator::And => child_depth(depths, i, left(b, i)).max(child_depth(
            depths,
            i,
            right(b, i),
        )),
        Operator::Do => 1,
        Operator::Next => child_depth(depths, i, left(b, i)) + 1,
        Operator::Gain => u32::from(steps(b, i)),
        Operator::False | Operator::Prop | Operator::Plan | Operator::Earns => 0,
    }
}

// The depths of all nodes.
pub fn depth_table(b: &[u8]) -> [u32; NODES]
    ensures { result ≡ table depth (formulas_of b.now) }
{
    let mut depths = [0; NODES];
    for i in 0..nodes_held(b) {
        depths[usize::from(i)] = node_depth(b, &depths, i);
    }
    depths
}

// Ground 9 of node i: a "plan" has no child too deep.
fn node_shallow(b: &[u8], depths: &[u32; NODES], i: u8) -> bool
    requires { (i < node_count b.now) × (i < 40) × (depths.now ≡ table depth (formulas_of b.now)) }
    ensures { result ≡ shallow (get_or (formulas_of b.now) i never) }
{
    if operator(b, i) != Operator::Plan as u8 {
        return true;
    }
    child_depth(depths, i, left(b, i)) <= u32::from(steps(b, i))
}

// Ground 5.
fn nodes_in_range(b: &[u8], actions: usize, props: usize) -> bool
    ensures { result ≡ every (node_count b.now) (λ i. node_in_range actions props i (node_of b.now i)) }
{
    (0..node_count(b)).all(|i| node_in_range(b, i, actions, props))
}

// Ground 6 of the nodes.
fn nodes_spare(b: &[u8]) -> bool
    requires { (length b.now ≡ 512) × (node_count b.now ≤ 40) }
    ensures { result ≡ every (node_count b.now) (node_spare b.now) }
{
    (0..node_count(b)).all(|i| node_spare(b, i))
}

// Ground 6: of the nodes, and of the bytes before and after them.
fn spare_zero(b: &[u8]) -> bool
    requires { (length b.now ≡ 512) × (node_count b.now ≤ 40) }
    ensures { result ≡ spare_zero b.now }
{
    let end = node_at(node_count(b));
    blocks::zeros(b, SPARE_AT, SPARE_SIZE)
        & nodes_spare(b)
        & blocks::zeros(b, end, blocks::LAST_WORD - end)
}

// Ground 9 of the nodes.
fn nodes_shallow(b: &[u8], depths: &[u32; NODES]) -> bool
    requires { Nodes b.now depths.now }
    ensures { result ≡ every (node_count b.now) (λ i. shallow (get_or (formulas_of b.now) i never)) }
{
    (0..node_count(b)).all(|i| node_shallow(b, depths, i))
}

// Ground 9. By ground 5 "gain" has a step, so that the path formulas are those of some depth.
fn formed(b: &[u8], depths: &[u32; NODES]) -> bool
    requires { Nodes b.now depths.now × InRangeOfSome b.now }
    ensures { result ≡ spec.formed (question_of b.now) }
{
    let root = usize::from(node_count(b)) - 1;
    (depths[root] == 0) & nodes_shallow(b, depths)
}

// Ground 4.
fn counts_right(b: &[u8], states: usize) -> bool
    ensures { result ≡ (ltb (start_of b.now) states && within 1 40 (node_count b.now)) }
{
    (usize::from(start(b)) < states) & blocks::within(1, NODES, usize::from(node_count(b)))
}

// Accepts a question's bytes for a model of so many states, actions and propositions, or gives the first ground on which they are refused.
#[tactic(auto, unfolding(crate::specs::Grounds::read_question))]
pub fn accept_question(b: &[u8], states: usize, actions: usize, props: usize) -> Result<(), Refusal>
    ensures { refusal_number result ≡ refusal (read_question states actions props b.now) }
{
    if !blocks::whole_blocks(b, 1, 1) {
        return Err(Refusal::BlockCount);
    }
    if !blocks::sums_right(b) {
        return Err(Refusal::WordSum);
    }
    if !blocks::headed(b, 0, blocks::Kind::Question as usize, 0) {
        return Err(Refusal::Heading);
    }
    if !counts_right(b, states) {
        return Err(Refusal::HeadFields);
    }
    if !nodes_in_range(b, actions, props) {
        return Err(Refusal::FieldRange);
    }
    if !spare_zero(b) {
        return Err(Refusal::SpareBytes);
    }
    let depths = depth_table(b);
    if !formed(b, &depths) {
        return Err(Refusal::NotFormed);
    }
    if !all_reached(b) {
        return Err(Refusal::UnreachedNode);
    }
    Ok(())
}
