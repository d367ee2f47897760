// The question prepared for judging: one array, made once. Its nodes point past every "and" whose two halves are one node (the judge values
// each node that it meets, and such a node has its half's value), and the depth of each stands behind the block.
#![tactic(auto, unfolding(questions::specs::Layout::node_of, crate::specs::promises::Replaced::past, crate::specs::promises::Replaced::doubled, crate::specs::promises::Replaced::left_for, crate::specs::promises::Replaced::right_for))]

ghost use Rattle.std.specs.Prelude.{◌≡◌, ℕ, ◌+◌, ◌<◌, eqb, length, get_or};
ghost use Rattle.logic.specs.promises.Refusal.{refusal};
ghost use Rattle.logic.specs.Formula as formulas;
ghost use Rattle.questions.specs.Layout.{start_of, node_at, node_of};
ghost use Rattle.questions.specs.Layout as layout;
ghost use Rattle.questions.specs.Grounds.{read_question};
ghost use Rattle.prepared_question.specs.promises.Nodes.{formula, depth_in};
ghost use Rattle.prepared_question.specs.promises.Shared.{Shared};
ghost use Rattle.prepared_question.specs.promises.Replaced.{ChildrenBefore, left_for, right_for, Pointed};
ghost use Rattle.prepared_question.specs.promises.Replaced as replaced;

use questions::operators::{Operator, Relation};
use questions::used::has_left;
use questions::{
    LEFT_AT, NODE_COUNT_AT, NODE_SIZE, NODES_AT, P_AT, Q_AT, RIGHT_AT, START_AT, STEPS_AT,
};

// The bytes of a prepared question: its block, and the depth of each of 40 nodes.
pub const QUESTION: usize = 552;

// Where the depths begin.
pub const DEPTHS: usize = 512;

// ---- reading it

pub fn start(q: &[u8; QUESTION]) -> u8
    ensures { result ≡ start_of q.now }
{
    q[START_AT]
}

pub fn count(q: &[u8; QUESTION]) -> u8
    ensures { result ≡ layout.node_count q.now }
{
    q[NODE_COUNT_AT]
}

pub fn operator(q: &[u8; QUESTION], j: u8) -> u8
    requires { j < 40 }
    ensures { result ≡ (node_of q.now j).operator }
{
    q[NODES_AT + NODE_SIZE * usize::from(j)]
}

// Another byte of node j.
fn cell(q: &[u8; QUESTION], j: u8, k: usize) -> u8
    requires { (j < 40) × (k < 12) }
    ensures { result ≡ get_or q.now (node_at j + k) 0 }
{
    q[NODES_AT + NODE_SIZE * usize::from(j) + k]
}

// The n of "gain", "plan" or operator 9.
pub fn steps(q: &[u8; QUESTION], j: u8) -> u8
    requires { j < 40 }
    ensures { result ≡ (node_of q.now j).n }
{
    cell(q, j, STEPS_AT)
}

pub fn left(q: &[u8; QUESTION], j: u8) -> u8
    requires { j < 40 }
    ensures { result ≡ (node_of q.now j).left }
{
    cell(q, j, LEFT_AT)
}

pub fn right(q: &[u8; QUESTION], j: u8) -> u8
    requires { j < 40 }
    ensures { result ≡ (node_of q.now j).right }
{
    cell(q, j, RIGHT_AT)
}

// The bound of "gain", or the p of the bound that "plan" or operator 9 sets.
pub fn bound(q: &[u8; QUESTION], j: u8) -> i32
    requires { j < 40 }
    ensures { result ≡ (node_of q.now j).p }
{
    blocks::i32_at(q, NODES_AT + NODE_SIZE * usize::from(j) + P_AT)
}

// The q of that bound.
pub fn parts(q: &[u8; QUESTION], j: u8) -> u32
    requires { j < 40 }
    ensures { result ≡ (node_of q.now j).q }
{
    blocks::u32_at(q, NODES_AT + NODE_SIZE * usize::from(j) + Q_AT)
}

pub fn depth(q: &[u8; QUESTION], j: u8) -> u8
    requires { j < 40 }
    ensures { result ≡ depth_in q.now j }
{
    q[DEPTHS + usize::from(j)]
}

// Whether node j, of "gain", "plan" or operator 9, asks for less than its bound.
pub fn asks_less(q: &[u8; QUESTION], j: u8) -> bool
    requires { j < 40 }
    ensures { result ≡ eqb (node_of q.now j).right 1 }
{
    right(q, j) == Relation::Less as u8
}

// Whether it asks for just its bound.
pub fn asks_equal(q: &[u8; QUESTION], j: u8) -> bool
    requires { j < 40 }
    ensures { result ≡ eqb (node_of q.now j).right 2 }
{
    right(q, j) == Relation::Equal as u8
}

// ---- making it

// The node that node c comes down to: of an "and" of one node with itself, that node.
fn past(b: &[u8], c: u8) -> u8
    ensures { result ≡ replaced.past b.now c }
{
    let l = questions::left(b, c);
    if (questions::operator(b, c) == Operator::And as u8) & (l == questions::right(b, c)) {
        return l;
    }
    c
}

// The cells of node i of q; b is what the nodes before it have become.
fn left_for(q: &[u8], b: &[u8], i: u8) -> u8
    ensures { result ≡ left_for q.now b.now i }
{
    if has_left(questions::operator(q, i)) {
        return past(b, questions::left(q, i));
    }
    questions::left(q, i)
}

fn right_for(q: &[u8], b: &[u8], i: u8) -> u8
    ensures { result ≡ right_for q.now b.now i }
{
    if questions::operator(q, i) == Operator::And as u8 {
        return past(b, questions::right(q, i));
    }
    questions::right(q, i)
}

// Node i gets its new cells and its depth.
fn put(q: &[u8], b: &mut [u8; QUESTION], i: u8, d: u8)
    requires { ChildrenBefore q.now × (i < layout.node_count q.now) × Pointed q.now b.old i × (d ≡ formulas.depth (formula q.now i)) }
    ensures { Pointed q.now b.new (i + 1) }
{
    let l = left_for(q, b, i);
    let r = right_for(q, b, i);
    let at = NODES_AT + NODE_SIZE * usize::from(i);
    b[at + LEFT_AT] = l;
    b[at + RIGHT_AT] = r;
    b[DEPTHS + usize::from(i)] = d;
}

// The question with every child that is an "and" of one node with itself replaced by that node, and with its depths.
pub fn prepare_question(q: &[u8]) -> [u8; QUESTION]
    requires { ChildrenBefore q.now }
    ensures { (S A N : ℕ) → refusal (read_question S A N q.now) ≡ 0 → Shared S A N q.now result }
{
    let depths = questions::depth_table(q);
    let mut b = [0; QUESTION];
    b[..DEPTHS].copy_from_slice(q);
    for i in 0..questions::node_count(q) {
        let d = depths[usize::from(i)] as u8;
        put(q, &mut b, i, d);
    }
    b
}
