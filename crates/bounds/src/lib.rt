// Bounds: powers of the denominator, and how a total compares with the bound of a node of operator 8 or 9, the total times q with p times D to the
// n. Whether it meets the bound follows from that and the node's relation.
#![tactic(auto)]

ghost use Rattle.std.specs.Prelude.{◌≡◌, not, ◌*◌, ◌^◌, ◌≤◌};
ghost use Rattle.logic.specs.Formula.{relation, nonnegative};
ghost use Rattle.logic.specs.promises.Orders.{order};
ghost use Rattle.logic.specs.promises.Lamps as lamps;
ghost use Rattle.lamp.specs.Said.{said_lamp};
ghost use Rattle.lamp.specs.promises.Codes.{lamp_code};
ghost use Rattle.models.specs.Layout.{denominator_of};
ghost use Rattle.questions.specs.Layout.{node_of};
ghost use Rattle.bounds.specs.promises.Bounded as spec;
ghost use Rattle.bounds.specs.promises.Bounded.{Bounded, Sided, Exactly, under, lift_of, lowered, most_of, meets_at, lamp_at};

use lamp::{Lamp, compared};
use prepared_model::{MODEL, RAISE, denominator};
use prepared_question::QUESTION;
use questions::SPAN_BASE;
use questions::operators::{Operator, Relation};

// The denominator to the number of steps.
pub fn power(d: usize, k: u8) -> u64
    requires { (d ≤ 100) × (k ≤ 6) }
    ensures { result ≡ d ^ k }
{
    (d as u64).pow(u32::from(k))
}

// Whether a bound is met whose relation has this number, as the node has it, by a total's lamp.
fn met_by_lamp(number: u8, lamp: Lamp) -> bool
    requires { (1 ≤ number) × (number ≤ 3) }
    ensures { result ≡ lamps.met_by_lamp (relation number) (said_lamp lamp) }
{
    match lamp {
        Lamp::Below => number == Relation::Less as u8,
        Lamp::At => number == Relation::Equal as u8,
        Lamp::Above => number == Relation::Greater as u8,
    }
}

// Whether a total is better than another, and not as good.
pub fn exceeds(value: u64, other: u64, least: bool) -> bool
    ensures { result ≡ not (order least value other) }
{
    if least { value < other } else { other < value }
}

// p where it is above 0, else 0.
fn above_zero(p: i32) -> u64
    ensures { result ≡ nonnegative p }
{
    u64::from(p.max(0).unsigned_abs())
}

// How far p is below 0.
fn below_zero(p: i32) -> u64
    ensures { result ≡ under p }
{
    u64::from(p.min(0).unsigned_abs())
}

// The denominator to the steps of node j: what all paths of a plan weigh together.
pub fn whole(m: &[u16; MODEL], q: &[u8; QUESTION], j: u8) -> u64
    requires { Bounded m.now q.now j }
    ensures value { result ≡ denominator_of m.now ^ (node_of q.now j).n }
    ensures range { result ≤ 100 ^ 6 }
{
    power(denominator(m), prepared_question::steps(q, j))
}

// How much the totals of node j are raised, so that a search has natural numbers.
fn lift(m: &[u16; MODEL], q: &[u8; QUESTION], j: u8) -> u64
    requires { Bounded m.now q.now j }
    ensures value { result ≡ lift_of m.now q.now j }
    ensures range { result ≤ 6000 * 100 ^ 6 }
{
    if prepared_question::operator(q, j) != Operator::Earns as u8 {
        return 0;
    }
    let span = prepared_question::left(q, j);
    let paid = span / SPAN_BASE - (span % SPAN_BASE - 1);
    u64::from(RAISE) * u64::from(paid) * whole(m, q, j)
}

// The two sides of a bound on a raised total x, with nothing negative on either: `parts` times x and `down`, and `up`.
#[derive(Clone, Copy)]
struct Sides {
    parts: u64,
    up: u64,
    down: u64,
}

// The bound of node j: its q; D to the n times what p is above 0, with q times the lift; D to the n times what p is below 0.
fn raised_bound(m: &[u16; MODEL], q: &[u8; QUESTION], j: u8) -> Sides
    requires { Bounded m.now q.now j }
    ensures { Sided m.now q.now j result.parts result.up result.down }
{
    let d = whole(m, q, j);
    let parts = u64::from(prepared_question::parts(q, j));
    let p = prepared_question::bound(q, j);
    Sides {
        parts,
        up: d * above_zero(p) + parts * lift(m, q, j),
        down: d * below_zero(p),
    }
}

// How a raised total compares with the bound of node j.
pub fn lamp_of(m: &[u16; MODEL], q: &[u8; QUESTION], j: u8, x: u64) -> Lamp
    requires bounded { Bounded m.now q.now j }
    requires x_bound { x ≤ most_of m.now q.now j }
    ensures { let m = m.entry.now in let q = q.entry.now in
        result ≡ lamp_code (lamp_at m q j (lowered m q j x)) }
{
    let s = raised_bound(m, q, j);
    compared(s.parts * x + s.down, s.up)
}

// Whether a raised total meets the bound of node j.
pub fn meets(m: &[u16; MODEL], q: &[u8; QUESTION], j: u8, x: u64) -> bool
    requires bounded { Bounded m.now q.now j }
    requires x_bound { x ≤ most_of m.now q.now j }
    ensures { let m = m.entry.now in let q = q.entry.now in
        result ≡ meets_at m q j (lowered m q j x) }
{
    let l = lamp_of(m, q, j, x);
    met_by_lamp(prepared_question::right(q, j), l)
}

// The least raised total that is not below the bound, and whether it is equal to it: then it is the one that meets "equal", else none does.
// No Option: the total says where the bound lies in both cases, and a search needs it in both.
#[derive(Clone, Copy)]
pub struct Exact {
    pub whole: bool,
    pub total: u64,
}

// What a raised total of node j would have to be for the total to be equal to the bound, or what it must be at least to be above it.
pub fn exact_total(m: &[u16; MODEL], q: &[u8; QUESTION], j: u8) -> Exact
    requires { Bounded m.now q.now j }
    ensures { Exactly m.now q.now j result.whole result.total }
{
    let s = raised_bound(m, q, j);
    if s.up < s.down {
        return Exact {
            whole: false,
            total: 0,
        };
    }
    let all = s.up - s.down;
    let down = all / s.parts;
    if all % s.parts == 0 {
        return Exact {
            whole: true,
            total: down,
        };
    }
    Exact {
        whole: false,
        total: down + 1,
    }
}

// The total that a raised one is.
pub fn lowered(m: &[u16; MODEL], q: &[u8; QUESTION], j: u8, x: u64) -> i64
    requires bounded { Bounded m.now q.now j }
    requires x_bound { x ≤ 12000 * 100 ^ 6 }
    ensures { result ≡ spec.lowered m.now q.now j x }
{
    x as i64 - lift(m, q, j) as i64
}
