// The words of a condition's nodes, for all outcomes of the last step at once.
ghost use Rattle.std.specs.Prelude.{◌≡◌, ◌<◌, take, length, get_or};
ghost use Rattle.last_step.specs.promises.Masks.{BeforeLast, Part, Worded, Masked, Ended};

use crate::lanes::{done, flipped, gained, met, spread, told};
use evaluation::{PLACES, Place, STEPS, TRUTHS, VALUES, gain_at, known};
use prepared_model::MODEL;
use prepared_question::{QUESTION, bound, depth, left, operator, right};
use questions::NODES;
use questions::operators::Operator;

// The word of node j.
fn mask_at(masks: &[u32; NODES], j: u8) -> u32
    requires { j < 40 }
    ensures { result ≡ get_or masks.now j 0 }
{
    let i = j as usize;
    masks[i]
}

// The word of a child of "and", at place k. A child that looks as far ahead, d steps, has a word; another has one value for all outcomes, known
// before the last step.
fn part(q: &[u8; QUESTION], v: &[u8; VALUES], masks: &[u32; NODES], d: u8, k: u8, child: u8) -> u32
    requires { child < 40 }
    ensures { Part q.now v.now masks.now d k child result }
{
    if depth(q, child) == d {
        return mask_at(masks, child);
    }
    spread(known(v, child, k))
}

// The word of the node at place i of the cone: each arm has its operator's meaning.
fn mask_node(
    m: &[u16; MODEL],
    q: &[u8; QUESTION],
    truth: &[u8; TRUTHS],
    cone: &[u8],
    late: &[u8; NODES],
    trail: &[u16; STEPS],
    gains: &[i32; PLACES],
    v: &[u8; VALUES],
    masks: &[u32; NODES],
    at: Place,
    i: usize,
) -> u32
    requires before_last { BeforeLast m.now q.now at.start truth.now cone.now late.now trail.now gains.now v.now at.h at.s }
    requires masked { Masked m.now q.now at.start cone.now late.now (take at.h trail.now) at.s i masks.now × (i < length cone.now)
        × (get_or cone.now i 0 < 40) × (get_or late.now (get_or cone.now i 0) 0 ≡ 1) }
    ensures { let m = m.entry.now in let q = q.entry.now in let cone = cone.entry.now in let trail = trail.entry.now in
        Worded m q at.start cone (take at.h trail) at.s (get_or cone i 0) result }
{
    let j = cone[i];
    let d = depth(q, j);
    let h = at.h;
    let s = at.s as usize;
    if d == 0 {
        return told(m, truth, s, j);
    }
    if d > h + 1 {
        return 0;
    }
    let k = h + 1 - d;
    let Ok(operator) = Operator::try_from(operator(q, j)) else {
        return 0;
    };
    match operator {
        Operator::Not => flipped(mask_at(masks, left(q, j))),
        Operator::And => met(
            part(q, v, masks, d, k, left(q, j)),
            part(q, v, masks, d, k, right(q, j)),
        ),
        Operator::Do => done(m, s, left(q, j)),
        Operator::Next => mask_at(masks, left(q, j)),
        Operator::Gain => gained(
            m,
            s,
            right(q, j),
            gain_at(gains, h),
            gain_at(gains, k),
            bound(q, j),
        ),
        _ => 0,
    }
}

// The condition's word: its value on the path that each outcome of the state reached ends.
pub fn mask(
    m: &[u16; MODEL],
    q: &[u8; QUESTION],
    truth: &[u8; TRUTHS],
    cone: &[u8],
    late: &[u8; NODES],
    trail: &[u16; STEPS],
    gains: &[i32; PLACES],
    v: &[u8; VALUES],
    at: Place,
) -> u32
    requires { BeforeLast m.now q.now at.start truth.now cone.now late.now trail.now gains.now v.now at.h at.s }
    ensures { let m = m.entry.now in let q = q.entry.now in let cone = cone.entry.now in let trail = trail.entry.now in
        Ended m q at.start cone (take at.h trail) at.s result }
{
    let mut masks = [0u32; NODES];
    for (i, node) in cone.iter().enumerate() {
        let j = *node as usize;
        if late[j] == 1 {
            masks[j] = mask_node(m, q, truth, cone, late, trail, gains, v, &masks, at, i);
        }
    }
    mask_at(&masks, cone[cone.len() - 1])
}
