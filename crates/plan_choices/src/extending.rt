// A plan extended: the choices of a plan of d steps, followed up to n steps by those of a table that has a choice for the steps left and the
// state. With no steps given it is the table's plan; a table of zeros has first choices.
ghost use Rattle.std.specs.Prelude.{◌≡◌, ◌+◌, ◌<◌, ◌≤◌, min, length, drop};
ghost use Rattle.blocks.specs.Splice.{splice};
ghost use Rattle.models.specs.Layout.{state_count};
ghost use Rattle.prepared_model.specs.promises.Rows.{model_in, Prepared};
ghost use Rattle.logic.specs.promises.MostChoices.{most_choices};
ghost use Rattle.plan_choices.specs.promises.Extended.{choice_at, by_place, Placed, Ran};
ghost use Rattle.plan_choices.specs.promises.Extended as spec;

use blocks::byte;
use models::STATES;
use prepared_model::{MODEL, STAGES};

// Where to read on, and where to write on.
#[derive(Clone, Copy)]
pub struct Cursor {
    from: usize,
    at: usize,
}

// The choice at a history with n steps left, of which d are given by `src`.
fn choice(
    m: &[u16; MODEL],
    places: &[u8; STAGES],
    src: &[u8],
    from: usize,
    s: usize,
    d: usize,
    n: usize,
) -> u8
    requires { Prepared m.now × (s < state_count m.now) × Placed m.now places.now n × (1 ≤ n) }
    ensures { result ≡ choice_at (by_place m.now places.now n s) d (drop from src.now) }
{
    if d == 0 {
        return prepared_model::choice(m, s, places[STATES * n + s] as usize);
    }
    byte(src, from)
}

// Writes the choices of n steps from s, of which d are read: the choice in s, then those below each of its outcomes. The two places stand
// apart: side by side they are handed on as one word right after its halves were written, and the processor waits for that.
fn extend_from(
    m: &[u16; MODEL],
    places: &[u8; STAGES],
    src: &[u8],
    from: usize,
    dst: &mut [u8],
    at: usize,
    s: usize,
    d: usize,
    n: usize,
) -> Cursor
    requires prepared { Prepared m.now × (s < state_count m.now) }
    requires placed { Placed m.now places.now n × (from + most_choices n ≤ 65536) × (at + most_choices n ≤ length dst.old) }
    ensures { let dst' = dst.exit.now in let m = m.entry.now in let places = places.entry.now in let src = src.entry.now in
        let dst = dst.entry.now in
        Ran (spec.extend (model_in m) (by_place m places) d n s (drop from src)) (most_choices n) src from result.from dst dst' at result.at }
{
    if n == 0 {
        return Cursor { from, at };
    }
    let a = choice(m, places, src, from, s, d, n);
    dst[at] = a;
    let k = d.min(1);
    let row = prepared_model::row_of(m, s, a);
    let mut next = Cursor {
        from: from + k,
        at: at + 1,
    };
    for o in 0..row.count {
        let t = prepared_model::target(m, s, row.at, o);
        next = extend_from(m, places, src, next.from, dst, next.at, t, d - k, n - 1);
    }
    next
}

// Writes the choices of the n-step plan that extends the d-step plan whose choices `src` begins with; gives their number.
pub fn extend(
    m: &[u16; MODEL],
    places: &[u8; STAGES],
    src: &[u8],
    dst: &mut [u8],
    s: usize,
    d: usize,
    n: usize,
) -> usize
    requires prepared { Prepared m.now × (s < state_count m.now) }
    requires placed { Placed m.now places.now n × (1365 ≤ length dst.old) }
    ensures frame { let dst' = dst.exit.now in let dst = dst.entry.now in let m = m.entry.now in let src = src.entry.now in
        let places = places.entry.now in
        dst' ≡ splice dst 0 (spec.extend (model_in m) (by_place m places) d n s src).0 }
    ensures value { let m = m.entry.now in let places = places.entry.now in
        result ≡ length (spec.extend (model_in m) (by_place m places) d n s src.now).0 }
{
    let r = extend_from(m, places, src, 0, dst, 0, s, d, n);
    r.at
}
