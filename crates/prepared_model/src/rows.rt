// The row of a state, 256 numbers, filled from the blocks of an accepted model.
ghost use Rattle.std.specs.Prelude.{◌≡◌, ℕ, ◌+◌, ◌*◌, ◌<◌, ◌≤◌, length, get_or, set};
ghost use Rattle.logic.specs.promises.Refusal.{refusal};
ghost use Rattle.blocks.specs.Bytes as bytes;
ghost use Rattle.models.specs.Grounds.{read_model};
ghost use Rattle.models.specs.Layout.{state_count};
ghost use Rattle.prepared_model.specs.promises.Rows.{lane};
ghost use Rattle.prepared_model.specs.promises.Filled.{put_at, silent_at, Chosen, Spelled, Partly, Summed, Row};

use crate::{COUNT, OUTCOMES, REWARDS, SUMS, TARGETS, WEIGHTS};
use blocks::{u16_at, wide};
use models::{SILENT, action_count, denominator, entries, outcome_at};

// Lists the action a, which has c outcomes, behind the i choices listed, if it has any; gives the number listed.
fn list(row: &mut [u16], i: usize, a: usize, c: usize) -> usize
    requires { (i < 8) × (a < 256) × (c < 256) × (length row.old ≡ 256) }
    ensures { let row' = row.exit.now in let row = row.entry.now in
        (c ≡ 0 → (result ≡ i) × (row' ≡ row)) × (0 < c → (result ≡ i + 1) × (row' ≡ set (set row i a) (8 + i) c)) }
{
    if c == 0 {
        return i;
    }
    row[i] = a as u16;
    row[OUTCOMES + i] = c as u16;
    i + 1
}

// Lists the choices of the state s in order, each with the number of its outcomes, and counts them.
fn choose(b: &[u8], row: &mut [u16], s: usize)
    requires { (refusal (read_model b.now) ≡ 0) × (s < state_count b.now) × (length row.old ≡ 256) }
    ensures { Chosen b.now s row.new }
{
    let mut i = 0;
    for a in 0..action_count(b) {
        i = list(row, i, a, entries(b, s, a));
    }
    row[COUNT] = i as u16;
}

// Puts the target, the weight and the reward of an outcome, which stands at `at` in the blocks, in lane k.
fn put(b: &[u8], row: &mut [u16], at: usize, k: usize)
    requires { (at < 65000) × (k < 32) × (length row.old ≡ 256) }
    ensures frame { row.new ≡ put_at b.now row.old at k }
    ensures value { bytes.byte b.now (at + 1) < 256 }
{
    row[TARGETS + k] = wide(b, at) as u16;
    row[WEIGHTS + k] = wide(b, at + 1) as u16;
    row[REWARDS + k] = u16_at(b, at + 2) as u16;
}

// Spells out the outcomes of the choices listed, 4 to a choice.
fn spell(b: &[u8], row: &mut [u16], s: usize)
    requires { (refusal (read_model b.now) ≡ 0) × (s < state_count b.now) × (length row.old ≡ 256) × Chosen b.now s row.old }
    ensures { let row' = row.new in let b = b.entry.now in
        Chosen b s row' × Spelled b s (4 * get_or row' 16 0) row' }
{
    let n = 4 * usize::from(row[COUNT]);
    for k in 0..n {
        let at = outcome_at(s, usize::from(row[k / 4]), k % 4);
        put(b, row, at, k);
    }
}

// Where no choice is listed the work is over: puts the silent move of the state s, whose weight is d, as the one choice there, in lane 0. Gives
// the number of choices.
fn or_silent(row: &mut [u16], s: usize, d: usize) -> usize
    requires { (s < 256) × (d < 256) × (length row.old ≡ 256) }
    ensures { let row' = row.exit.now in let row = row.entry.now in
        (0 < get_or row 16 0 → (result ≡ get_or row 16 0) × (row' ≡ row))
        × (get_or row 16 0 ≡ 0 → (result ≡ 1) × (row' ≡ silent_at row s d)) }
{
    let n = usize::from(row[COUNT]);
    if n != 0 {
        return n;
    }
    row[0] = SILENT as u16;
    row[OUTCOMES] = 1;
    row[COUNT] = 1;
    row[TARGETS] = s as u16;
    row[WEIGHTS] = d as u16;
    row[WEIGHTS + 1] = 0;
    row[WEIGHTS + 2] = 0;
    row[WEIGHTS + 3] = 0;
    row[REWARDS] = 0;
    1
}

// A weight, if the lowest bit is 1.
fn part(w: u16, y: u16) -> u16
    requires { w < 256 }
    ensures value { result ≡ w * lane y 0 }
    ensures range { result < 256 }
{
    w * (y & 1)
}

// The four weights whose bits are 1, summed.
fn parts(weights: &[u16; 4], y: u16) -> u16
    requires { (o : ℕ) → o < 4 → get_or weights.now o 0 < 256 }
    ensures { let w = weights.now in
        result ≡ get_or w 0 0 * lane y 0 + get_or w 1 0 * lane y 1 + get_or w 2 0 * lane y 2 + get_or w 3 0 * lane y 3 }
{
    let mut sum = 0;
    for (o, w) in weights.iter().enumerate() {
        sum += part(*w, y >> o);
    }
    sum
}

// Puts the sums of the weights of the choice at place i, by pattern.
fn sum_choice(row: &mut [u16], i: usize)
    requires { (i < 8) × (length row.old ≡ 256) × ((o : ℕ) → o < 4 → get_or row.old (64 + 4 * i + o) 0 < 256) }
    ensures { Partly i 16 row.old row.new }
{
    let from = WEIGHTS + 4 * i;
    let weights = [row[from], row[from + 1], row[from + 2], row[from + 3]];
    for y in 0..16 {
        row[SUMS + 16 * i + usize::from(y)] = parts(&weights, y);
    }
}

// Puts the sums of all n choices.
fn sum_choices(row: &mut [u16], n: usize)
    requires { (n ≤ 8) × (length row.old ≡ 256) × ((j : ℕ) → j < 4 * n → get_or row.old (64 + j) 0 < 256) }
    ensures { Summed n row.old row.new }
{
    for i in 0..n {
        sum_choice(row, i);
    }
}

// Fills the row of the state s.
pub fn fill(b: &[u8], row: &mut [u16], s: usize)
    requires { (refusal (read_model b.now) ≡ 0) × (s < state_count b.now) × (length row.old ≡ 256) }
    ensures { Row b.now s row.new }
{
    choose(b, row, s);
    spell(b, row, s);
    let n = or_silent(row, s, denominator(b));
    sum_choices(row, n);
}
