// The writer of a plan's sheet: its blocks are begun, its choices stored, its blocks sealed. One function stores the choice for a history,
// another walks its outcomes and calls back, with fewer steps left. Each block, and its choices from byte 18, is lent on as a part of the buffer.
ghost use Rattle.std.specs.Prelude.{◌≡◌, ◌+◌, ◌*◌, ◌-◌, ◌/◌, ◌≤◌, ◌<◌, [], ◌++◌, length, drop, set, replicate};
ghost use Rattle.logic.specs.promises.Refusal.{refusal};
ghost use Rattle.logic.specs.Model.{outcomes};
ghost use Rattle.logic.specs.Choices.{read_each, read_plan};
ghost use Rattle.models.specs.Layout.{state_count, model_of};
ghost use Rattle.models.specs.Grounds.{read_model};
ghost use Rattle.sheets.specs.Layout.{blocks_for, sheet_bytes};
ghost use Rattle.sheets.specs.promises.Ends.{AllRead};
ghost use Rattle.sheets.specs.promises.Writer.{started, unsealed, chunk_size, begun, sealed, place, Ahead, Stored};

use crate::{
    CHOICES_AT, CHOICES_END, COUNT_AT, IN_BLOCK, START_AT, STEPS_AT, WEIGHT_AT, blocks_for,
};
use blocks::buffers::{clear, put_number, store};
use blocks::{BLOCK, Kind, NUMBER_AT, bits_of, seal};
use models::choices::{outcome_count, outcome_target};

// The first bytes of block k, which is zero as yet.
fn head(dst: &mut [u8], k: u8, n: u8, start: u8)
    requires { (length dst.old ≡ 512) × (dst.old ≡ replicate (length dst.old) 0) }
    ensures { dst.new ≡ started n start k }
{
    dst[0] = Kind::Sheet as u8;
    dst[NUMBER_AT] = k;
    dst[STEPS_AT] = n;
    dst[START_AT] = start;
}

// Begins block k of a sheet: all but its choices and its last word.
fn begin(dst: &mut [u8], k: u8, n: u8, start: u8, weight: u64, count: u64)
    requires { length dst.old ≡ 512 }
    ensures { dst.new ≡ unsealed n start weight k count [] }
{
    clear(dst);
    head(dst, k, n, start);
    put_number(&mut dst[WEIGHT_AT..], 8, weight);
    put_number(&mut dst[COUNT_AT..], 2, count);
}

// How many of a sheet's choices stand in block k: 490, or what is left.
fn chunk_size(count: usize, k: usize) -> u64
    requires { (k < 3) × (490 * k ≤ count) }
    ensures { result ≡ chunk_size count k }
{
    IN_BLOCK.min(count - IN_BLOCK * k) as u64
}

// Begins the blocks of a sheet with so many choices, at the front of buf.
fn begin_blocks(buf: &mut [u8], n: u8, start: u8, weight: u64, count: usize)
    requires { (count ≤ 1365) × (512 * blocks_for count ≤ length buf.old) }
    ensures { buf.new ≡ begun n start weight count ++ drop (512 * blocks_for count) buf.old }
{
    for k in 0..blocks_for(count) {
        let from = BLOCK * k;
        let here = chunk_size(count, k);
        begin(
            &mut buf[from..from + BLOCK],
            k as u8,
            n,
            start,
            weight,
            here,
        );
    }
}

// Stores choice i of a block.
fn store_in_block(block: &mut [u8], i: usize, a: u8)
    requires { (length block.old ≡ 512) × (i < 490) }
    ensures { block.new ≡ set block.old (18 + i) a }
{
    store(&mut block[CHOICES_AT..CHOICES_END], i, a);
}

// Stores choice p of a sheet in its block.
fn store_choice(buf: &mut [u8], p: usize, a: u8)
    requires { (p < 1470) × (512 * (p / 490) + 512 ≤ length buf.old) }
    ensures { buf.new ≡ set buf.old (place p) a }
{
    let from = BLOCK * (p / IN_BLOCK);
    store_in_block(&mut buf[from..from + BLOCK], p % IN_BLOCK, a);
}

// Stores the choices of the n-step plan from the state s that begins with choice p; gives where they end.
#[cycle(store_below_store_plan)]
fn store_plan(buf: &mut [u8], m: &[u8], choices: &[u8], n: usize, s: usize, p: usize) -> usize
    requires m_value { (refusal (read_model m.now) ≡ 0) × (s < state_count m.now) }
    requires ahead { Ahead (read_plan (model_of m.now) n s (drop p choices.now)) choices.now p buf.old }
    ensures { let buf' = buf.exit.now in let m = m.entry.now in let choices = choices.entry.now in let buf = buf.entry.now in
        Stored (read_plan (model_of m) n s (drop p choices)) choices p result buf buf' }
{
    if n == 0 {
        return p;
    }
    let a = choices[p];
    store_choice(buf, p, a);
    store_below(buf, m, choices, n - 1, s, usize::from(a), p + 1)
}

// Stores the choices of a plan of k steps below each outcome of the choice a.
#[cycle(store_below_store_plan)]
fn store_below(
    buf: &mut [u8],
    m: &[u8],
    choices: &[u8],
    k: usize,
    s: usize,
    a: usize,
    p: usize,
) -> usize
    requires m_value { (refusal (read_model m.now) ≡ 0) × (s < state_count m.now) × (a < 256) }
    requires ahead { Ahead (read_each (λ o. read_plan (model_of m.now) k o.target) (outcomes (model_of m.now) s a) (drop p choices.now))
        choices.now p buf.old }
    ensures { let buf' = buf.exit.now in let m = m.entry.now in let choices = choices.entry.now in let buf = buf.entry.now in
        Stored (read_each (λ o. read_plan (model_of m) k o.target) (outcomes (model_of m) s a) (drop p choices)) choices p result buf buf' }
{
    let count = outcome_count(m, s, a);
    let mut next = p;
    for i in 0..count {
        let t = outcome_target(m, s, a, i);
        next = store_plan(buf, m, choices, k, t, next);
    }
    next
}

// Seals the first blocks of buf.
fn seal_blocks(buf: &mut [u8], blocks: usize)
    requires { (blocks ≤ 3) × (512 * blocks ≤ length buf.old) }
    ensures { buf.new ≡ sealed blocks buf.old }
{
    for k in 0..blocks {
        let from = BLOCK * k;
        seal(&mut buf[from..from + BLOCK]);
    }
}

// The sheet of the n-step plan that these choices are, with this total, at the front of buf, and no byte beyond; gives the number of bytes
// written.
pub fn write_sheet(buf: &mut [u8], m: &[u8], n: u8, start: u8, total: i64, choices: &[u8]) -> usize
    requires m_value { (refusal (read_model m.now) ≡ 0) × (start < state_count m.now)
        × AllRead (read_plan (model_of m.now) n start choices.now) choices.now }
    requires choices_len_bound { (length choices.now ≤ 1365) × (512 * blocks_for (length choices.now) ≤ length buf.old) }
    ensures effect { buf.new ≡ sheet_bytes n start total choices.now ++ drop result buf.old }
    ensures value { result ≡ 512 * blocks_for (length choices.now) }
{
    let count = choices.len();
    begin_blocks(buf, n, start, bits_of(total), count);
    store_plan(buf, m, choices, usize::from(n), usize::from(start), 0);
    let blocks = blocks_for(count);
    seal_blocks(buf, blocks);
    BLOCK * blocks
}
