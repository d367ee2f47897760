// Sheets: reading, writing, and the plan that the choices spell. A sheet is document 01's word for a certificate.
#![tactic(auto, unfolding(crate::specs::Layout::weight_of, crate::specs::Layout::count_of, crate::specs::Layout::blocks_for, crate::specs::Grounds::head_right, crate::specs::Grounds::weight_right, crate::specs::Grounds::spare_right))]

ghost use Rattle.std.specs.Prelude.{◌≡◌, ℕ, ◌&&◌, ◌+◌, ◌*◌, ◌/◌, ◌≤◌, ◌<◌, length};
ghost use Rattle.logic.specs.Lists.{every};
ghost use Rattle.refusals.specs.Number.{refusal_number};
ghost use Rattle.logic.specs.promises.Refusal.{refusal};
ghost use Rattle.blocks.specs.Block.{block_count, headed};
ghost use Rattle.sheets.specs.Layout.{weight_of, count_of, sheet_of};
ghost use Rattle.sheets.specs.Layout as layout;
ghost use Rattle.sheets.specs.Grounds.{head_right, count_right, weight_right, spare_right, read_sheet};
ghost use Rattle.sheets.specs.promises.Reader.{Blocks, Gathered};

use blocks::buffers::copy;
use blocks::{BLOCK, Kind, LAST_WORD};
use refusals::Refusal;

pub mod plans;
pub mod writer;

// The most blocks of a sheet.
const BLOCKS: usize = 3;

// The most choices in a block.
pub const IN_BLOCK: usize = 490;

// Added to a number of choices before it is divided by those of a block, to round up.
const ROUND_UP: usize = IN_BLOCK - 1;

// The most choices that the blocks of a sheet say they hold.
pub const GATHERED: usize = 1470;

// Where the fields of a block stand: the steps, the start state, four spare bytes, the weight, the count of the choices here, the choices.
const STEPS_AT: usize = 2;

const START_AT: usize = 3;

const SPARE_AT: usize = 4;

const SPARE_SIZE: usize = WEIGHT_AT - SPARE_AT;

const WEIGHT_AT: usize = 8;

const COUNT_AT: usize = 16;

const CHOICES_AT: usize = 18;

// Where the choices end at the latest.
const CHOICES_END: usize = CHOICES_AT + IN_BLOCK;

// The choices, and the spare bytes behind them.
const CHOICES_SIZE: usize = LAST_WORD - CHOICES_AT;

// How many blocks a sheet with so many choices has.
pub fn blocks_for(count: usize) -> usize
    requires { count ≤ 1365 }
    ensures value { result ≡ layout.blocks_for count }
    ensures range { result ≤ 3 }
{
    (count + ROUND_UP) / IN_BLOCK
}

// How many choices block k says it holds.
fn count_at(b: &[u8], k: usize) -> usize
    requires { k < 3 }
    ensures value { result ≡ count_of b.now k }
    ensures range { result < 65536 }
{
    blocks::u16_at(b, BLOCK * k + COUNT_AT) as usize
}

// The weight in block k, as the number of its eight bytes.
fn weight_at(b: &[u8], k: usize) -> u64
    requires { k < 3 }
    ensures { result ≡ weight_of b.now k }
{
    blocks::u64_at(b, BLOCK * k + WEIGHT_AT)
}

// The total that the sheet claims.
pub fn total_at(b: &[u8]) -> i64
    ensures { result ≡ (sheet_of b.now).weight }
{
    blocks::i64_at(b, WEIGHT_AT)
}

// Ground 4 of block k.
fn head_right(b: &[u8], k: usize, n: usize, start: usize) -> bool
    requires { k < 3 }
    ensures { result ≡ head_right n start b.now k }
{
    let at = BLOCK * k;
    (blocks::wide(b, at + STEPS_AT) == n) & (blocks::wide(b, at + START_AT) == start)
}

// Ground 5 of block k: its count.
fn count_right(b: &[u8], k: usize) -> bool
    requires { k < 3 }
    ensures { result ≡ count_right b.now k }
{
    let c = count_at(b, k);
    if k + 1 < b.len() / BLOCK {
        return c == IN_BLOCK;
    }
    (1 <= c) & (c <= IN_BLOCK)
}

// Ground 5 of block k: its weight.
fn weight_right(b: &[u8], k: usize) -> bool
    requires { k < 3 }
    ensures { result ≡ weight_right b.now k }
{
    weight_at(b, k) == weight_at(b, 0)
}

// Ground 6 of block k.
fn spare_right(b: &[u8], k: usize) -> bool
    requires { (k < 3) × (512 * k + 512 ≤ length b.now) × (count_of b.now k ≤ 490) }
    ensures { result ≡ spare_right b.now k }
{
    let at = BLOCK * k;
    let c = count_at(b, k);
    blocks::zeros(b, at + SPARE_AT, SPARE_SIZE)
        & blocks::zeros(b, at + CHOICES_AT + c, CHOICES_SIZE - c)
}

// Ground 3.
fn headings_right(b: &[u8]) -> bool
    requires { length b.now / 512 ≤ 3 }
    ensures { result ≡ every (block_count b.now) (λ k. headed b.now k 4 k) }
{
    (0..b.len() / BLOCK).all(|k| blocks::headed(b, k, Kind::Sheet as usize, k))
}

// Ground 4.
fn heads_right(b: &[u8], n: usize, start: usize) -> bool
    requires { length b.now / 512 ≤ 3 }
    ensures { result ≡ every (block_count b.now) (head_right n start b.now) }
{
    (0..b.len() / BLOCK).all(|k| head_right(b, k, n, start))
}

// Ground 5.
fn fields_right(b: &[u8]) -> bool
    requires { length b.now / 512 ≤ 3 }
    ensures { result ≡ every (block_count b.now) (λ k. count_right b.now k && weight_right b.now k) }
{
    (0..b.len() / BLOCK).all(|k| count_right(b, k) & weight_right(b, k))
}

// Ground 6.
fn spares_right(b: &[u8]) -> bool
    requires { (length b.now / 512 ≤ 3) × ((k : ℕ) → k < length b.now / 512 → count_of b.now k ≤ 490) }
    ensures { result ≡ every (block_count b.now) (spare_right b.now) }
{
    (0..b.len() / BLOCK).all(|k| spare_right(b, k))
}

// Accepts a sheet's bytes for a question with n steps and this start, or gives the first ground, 1 to 6, on which they are refused.
#[tactic(auto, unfolding(crate::specs::Grounds::read_sheet))]
pub fn accept_sheet(b: &[u8], n: usize, start: usize) -> Result<(), Refusal>
    ensures { refusal_number result ≡ refusal (read_sheet n start b.now) }
{
    if !blocks::whole_blocks(b, 1, BLOCKS) {
        return Err(Refusal::BlockCount);
    }
    if !blocks::sums_right(b) {
        return Err(Refusal::WordSum);
    }
    if !headings_right(b) {
        return Err(Refusal::Heading);
    }
    if !heads_right(b, n, start) {
        return Err(Refusal::HeadFields);
    }
    if !fields_right(b) {
        return Err(Refusal::FieldRange);
    }
    if !spares_right(b) {
        return Err(Refusal::SpareBytes);
    }
    Ok(())
}

// The choices of all blocks, one after the other, at the front of `out`; gives their number.
pub fn gather(b: &[u8], out: &mut [u8]) -> usize
    requires { Blocks 6 b.now × (1470 ≤ length out.old) }
    ensures { Gathered (sheet_of b.now).choices out.old out.new result }
{
    let mut at = 0;
    for k in 0..b.len() / BLOCK {
        let from = BLOCK * k + CHOICES_AT;
        let c = count_at(b, k);
        copy(&mut out[at..], &b[from..from + c]);
        at += c;
    }
    at
}
