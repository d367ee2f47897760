// Lists of numbers combined in place, in a lent buffer.
ghost use Rattle.std.specs.Prelude.{◌≡◌, map, ◌+◌, ◌*◌, ◌≤◌, length, replicate};
ghost use Rattle.blocks.specs.Splice.{splice};
ghost use Rattle.exact_plan.specs.promises.Totals.{part, grid, joined};
ghost use Rattle.exact_plan.specs.promises.Spread.{Shifts, Spreads, Joins};

// Writes x + w * y at `to` for each of the numbers y at `from`.
pub fn shift(buf: &mut [u64], from: usize, to: usize, count: usize, w: u64, x: u64)
    requires { Shifts buf.old from to count w x }
    ensures { buf.new ≡ splice buf.old to (map (λ y. x + w * y) (part buf.old from count)) }
{
    for i in 0..count {
        buf[to + i] = x + w * buf[from + i];
    }
}

// Writes the sums of v times each of the n numbers at `slow` and w times each of the c numbers at `fast`, from the last one down, so
// that what is still to be read is not yet written over.
pub fn spread(
    buf: &mut [u64],
    at: usize,
    slow: usize,
    n: usize,
    v: u64,
    fast: usize,
    c: usize,
    w: u64,
)
    requires { Spreads buf.old at slow n v fast c w }
    ensures { buf.new
        ≡ splice buf.old at (grid (map (λ x. v * x) (part buf.old slow n)) (map (λ y. w * y) (part buf.old fast c))) }
{
    for i in (0..n).rev() {
        let x = v * buf[slow + i];
        shift(buf, fast, at + i * c, c, w, x);
    }
}

// Combines the `len` numbers at `at` with w times the n numbers that stand behind the product: on the right of them, or on the left.
pub fn join(buf: &mut [u64], at: usize, len: usize, n: usize, w: u64, right: bool)
    requires { Joins buf.old at len n w }
    ensures { let buf' = buf.exit.now in let buf = buf.entry.now in
        buf' ≡ splice buf at (joined right (part buf at len) (map (λ y. w * y) (part buf (at + len * n) n))) }
{
    let end = at + len * n;
    if right {
        spread(buf, at, at, len, 1, end, n, w);
    } else {
        spread(buf, at, end, n, w, at, len, 1);
    }
}

// Writes the same number n times.
pub fn fill(buf: &mut [u64], at: usize, n: usize, x: u64)
    requires { at + n ≤ length buf.old }
    ensures { buf.new ≡ splice buf.old at (replicate n x) }
{
    buf[at..at + n].fill(x);
}
