// The lines that the program `whynot` prints of a no, formed in a lent buffer.
ghost use Rattle.std.proofs.Math.Option.{none, some};
ghost use Rattle.std.specs.Prelude.{◌+◌, ◌*◌, ◌≤◌, length};
ghost use Rattle.verdict_line.specs.Text.{Put};
ghost use Rattle.verdict_line.specs.Reasons.{reached_line, reason_text};
ghost use Rattle.logic.specs.Reason.{no_reason};

use crate::{put_choices, put_decimal, put_signed, put_text};

// Room for the longest text: two lines of at most 1365 choices each.
pub const TEXT: usize = 16384;

// Writes the line of a total that some plan reaches: a word, the total over what all paths weigh together, the plan's choices.
pub fn put_reached(
    out: &mut [u8],
    at: usize,
    word: &[u8],
    total: i64,
    whole: u64,
    choices: &[u8],
) -> usize
    requires { at + (length word.now + (4 * length choices.now + 80)) ≤ length out.old }
    ensures effect { let out' = out.exit.now in let out = out.entry.now in let word = word.entry.now in let choices = choices.entry.now in
        Put (reached_line word (some (record { total = total; whole = whole; choices = choices }))) out out' at result }
    ensures range { result ≤ at + (length word.now + (4 * length choices.now + 80)) }
{
    let mut next = put_text(out, at, word);
    next = put_signed(out, next, b" ", total);
    next = put_decimal(out, next, b"/", whole);
    next = put_text(out, next, b" choices");
    next = put_choices(out, next, choices);
    put_text(out, next, b"\n")
}

// Writes the line of a side on which no plan lies.
pub fn put_nothing(out: &mut [u8], at: usize, word: &[u8]) -> usize
    requires { at + (length word.now + 80) ≤ length out.old }
    ensures effect { Put (reached_line word.now none) out.old out.new at result }
    ensures range { result ≤ at + (length word.now + 80) }
{
    let next = put_text(out, at, word);
    put_text(out, next, b" none\n")
}

// The text of a no to a root that sets no bound on plans.
pub fn no_reason_text(out: &mut [u8]) -> usize
    requires { 8192 ≤ length out.old }
    ensures { Put (reason_text no_reason) out.old out.new 0 result }
{
    put_text(out, 0, b"no reason\n")
}
