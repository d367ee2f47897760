// Reads a model followed by a question from standard input and prints why it is answered no; where it is not, the line of the verdict.
#![tactic(auto)]

use verdict_line::MOST_INPUT;
use verdict_line::reason_lines::TEXT;

// Room for a byte more than 13 blocks, so that longer input is seen to be too long.
const INPUT: usize = MOST_INPUT + 1;

// The `main` of verdict differs in the call, the room and its name: one function for both would take a closure, its contract and a const parameter.
fn main(rt: HostRuntime) {
    let mut input = [0u8; INPUT];
    let n = streams::read_full(&mut rt.stdin(), &mut input).count;
    let mut text = [0u8; TEXT];
    let k = explaining::answer(&input[..n], &mut text);
    streams::write_all(&mut rt.stdout(), &text[..k]);
}
