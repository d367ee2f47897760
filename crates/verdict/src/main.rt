// Reads a model followed by a question from standard input and prints the line of the verdict.
#![tactic(auto)]

use verdict_line::{LINE, MOST_INPUT};

// Room for a byte more than 13 blocks, so that longer input is seen to be too long.
const INPUT: usize = MOST_INPUT + 1;

// The `main` of whynot differs in the call, the room and its name: one function for both would take a closure, its contract and a const parameter.
fn main(rt: HostRuntime) {
    let mut input = [0u8; INPUT];
    let n = streams::read_full(&mut rt.stdin(), &mut input).count;
    let mut line = [0u8; LINE];
    let k = printing::answer(&input[..n], &mut line);
    streams::write_all(&mut rt.stdout(), &line[..k]);
}
