// The choices of a plan, history by history in depth-first order, as three recursions write or read them: a plan extended by first choices
// (`extending`), the plan with a number in dictionary order (`ranking`), and the total of a plan (`weighing`).
#![tactic(auto)]

// The most choices of a plan: six steps, four outcomes to each.
pub const CHOICES: usize = 1365;

pub mod extending;
pub mod ranking;
pub mod weighing;
