// The call for the arm's controller, which is in C: the function of `plan_judge::c_call` under its own name, as include/plan_judge.h declares it.
// At C each slice is a pointer and a length behind it.
#![tactic(auto)]

ghost use Rattle.std.specs.Prelude.{length};
ghost use Rattle.plan_judge.specs.promises.CChain.{c_chain, Tells};

// Gives 0 for no, 1 for yes, or 100 plus the refusal. The sheet buffer changes only by the write.
#[unsafe(no_mangle)]
pub extern "C" fn plan_judge(model: &[u8], question: &[u8], sheet: &mut [u8]) -> u32
    ensures { Tells (c_chain model.now question.now (length sheet.old)) sheet.old sheet.new result }
{
    plan_judge::c_call::plan_judge(model, question, sheet)
}
