// Reads a paper from standard input, as bytes, and prints what is printed for it.
#![tactic(auto)]

use session::answer_paper;

fn main(rt: HostRuntime) -> anyhow::Result<()> {
    answer_paper::<u8, _, _>(rt.alloc(), rt.stdin(), &mut rt.stdout())
}
