// Reads a paper from standard input, as cells, which carry the hand that typed them, and prints what is printed for it.
#![tactic(auto)]

use element::Cell;
use session::answer_paper;

fn main(rt: HostRuntime) -> anyhow::Result<()> {
    answer_paper::<Cell, _, _>(rt.alloc(), rt.stdin(), &mut rt.stdout())
}
