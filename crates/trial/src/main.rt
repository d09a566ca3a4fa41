// trial: reads a plan and calls on its boards from standard input, runs the boards, and prints what each call answered.
#![tactic(auto)]

mod options;
mod play;
mod rack;
mod runs;

fn main(rt: HostRuntime) -> anyhow::Result<()> {
    runs::run(&rt)
}
