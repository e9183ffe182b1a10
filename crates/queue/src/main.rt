// Runs a script of calls through a ring of bytes, and prints what each did.
#![tactic(auto)]

mod bench;
mod lines;
mod run;
mod show;

fn main(rt: HostRuntime) -> anyhow::Result<()> {
    run::run(&rt)
}
