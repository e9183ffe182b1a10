// A script from its first line to its last.
ghost use Rattle.std.specs.Prelude.{◌≡◌};

use crate::bench::Bench;
use crate::lines::{Line, Lines};
use crate::show::{Drawing, Items, Said, Slices};
use bins::Bin;
use script::{Command, Plain, parse};
use std::fmt::Display;
use std::io;
use std::io::Read;

// Says what became of a line.
fn tell(rt: &HostRuntime, line: Line, what: impl Display + Drop) -> io::Result<()> {
    let number = line.number;
    let text = String::from_utf8_lossy(rt.alloc(), line.text)?;
    let text = text.as_str().trim_end();
    println!(rt; "{number}: {text} -> {what}")
}

// Says why a line was not done.
fn skip(rt: &HostRuntime, line: Line, why: impl Display + Drop) -> io::Result<()> {
    tell(rt, line, format_args!("not done: {why}"))
}

// Walks over the list from the front, and then from the back.
fn walk(rt: &HostRuntime, bench: &Bench) -> anyhow::Result<()> {
    let there: Vec<u8> = bench.iter().copied().collect(rt.alloc())?;
    let back: Vec<u8> = bench.iter().rev().copied().collect(rt.alloc())?;
    let there = Items(there.as_slice());
    let back = Items(back.as_slice());
    println!(rt; "   from the front:{there}; from the back:{back}")?;
    Ok(())
}

fn draw(rt: &HostRuntime, bench: &Bench) -> io::Result<()> {
    let drawing = Drawing {
        slots: bench.slots(),
        places: bench.places(),
    };
    println!(rt; "  {drawing}")
}

// One line, carried out and told, with the list after it.
fn step(
    rt: &HostRuntime,
    line: Line,
    bench: &mut Bench,
    command: &Command<Vec<u8>, Vec<bool>>,
) -> anyhow::Result<()>
    ensures { bench.new.ring.places.capacity ≡ bench.old.ring.places.capacity }
{
    let answer = Said(bench.perform(command));
    let (first, second) = bench.slices();
    let slices = Slices(first, second);
    tell(rt, line, format_args!("{answer} {slices}"))?;
    match command {
        Command::Plain(Plain::Iter) => walk(rt, bench),
        Command::Plain(Plain::Draw) => Ok(draw(rt, bench)?),
        _ => Ok(()),
    }
}

// The lines up to `close`, which it answers, or to the end.
fn steps<'a>(
    rt: &HostRuntime,
    lines: &mut Lines<'a>,
    bench: &mut Bench,
) -> anyhow::Result<Option<Line<'a>>>
    ensures { bench.new.ring.places.capacity ≡ bench.old.ring.places.capacity }
{
    for line in lines.by_ref() {
        match parse(rt.alloc(), line.text) {
            Err(error) => skip(rt, line, error.mistake()?)?,
            Ok(Command::Nothing) => (),
            Ok(Command::Make(_)) => skip(rt, line, "there is a ring already")?,
            Ok(Command::Plain(Plain::Close)) => return Ok(Some(line)),
            Ok(command) => step(rt, line, bench, &command)?,
        }
    }
    Ok(None)
}

// A ring of so many slots, from its making to its closing.
fn session(rt: &HostRuntime, lines: &mut Lines, capacity: usize) -> anyhow::Result<()> {
    let mut bench = Bench::new(rt.alloc(), capacity)?;
    let ended = steps(rt, lines, &mut bench);
    let (closed, bin) = bench.close();
    match ended? {
        Some(line) => tell(rt, line, format_args!("{closed} | /"))?,
        None => println!(rt; "end of the script -> {closed} | /")?,
    }
    let count = bin.count();
    let kept = Items(bin.kept());
    println!(rt; "bin {count}:{kept}")?;
    Ok(())
}

// The lines before the making; answers how many slots it asks for, if it comes.
fn opening(rt: &HostRuntime, lines: &mut Lines) -> anyhow::Result<Option<usize>> {
    for line in lines.by_ref() {
        match parse(rt.alloc(), line.text) {
            Err(error) => skip(rt, line, error.mistake()?)?,
            Ok(Command::Nothing) => (),
            Ok(Command::Make(slots)) => {
                tell(rt, line, "ok | /")?;
                return Ok(Some(slots));
            }
            Ok(_) => skip(rt, line, "there is no ring yet: begin with a capacity")?,
        }
    }
    Ok(None)
}

// The lines after the closing.
fn ending(rt: &HostRuntime, lines: &mut Lines) -> anyhow::Result<()> {
    for line in lines.by_ref() {
        match parse(rt.alloc(), line.text) {
            Err(error) => skip(rt, line, error.mistake()?)?,
            Ok(Command::Nothing) => (),
            Ok(_) => skip(rt, line, "the ring is closed")?,
        }
    }
    Ok(())
}

pub(crate) fn run(rt: &HostRuntime) -> anyhow::Result<()> {
    let mut input = Vec::new(rt.alloc());
    rt.stdin().read_to_end(&mut input)?;
    let mut lines = Lines::new(input.as_slice());
    let Some(capacity) = opening(rt, &mut lines)? else {
        return Ok(());
    };
    session(rt, &mut lines, capacity)?;
    ending(rt, &mut lines)
}
