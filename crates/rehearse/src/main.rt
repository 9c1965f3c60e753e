// Reads a script and plays it, line by line.
#![tactic(auto)]

ghost use Rattle.std.specs.Prelude.{◌≡◌, OnErr};

mod company;
mod draft;
mod expected;
mod failure;
mod liars;
mod play;
mod rows;
mod scene;
mod script;
mod show;
mod stage;
mod words;

use anyhow::anyhow;
use expected::Expected;
use failure::Failure;
use scene::Reply;
use show::Refused;
use stage::Stage;
use std::alloc::Global;
use std::io::{BufRead, BufReader};
use std::process::ExitCode;

// Carries out a line. One that can't be used changes nothing.
fn answer(stage: &mut Stage, heap: Global, line: &[u8]) -> Result<Reply, Failure>
    ensures same { OnErr result (stage.new ≡ stage.old) }
{
    let text = std::str::from_utf8(line).map_err(|_| Expected::Utf8)?;
    match script::parse(heap, text.strip_suffix('\n').unwrap_or(text))? {
        Some(command) => stage.carry_out(heap, command),
        None => Ok(Reply::Nothing),
    }
}

// Plays the script that comes in, until it ends.
fn play_all(rt: &HostRuntime) -> anyhow::Result<()> {
    let mut input = BufReader::new(rt.alloc(), rt.stdin())?;
    let mut stage = Stage::new();
    let mut line = Vec::new(rt.alloc());
    for n in 1..u64::MAX {
        line.clear();
        if input.read_until(b'\n', &mut line)? == 0 {
            return Ok(());
        }
        match answer(&mut stage, rt.alloc(), line.as_slice()) {
            Ok(Reply::Nothing) => {}
            Ok(Reply::Refused(refusals)) => {
                let refused = Refused(refusals.as_slice());
                print!(rt; "{refused}")?;
            }
            Ok(Reply::Show) => print!(rt; "{stage}")?,
            Err(Failure::Unusable(expected)) => println!(rt; "line {n}: expected {expected}")?,
            Err(Failure::Memory(error)) => return Err(error.into()),
        }
    }
    Err(anyhow!("too many lines"))
}

fn main(rt: HostRuntime) -> ExitCode {
    let Err(error) = play_all(&rt) else {
        return ExitCode::SUCCESS;
    };
    let _ = eprintln!(rt; "rehearse: {error}");
    ExitCode::FAILURE
}
