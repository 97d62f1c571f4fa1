// Reads a hopper problem from standard input, and prints a shortest list of moves that gets the level wanted.
#![tactic(auto)]

mod input;

use anyhow::anyhow;
use bfs::{Link, Outcome, find_plan};
use fault::Fault;
use hoppers::{Hoppers, Levels};
use input::{BadInput, Problem, read};
use std::alloc::{AllocError, Global};
use std::io;
use std::process::ExitCode;
use thiserror::Error;

// Why there is no answer: the problem is refused, or memory ran out.
#[derive(Debug, Drop, Error)]
enum Stop {
    #[error("refused {0}")]
    Refused(#[from] Fault),
    #[error(transparent)]
    Memory(#[from(alloc)] AllocError),
}

// The hoppers of a problem, what the search answers, and the numbers of the moves of its plan, if it finds one.
fn search(heap: Global, problem: &Problem) -> Result<(Hoppers, Outcome, Vec<u16>), Stop> {
    let hoppers = Hoppers::new(
        &problem.capacities,
        &problem.levels,
        problem.hopper,
        problem.wanted,
    )?;
    let mut nodes = vec![in heap; Levels::padded(&[]); problem.rows]?;
    let mut links = vec![in heap; Link::ORIGIN; problem.rows]?;
    let mut plan = vec![in heap; 0u16; problem.rows]?;
    let outcome = find_plan(&hoppers, &mut nodes, &mut links, &mut plan)?;
    if let Outcome::Plan((length, _)) = outcome {
        plan.truncate(length);
    }
    Ok((hoppers, outcome, plan))
}

// Searches, and prints the answer and the plan.
fn solve(rt: &HostRuntime, problem: &Problem) -> anyhow::Result<()> {
    println!(rt; "answer length rows")?;
    match search(rt.alloc(), problem) {
        Ok((hoppers, Outcome::Plan((length, used)), plan)) => {
            println!(rt; "plan {length} {used}")?;
            print_moves(rt, &hoppers, &plan)?;
        }
        Ok((_, Outcome::NoPlan(used), _)) => println!(rt; "none 0 {used}")?,
        Err(refused @ Stop::Refused(_)) => println!(rt; "{refused}")?,
        Err(stop) => return Err(stop.into()),
    }
    Ok(())
}

fn print_moves(rt: &HostRuntime, hoppers: &Hoppers, plan: &[u16]) -> anyhow::Result<()> {
    for number in plan {
        let step = hoppers
            .move_numbered(*number)
            .ok_or_else(|| anyhow!("the plan holds a number that is no move"))?;
        println!(rt; "{step}")?;
    }
    Ok(())
}

// Says what was wrong with the problem, whole: an `anyhow::Error` keeps 120 bytes, and one of these messages is longer.
fn print_bad_input(rt: &HostRuntime, bad: BadInput) -> anyhow::Result<ExitCode> {
    eprintln!(rt; "Error: {bad}")?;
    Ok(ExitCode::FAILURE)
}

fn run(rt: &HostRuntime) -> anyhow::Result<ExitCode> {
    let text = io::read_to_string(rt.alloc(), rt.stdin())?;
    match read(rt.alloc(), text.as_str()) {
        Ok(problem) => {
            solve(rt, &problem)?;
            Ok(ExitCode::SUCCESS)
        }
        Err(bad) => print_bad_input(rt, bad),
    }
}

fn main(rt: HostRuntime) -> anyhow::Result<ExitCode> {
    run(&rt)
}
