// Planning on a text into a buffer of bytes.
ghost use Rattle.std.specs.Prelude.{◌≤◌, IfOk, IfSome};
ghost use Rattle.calls.specs.Calls.{Planned};
ghost use Rattle.calls.specs.Copies.{Copied, InBytes, answer_in};

use crate::{NONE, answer_of};
use answer::{ROWS, plan_text};
use bfs::{Link, Outcome};
use fault::Fault;

// Copies action numbers into a buffer, a byte for each; refuses a buffer with too few places.
fn copy_numbers(numbers: &[u16], out: &mut [u8]) -> Result<(), Fault>
    requires { InBytes numbers.now }
    ensures { Copied numbers.now out.old out.new result }
{
    if out.len() < numbers.len() {
        return Err(Fault::TooFewPlaces);
    }
    for (i, number) in numbers.iter().enumerate() {
        out[i] = u8::try_from(*number).unwrap();
    }
    Ok(())
}

// Plans on a text, and copies a plan into the buffer: the plan's length, or nothing where there is no plan.
fn plan_into(text: &[u8], plan: &mut [u8]) -> Result<Option<usize>, Fault>
    ensures planned { Planned text.now plan.old plan.new (answer_in result) }
    ensures few { IfOk result (λ n. IfSome n (λ d. d ≤ 2048)) }
{
    let mut nodes = [0u64; ROWS];
    let mut links = [Link::ORIGIN; ROWS];
    let mut moves = [0u16; ROWS];
    match plan_text(text, &mut nodes, &mut links, &mut moves)? {
        Outcome::Plan((length, _)) => {
            copy_numbers(&moves[..length], plan)?;
            Ok(Some(length))
        }
        Outcome::NoPlan(_) => Ok(None),
    }
}

// Plans on a text, forward and with 2,048 rows, into a buffer that has a byte for each action of the plan: the plan's length, minus 100
// where there is no plan, else minus the refusal's number.
#[unsafe(no_mangle)]
pub extern "C" fn luzafoma_plan(text: &[u8], plan: &mut [u8]) -> i32
    ensures { Planned text.now plan.old plan.new result }
{
    match plan_into(text, plan) {
        Ok(Some(length)) => i32::try_from(length).unwrap(),
        Ok(None) => NONE,
        Err(fault) => answer_of(fault),
    }
}
