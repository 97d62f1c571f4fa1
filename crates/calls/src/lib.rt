// The calls that a Rust program links. A slice crosses as a pointer and a length.
#![tactic(auto)]

ghost use Rattle.calls.specs.Calls.{Tried, Dualised, refusing};
ghost use Rattle.std.specs.Prelude.{◌≡◌};

mod planning;

use dual_text::write_dual;
use fault::Fault;
use sheet::Sheet;

// The answer where there is no plan.
pub(crate) const NONE: i32 = -100;

// The answer of a refusal: minus its number.
pub(crate) fn answer_of(fault: Fault) -> i32
    ensures { result ≡ refusing fault }
{
    -i32::from(fault.number())
}

// Tries a text: 0 where it is a sheet, else minus the refusal's number.
#[unsafe(no_mangle)]
pub extern "C" fn luzafoma_try(text: &[u8]) -> i32
    ensures { Tried text.now result }
{
    match Sheet::read(text) {
        Ok(_) => 0,
        Err(fault) => answer_of(fault),
    }
}

// Writes the dual of a sheet into a buffer: the text's length, else minus the refusal's number.
#[unsafe(no_mangle)]
pub extern "C" fn luzafoma_dualise(text: &[u8], out: &mut [u8]) -> i32
    ensures { Dualised text.now out.old out.new result }
{
    match write_dual(text, out) {
        Ok(length) => i32::try_from(length).unwrap(),
        Err(fault) => answer_of(fault),
    }
}
