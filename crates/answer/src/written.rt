// The answer of planning on a sheet, as text.
ghost use Rattle.std.specs.Prelude.{◌≡◌, ◌<◌, ◌++◌, IfOk, string_bytes, OnOk};
ghost use Rattle.sheet.specs.Grid.{action_count};
ghost use Rattle.sheet.specs.Sheets.{text_in};
ghost use Rattle.answer.specs.Reports.{head_text, name_line, names_text, InRange, shown_plan, answer_text, Nameable, Reported};

use crate::plan_text;
use bfs::{Link, Outcome};
use fault::Fault;
use sheet::Sheet;
use std::alloc::{AllocError, Global};

// The rows and the plan places that a search may fill.
pub const ROWS: usize = 2_048;

// The first two lines of an answer: below the first, answer, plan length and rows.
fn head_text(heap: Global, answer: Result<Outcome, Fault>) -> Result<String, AllocError>
    ensures { IfOk result (λ s. string_bytes s ≡ head_text answer) }
{
    match answer {
        Ok(Outcome::Plan((length, rows))) => {
            format!(in heap; "answer length rows\nplan {length} {rows}\n")
        }
        Ok(Outcome::NoPlan(rows)) => format!(in heap; "answer length rows\nnone 0 {rows}\n"),
        Err(fault) => format!(in heap; "answer length rows\nrefused {fault}\n"),
    }
}

// Puts the name of an action behind what is written, with a line end.
fn push_name(out: &mut Vec<u8>, sheet: &Sheet<'_>, k: u16) -> Result<(), AllocError>
    ensures { OnOk result (k < action_count (text_in sheet.now) → out.new.items ≡ out.old.items ++ name_line (text_in sheet.now) k) }
{
    if let Some(name) = sheet.action_name(usize::from(k)) {
        out.extend_from_slice(name.bytes)?;
        out.push(b'\n')?;
    }
    Ok(())
}

// Puts the names of a plan's actions behind what is written, one to a line.
fn push_names(out: &mut Vec<u8>, sheet: &Sheet<'_>, plan: &[u16]) -> Result<(), AllocError>
    ensures { OnOk result (InRange (text_in sheet.now) plan.now → out.new.items ≡ out.old.items ++ names_text (text_in sheet.now) plan.now) }
{
    for k in plan {
        push_name(out, sheet, *k)?;
    }
    Ok(())
}

// The plan that an answer shows, at the front of the plan slice.
fn shown_plan(answer: Result<Outcome, Fault>, plan: &[u16]) -> &[u16]
    ensures { result.now ≡ shown_plan answer plan.now }
{
    match answer {
        Ok(Outcome::Plan((length, _))) => plan.get(..length).unwrap_or(plan),
        Ok(Outcome::NoPlan(_)) | Err(_) => &[],
    }
}

// Puts the names of a plan's actions behind what is written, where the text is a sheet.
fn push_plan(out: &mut Vec<u8>, text: &[u8], plan: &[u16]) -> Result<(), AllocError>
    ensures { OnOk result (Nameable text.now plan.now → out.new.items ≡ out.old.items ++ names_text text.now plan.now) }
{
    let Ok(sheet) = Sheet::read(text) else {
        return Ok(());
    };
    push_names(out, &sheet, plan)
}

// The answer as text.
fn answer_text(
    heap: Global,
    text: &[u8],
    answer: Result<Outcome, Fault>,
    plan: &[u16],
) -> Result<Vec<u8>, AllocError>
    ensures { IfOk result (λ v. (Nameable text.now (shown_plan answer plan.now) → v.items ≡ answer_text text.now plan.now answer)) }
{
    let head = head_text(heap, answer)?;
    let mut out = Vec::new(heap);
    out.extend_from_slice(head.as_bytes())?;
    push_plan(&mut out, text, shown_plan(answer, plan))?;
    Ok(out)
}

// Plans on a text with 2,048 rows and plan places, and writes the answer.
pub fn report(heap: Global, text: &[u8]) -> Result<Vec<u8>, AllocError>
    ensures { IfOk result (λ v. Reported text.now v.items) }
{
    let mut nodes = [0u64; ROWS];
    let mut links = [Link::ORIGIN; ROWS];
    let mut plan = [0u16; ROWS];
    let answer = plan_text(text, &mut nodes, &mut links, &mut plan);
    answer_text(heap, text, answer, &plan)
}
