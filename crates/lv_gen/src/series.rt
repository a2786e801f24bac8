//! The model: a type of valve, valves of it, and laws that lead each valve's outlet to the inlet of the next. The text
//! is in canonical form.
#![tactic(auto)]

ghost use Rattle.std.specs.Prelude.{◌≡◌, ◌-◌, ◌<◌, ◌≤◌, ◌^◌, ◌++◌, IfOk};
ghost use Rattle.lv_gen.specs.Series as Series;
ghost use Rattle.lv_gen.specs.Series.{valve_type, part_line, part_lines, link_line, link_lines, model_text};

use crate::text::push_number;
use std::alloc::{AllocError, Global};

/// The fewest valves that are made.
const FEWEST_VALVES: u32 = 2;

/// How many numbers of valves are made.
const VALVE_COUNTS: u32 = 31;

/// The domains and the type of a valve.
const VALVE_TYPE: &[u8] = b"\
domain flow zero some
domain order none open close
type valve
control cmd order
variable inn flow
observable out flow
mode closed
mode open
mode stuck_closed
mode stuck_open
in closed out=zero
in open out=inn
in stuck_closed out=zero
in stuck_open out=inn
step closed->open when cmd=open
step open->closed when cmd=close
fault closed->stuck_closed cost 3
fault open->stuck_open cost 5
fault open->stuck_closed cost 4
fault closed->stuck_open cost 8
end
";

/// How many valves are made for a number.
pub fn valves(n: u32) -> u32
    ensures count { result ≡ Series.valves n }
    ensures fewest { 2 ≤ result }
    ensures most { result ≤ 32 }
{
    FEWEST_VALVES + n % VALVE_COUNTS
}

/// The text of the model of so many valves as the number stands for.
pub fn make_model(alloc: Global, n: u32) -> Result<Vec<u8>, AllocError>
    ensures { IfOk result (λ out. out.items ≡ model_text n) }
{
    let mut out = Vec::from_slice(alloc, b"model series\n")?;
    push_valve_type(&mut out)?;
    push_parts(&mut out, valves(n))?;
    out.extend_from_slice(b"law v1.inn=some\n")?;
    push_links(&mut out, valves(n) - 1)?;
    Ok(out)
}

/// Adds the domains and the type of a valve.
#[tactic(auto, unfolding(crate::specs::Series::valve_type))]
fn push_valve_type(out: &mut Vec<u8>) -> Result<(), AllocError>
    ensures { IfOk result (λ _. out.new.items ≡ out.old.items ++ valve_type) }
{
    out.extend_from_slice(VALVE_TYPE)?;
    Ok(())
}

/// Adds the lines of so many valves, each closed at the start.
fn push_parts(out: &mut Vec<u8>, count: u32) -> Result<(), AllocError>
    requires { count < 2 ^ 32 - 1 }
    ensures { IfOk result (λ _. out.new.items ≡ out.old.items ++ part_lines count) }
{
    for before in 0..count {
        push_part(out, before + 1)?;
    }
    Ok(())
}

/// Adds the line of a valve.
fn push_part(out: &mut Vec<u8>, valve: u32) -> Result<(), AllocError>
    ensures { IfOk result (λ _. out.new.items ≡ out.old.items ++ part_line valve) }
{
    out.extend_from_slice(b"part v")?;
    push_number(out, valve)?;
    out.extend_from_slice(b" valve ")?;
    out.extend_from_slice(b"closed\n")?;
    Ok(())
}

/// Adds the laws of so many links, each from a valve to the one behind it.
fn push_links(out: &mut Vec<u8>, count: u32) -> Result<(), AllocError>
    requires { count < 2 ^ 32 - 2 }
    ensures { IfOk result (λ _. out.new.items ≡ out.old.items ++ link_lines count) }
{
    for before in 0..count {
        push_link(out, before + 1)?;
    }
    Ok(())
}

/// Adds the law that what leaves a valve enters the one behind it.
fn push_link(out: &mut Vec<u8>, valve: u32) -> Result<(), AllocError>
    requires { valve < 2 ^ 32 - 1 }
    ensures { IfOk result (λ _. out.new.items ≡ out.old.items ++ link_line valve) }
{
    out.extend_from_slice(b"law v")?;
    push_number(out, valve + 1)?;
    out.extend_from_slice(b".inn=v")?;
    push_number(out, valve)?;
    out.extend_from_slice(b".out\n")?;
    Ok(())
}
