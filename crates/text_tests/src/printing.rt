//! Texts with every kind of statement, of both versions, and their canonical texts.

use lv_reader::{Canonical, read_model};
use std::alloc::{AllocError, Global};

const WRITTEN: &[u8] = b"# a plant with every statement

domain  flow zero  some # two values
domain order none open close
 type valve
\tcontrol cmd order
variable inn flow
  observable out flow
mode closed
mode open
law ((inn = zero) | (out=zero) | !(!(inn = out)))
in closed (out = zero)
in open ((out = inn) & true) <=> ((inn = zero) => (false <=> inn = some))
step closed -> open when (cmd = open)
step open -> closed when ((cmd=close))
fault closed -> open cost 003
fault open -> closed cost 10 when (inn=zero & (out = zero & inn = zero)) | out = some
end
part v  valve   closed
law (v . inn = some) => (v.out = zero) => v.mode = open
price v . cmd = open 0012
";

const CANONICAL: &[u8] = b"version 2
model model
domain flow zero some
domain order none open close
type valve
control cmd order
variable inn flow
observable out flow
mode closed
mode open
law inn=zero|out=zero|!!inn=out
in closed out=zero
in open out=inn&true<=>inn=zero=>(false<=>inn=some)
step closed->open when cmd=open
step open->closed when cmd=close
fault closed->open cost 3
fault open->closed cost 10 when inn=zero&(out=zero&inn=zero)|out=some
end
part v valve closed
law v.inn=some=>v.out=zero=>v.mode=open
price v.cmd=open 12
";

const WRITTEN_IN_TWO: &[u8] = b"# what version two adds
  version 002
model m

domain d a b
type t
control c d
observable o d
mode x
mode y
mode z
in x|y  |  z ((o = c))
in x(o = a)
fault->z cost 07
fault -> y cost 1 when (c = a) & (o = b)
fault x -> y cost 0010 repair c=b
fault z->z cost 2 repair  mode = when when !(c = a)
end
part p t x
";

const CANONICAL_IN_TWO: &[u8] = b"version 2
model m
domain d a b
type t
control c d
observable o d
mode x
mode y
mode z
in x|y|z o=c
in x o=a
fault->z cost 7
fault->y cost 1 when c=a&o=b
fault x->y cost 10 repair c=b
fault z->z cost 2 repair mode=when when!c=a
end
part p t x
";

/// Whether the text is read and printed so.
fn is_printed_so(alloc: Global, written: &[u8], canonical: &[u8]) -> Result<bool, AllocError> {
    let Ok(text) = read_model(alloc, written) else {
        return Ok(false);
    };
    let mut printed = Canonical::new(alloc)?;
    for numbered in text.statements.as_slice() {
        printed.push(&numbered.statement)?;
    }
    Ok(printed.into_bytes()?.as_slice() == canonical)
}

#[test]
fn prints_every_statement(rt: HostRuntime) -> Result<(), AllocError> {
    assert!(rt; is_printed_so(rt.alloc(), WRITTEN, CANONICAL)?);
    assert!(rt; is_printed_so(rt.alloc(), WRITTEN_IN_TWO, CANONICAL_IN_TWO)?);
    Ok(())
}

#[test]
fn prints_what_is_printed_as_it_is(rt: HostRuntime) -> Result<(), AllocError> {
    assert!(rt; is_printed_so(rt.alloc(), CANONICAL, CANONICAL)?);
    assert!(rt; is_printed_so(rt.alloc(), CANONICAL_IN_TWO, CANONICAL_IN_TWO)?);
    Ok(())
}
