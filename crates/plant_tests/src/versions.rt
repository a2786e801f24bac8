//! Lines of the second version in a type, with the verdict that an independent reference program gives, and the moves of
//! both versions.

use lv_checker::model_of;
use lv_model::Model;
use lv_reader::ModelFault;
use std::alloc::{AllocError, Global};

/// What stands before the modes: two domains, a control, an observable and a dependent variable.
const HEAD: &[u8] = b"version 2
domain d a b
domain e a
type t
control c d
observable o d
variable x e
mode m
";

/// What stands behind the lines of a type.
const TAIL: &[u8] = b"end
part p t m
";

/// Which modes there are.
#[derive(Clone, Copy)]
enum Modes {
    Alone,
    Two,
    Sixteen,
}

impl Modes {
    /// The lines behind the first mode's, and how many modes there are.
    fn lines(self) -> (&'static [u8], usize) {
        match self {
            Modes::Alone => (b"", 1),
            Modes::Two => (b"mode n\n", 2),
            Modes::Sixteen => (
                b"mode n\nmode k\nmode l\nmode q0\nmode q1\nmode q2\nmode q3\nmode q4\nmode q5\nmode q6\nmode q7\nmode q8\nmode q9\nmode r0\nmode r1\n",
                16,
            ),
        }
    }
}

/// A line, and so many times another before it; the code for which it is refused, or 0 where the text is accepted.
struct Row {
    modes: Modes,
    times: usize,
    before: &'static [u8],
    line: &'static [u8],
    code: u32,
}

const ROWS: [Row; 41] = [
    Row {
        modes: Modes::Two,
        times: 0,
        before: b"",
        line: b"in m | q c = a",
        code: 8,
    },
    Row {
        modes: Modes::Two,
        times: 0,
        before: b"",
        line: b"in q | m c = z",
        code: 8,
    },
    Row {
        modes: Modes::Two,
        times: 0,
        before: b"",
        line: b"in m | n z = a",
        code: 8,
    },
    Row {
        modes: Modes::Two,
        times: 0,
        before: b"",
        line: b"in m | n c = z",
        code: 9,
    },
    Row {
        modes: Modes::Two,
        times: 0,
        before: b"",
        line: b"in m | m c = z",
        code: 9,
    },
    Row {
        modes: Modes::Two,
        times: 0,
        before: b"",
        line: b"in m | m c = a",
        code: 7,
    },
    Row {
        modes: Modes::Two,
        times: 0,
        before: b"",
        line: b"in m | n | m mode = mode <=> (mode = mode <=> mode = mode)",
        code: 7,
    },
    Row {
        modes: Modes::Two,
        times: 0,
        before: b"",
        line: b"in m | n mode = mode <=> (mode = mode <=> mode = mode)",
        code: 14,
    },
    Row {
        modes: Modes::Two,
        times: 0,
        before: b"",
        line: b"in m | n c = a",
        code: 0,
    },
    Row {
        modes: Modes::Two,
        times: 0,
        before: b"",
        line: b"fault -> q cost 1",
        code: 8,
    },
    Row {
        modes: Modes::Two,
        times: 0,
        before: b"",
        line: b"fault -> m cost 1 when z = a",
        code: 8,
    },
    Row {
        modes: Modes::Alone,
        times: 0,
        before: b"",
        line: b"fault -> m cost 1 when c = z",
        code: 9,
    },
    Row {
        modes: Modes::Alone,
        times: 0,
        before: b"",
        line: b"fault -> m cost 1 when mode = mode <=> (mode = mode <=> mode = mode)",
        code: 14,
    },
    Row {
        modes: Modes::Two,
        times: 0,
        before: b"",
        line: b"fault -> m cost 1 when mode = mode <=> (mode = mode <=> mode = mode)",
        code: 14,
    },
    Row {
        modes: Modes::Alone,
        times: 0,
        before: b"",
        line: b"fault -> m cost 1",
        code: 0,
    },
    Row {
        modes: Modes::Two,
        times: 0,
        before: b"",
        line: b"fault -> m cost 1 when c = a",
        code: 0,
    },
    Row {
        modes: Modes::Two,
        times: 0,
        before: b"",
        line: b"fault q -> m cost 1 repair z = a when y = y",
        code: 8,
    },
    Row {
        modes: Modes::Two,
        times: 0,
        before: b"",
        line: b"fault m -> n cost 1 repair z = a when c = z",
        code: 8,
    },
    Row {
        modes: Modes::Two,
        times: 0,
        before: b"",
        line: b"fault m -> n cost 1 repair o = a when y = y",
        code: 9,
    },
    Row {
        modes: Modes::Two,
        times: 0,
        before: b"",
        line: b"fault m -> n cost 1 repair x = a",
        code: 9,
    },
    Row {
        modes: Modes::Two,
        times: 0,
        before: b"",
        line: b"fault m -> n cost 1 repair mode = m",
        code: 9,
    },
    Row {
        modes: Modes::Two,
        times: 0,
        before: b"",
        line: b"fault m -> n cost 1 repair c = z when y = y",
        code: 9,
    },
    Row {
        modes: Modes::Two,
        times: 0,
        before: b"",
        line: b"fault m -> n cost 1 repair c = o",
        code: 9,
    },
    Row {
        modes: Modes::Two,
        times: 0,
        before: b"",
        line: b"fault m -> n cost 1 repair c = a when y = y",
        code: 8,
    },
    Row {
        modes: Modes::Two,
        times: 0,
        before: b"",
        line: b"fault m -> n cost 1 repair c = a when c = z",
        code: 9,
    },
    Row {
        modes: Modes::Two,
        times: 0,
        before: b"",
        line: b"fault m -> n cost 1 repair c = a when mode = mode <=> (mode = mode <=> mode = mode)",
        code: 14,
    },
    Row {
        modes: Modes::Two,
        times: 0,
        before: b"",
        line: b"fault m -> m cost 1 repair c = a",
        code: 0,
    },
    Row {
        modes: Modes::Two,
        times: 0,
        before: b"",
        line: b"fault m -> n cost 1 repair c = b when o = c",
        code: 0,
    },
    Row {
        modes: Modes::Two,
        times: 61,
        before: b"fault -> m cost 1\n",
        line: b"fault -> m cost 1",
        code: 0,
    },
    Row {
        modes: Modes::Two,
        times: 62,
        before: b"fault -> m cost 1\n",
        line: b"fault -> m cost 1",
        code: 12,
    },
    Row {
        modes: Modes::Two,
        times: 60,
        before: b"fault n -> m cost 1\n",
        line: b"fault m -> n cost 1 repair c = a",
        code: 0,
    },
    Row {
        modes: Modes::Two,
        times: 61,
        before: b"fault n -> m cost 1\n",
        line: b"fault m -> n cost 1 repair c = a",
        code: 12,
    },
    Row {
        modes: Modes::Two,
        times: 61,
        before: b"fault n -> m cost 1\n",
        line: b"fault m -> n cost 1 repair c = z",
        code: 9,
    },
    Row {
        modes: Modes::Sixteen,
        times: 2,
        before: b"fault -> m cost 1\n",
        line: b"fault -> m cost 1",
        code: 0,
    },
    Row {
        modes: Modes::Sixteen,
        times: 3,
        before: b"fault -> m cost 1\n",
        line: b"fault -> n cost 1",
        code: 12,
    },
    Row {
        modes: Modes::Sixteen,
        times: 3,
        before: b"fault -> m cost 1\n",
        line: b"fault -> n cost 1 when mode = mode <=> (mode = mode <=> mode = mode)",
        code: 14,
    },
    Row {
        modes: Modes::Sixteen,
        times: 3,
        before: b"fault -> m cost 1\n",
        line: b"fault m -> n cost 1 repair c = a",
        code: 0,
    },
    Row {
        modes: Modes::Alone,
        times: 100,
        before: b"fault -> m cost 1\n",
        line: b"fault -> m cost 1",
        code: 0,
    },
    Row {
        modes: Modes::Two,
        times: 62,
        before: b"fault n -> m cost 1\n",
        line: b"mode q",
        code: 12,
    },
    Row {
        modes: Modes::Two,
        times: 0,
        before: b"",
        line: b"version 1",
        code: 10,
    },
    Row {
        modes: Modes::Two,
        times: 0,
        before: b"",
        line: b"version 2",
        code: 10,
    },
];

/// The text of a row, and the number of its line.
fn text_of(alloc: Global, row: &Row) -> Result<(Vec<u8>, usize), AllocError> {
    let (lines, modes) = row.modes.lines();
    let mut text = Vec::from_slice(alloc, HEAD)?;
    text.extend_from_slice(lines)?;
    for _ in 0..row.times {
        text.extend_from_slice(row.before)?;
    }
    text.extend_from_slice(row.line)?;
    text.extend_from_slice(b"\n")?;
    text.extend_from_slice(TAIL)?;
    Ok((text, modes.saturating_add(row.times).saturating_add(8)))
}

fn has_verdict(alloc: Global, row: &Row) -> Result<bool, AllocError> {
    let (text, number) = text_of(alloc, row)?;
    match model_of(alloc, text.as_slice()) {
        Ok(model) => {
            drop(model);
            Ok(row.code == 0)
        }
        Err(ModelFault::At { code, line }) => Ok(code.number() == row.code && line == number),
        Err(ModelFault::Memory) => Ok(false),
    }
}

#[test]
fn judges_lines_of_the_second_version(rt: HostRuntime) -> Result<(), AllocError> {
    for row in &ROWS {
        assert!(rt; has_verdict(rt.alloc(), row)?);
    }
    Ok(())
}

/// A type with every form of move, in the second version.
const SHORT: &[u8] = b"version 2
domain d a b
type t
control c d
mode m
mode n
fault -> m cost 7
step m -> n when c = b
mode k
fault m -> n cost 3 repair c = a when c = b
step n -> m when c = b
fault -> n cost 9
fault n -> m cost 2 repair c = b
in k | m c = a
in n true
end
part p t m
";

/// The same in the first, each move by itself.
const LONG: &[u8] = b"domain d a b
type t
control c d
mode m
mode n
fault n -> m cost 7
step m -> n when c = b
mode k
fault m -> n cost 3 when c = b
step n -> m when c = a
step n -> m when c = b
fault m -> n cost 9
fault k -> n cost 9
fault n -> m cost 2
step m -> n when c = b
in k c = a
in m c = a
in n true
end
part p t m
";

/// A move by its source, target, cost and line.
type Told = (u32, u32, u64, u32);

/// The moves of the model's only type.
fn moves_of(alloc: Global, model: &Model) -> Result<Vec<Told>, AllocError> {
    let mut told = Vec::new(alloc);
    for t in model.plant().types.as_slice() {
        for m in t.moves.as_slice() {
            told.push((m.source.0, m.target.0, m.cost.0, m.line))?;
        }
    }
    Ok(told)
}

/// The moves of the text, where it is accepted.
fn moves_in(alloc: Global, text: &[u8]) -> Result<Vec<Told>, AllocError> {
    match model_of(alloc, text) {
        Ok(model) => moves_of(alloc, &model),
        Err(_) => Ok(Vec::new(alloc)),
    }
}

/// The moves of `SHORT`, as the reference program has them.
const SHORT_MOVES: [Told; 12] = [
    (0, 1, 0, 2),
    (0, 1, 0, 6),
    (0, 0, 0, 0),
    (0, 1, 3, 3),
    (0, 1, 9, 5),
    (1, 0, 0, 3),
    (1, 0, 0, 4),
    (1, 1, 0, 0),
    (1, 0, 7, 1),
    (1, 0, 2, 6),
    (2, 2, 0, 0),
    (2, 1, 9, 5),
];

/// The moves of `LONG`, as the reference program has them.
const LONG_MOVES: [Told; 12] = [
    (0, 1, 0, 2),
    (0, 1, 0, 9),
    (0, 0, 0, 0),
    (0, 1, 3, 3),
    (0, 1, 9, 6),
    (1, 0, 0, 4),
    (1, 0, 0, 5),
    (1, 1, 0, 0),
    (1, 0, 7, 1),
    (1, 0, 2, 8),
    (2, 2, 0, 0),
    (2, 1, 9, 7),
];

#[test]
fn expands_lines_in_their_places(rt: HostRuntime) -> Result<(), AllocError> {
    let short = moves_in(rt.alloc(), SHORT)?;
    let long = moves_in(rt.alloc(), LONG)?;
    assert!(rt; short.as_slice() == &SHORT_MOVES[..]);
    assert!(rt; long.as_slice() == &LONG_MOVES[..]);
    Ok(())
}
