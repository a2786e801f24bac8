//! Small texts whose statements the rules give, and the lines on which others are refused.

use lv_reader::{ModelCode, ModelFault, read_model};
use std::alloc::Global;

#[test]
fn reads_statements(rt: HostRuntime) -> Result<(), ModelFault> {
    let text = read_model(rt.alloc(), b"model m\n# none\n\ntype t\r\nlaw true\nend")?;
    assert!(rt; text.lines == 6);
    let wanted = [1, 4, 5, 6];
    assert!(rt; text.statements.len() == wanted.len());
    for (i, numbered) in text.statements.as_slice().iter().enumerate() {
        assert!(rt; i < wanted.len() && numbered.line == wanted[i]);
        assert!(rt; numbered.statement.number_fits());
    }
    Ok(())
}

/// A text that is not read, why, and on which line.
struct Row {
    text: &'static [u8],
    code: ModelCode,
    line: usize,
}

/// Whether a text is not read for this reason on this line.
fn is_refused(alloc: Global, row: &Row) -> bool {
    match read_model(alloc, row.text) {
        Err(ModelFault::At { code, line }) => code == row.code && line == row.line,
        _ => false,
    }
}

/// What a text may not say, of either version.
const ROWS: [Row; 40] = [
    Row {
        text: b"model m\nend \xff\n",
        code: ModelCode::BadByte,
        line: 2,
    },
    Row {
        text: b"modl m\n",
        code: ModelCode::UnknownStatement,
        line: 1,
    },
    Row {
        text: b"model\n",
        code: ModelCode::Form,
        line: 1,
    },
    Row {
        text: b"part mode t m\n",
        code: ModelCode::Form,
        line: 1,
    },
    Row {
        text: b"# first\nfault a -> b cost 18446744073709551617\n",
        code: ModelCode::NumberOutOfRange,
        line: 2,
    },
    Row {
        text: b"law a.b = c <=> true = c\n",
        code: ModelCode::Form,
        line: 1,
    },
    Row {
        text: b"version 0\n",
        code: ModelCode::NumberOutOfRange,
        line: 1,
    },
    Row {
        text: b"version 3\nmodel m\n",
        code: ModelCode::NumberOutOfRange,
        line: 1,
    },
    Row {
        text: b"version 3\n",
        code: ModelCode::NumberOutOfRange,
        line: 1,
    },
    Row {
        text: b"model m\nversion 3\n",
        code: ModelCode::NumberOutOfRange,
        line: 2,
    },
    Row {
        text: b"version\n",
        code: ModelCode::Form,
        line: 1,
    },
    Row {
        text: b"version two\n",
        code: ModelCode::Form,
        line: 1,
    },
    Row {
        text: b"version 2 2\n",
        code: ModelCode::Form,
        line: 1,
    },
    Row {
        text: b"version 2\nversion 340282366920938463463374607431768211457\n",
        code: ModelCode::NumberOutOfRange,
        line: 2,
    },
    Row {
        text: b"in a | b c = d\n",
        code: ModelCode::Form,
        line: 1,
    },
    Row {
        text: b"version 1\nin a | b c = d\n",
        code: ModelCode::Form,
        line: 2,
    },
    Row {
        text: b"fault -> b cost 1\n",
        code: ModelCode::Form,
        line: 1,
    },
    Row {
        text: b"fault a -> b cost 1 repair c = d\n",
        code: ModelCode::Form,
        line: 1,
    },
    Row {
        text: b"fault a -> b cost 0 repair c = d\n",
        code: ModelCode::Form,
        line: 1,
    },
    Row {
        text: b"model m\nversion 2\nin a | b c = d\n",
        code: ModelCode::Form,
        line: 3,
    },
    Row {
        text: b"version 1\nversion 2\nfault -> b cost 1\n",
        code: ModelCode::Form,
        line: 3,
    },
    Row {
        text: b"version 2\nin a | c = d\n",
        code: ModelCode::Form,
        line: 2,
    },
    Row {
        text: b"version 2\nin a | b | | c = d\n",
        code: ModelCode::Form,
        line: 2,
    },
    Row {
        text: b"version 2\nin a | b\n",
        code: ModelCode::Form,
        line: 2,
    },
    Row {
        text: b"version 2\nin | b c = d\n",
        code: ModelCode::Form,
        line: 2,
    },
    Row {
        text: b"version 2\nin a b | c d = e\n",
        code: ModelCode::Form,
        line: 2,
    },
    Row {
        text: b"version 2\nfault -> cost 1\n",
        code: ModelCode::Form,
        line: 2,
    },
    Row {
        text: b"version 2\nfault a b cost 1\n",
        code: ModelCode::Form,
        line: 2,
    },
    Row {
        text: b"version 2\nfault -> b cost 1 repair c = d\n",
        code: ModelCode::Form,
        line: 2,
    },
    Row {
        text: b"version 2\nfault -> b cost 1 when\n",
        code: ModelCode::Form,
        line: 2,
    },
    Row {
        text: b"version 2\nfault -> b cost 0\n",
        code: ModelCode::NumberOutOfRange,
        line: 2,
    },
    Row {
        text: b"version 2\nfault -> b cost 1000001 when c = d\n",
        code: ModelCode::NumberOutOfRange,
        line: 2,
    },
    Row {
        text: b"version 2\nfault a -> b cost 1 repair\n",
        code: ModelCode::Form,
        line: 2,
    },
    Row {
        text: b"version 2\nfault a -> b cost 1 repair c\n",
        code: ModelCode::Form,
        line: 2,
    },
    Row {
        text: b"version 2\nfault a -> b cost 1 repair c = d e = f\n",
        code: ModelCode::Form,
        line: 2,
    },
    Row {
        text: b"version 2\nfault a -> b cost 1 repair p.c = d\n",
        code: ModelCode::Form,
        line: 2,
    },
    Row {
        text: b"version 2\nfault a -> b cost 1 repair c = d repair c = e\n",
        code: ModelCode::Form,
        line: 2,
    },
    Row {
        text: b"version 2\nfault a -> b cost 1 when c = d repair c = e\n",
        code: ModelCode::Form,
        line: 2,
    },
    Row {
        text: b"version 2\nfault a -> b cost 0 repair c = d\n",
        code: ModelCode::NumberOutOfRange,
        line: 2,
    },
    Row {
        text: b"version 2\nstep a -> b repair c = d\n",
        code: ModelCode::Form,
        line: 2,
    },
];

#[test]
fn refuses_other_lines(rt: HostRuntime) {
    for row in &ROWS {
        assert!(rt; is_refused(rt.alloc(), row));
    }
}

/// A text that is read, and how many statements it has.
struct ReadRow {
    text: &'static [u8],
    statements: usize,
}

const READ_ROWS: [ReadRow; 8] = [
    ReadRow {
        text: b"",
        statements: 0,
    },
    ReadRow {
        text: b"version 2\n",
        statements: 0,
    },
    ReadRow {
        text: b"# first\n\nversion 01\nmodel m\n",
        statements: 1,
    },
    ReadRow {
        text: b"version 2\nversion 1\nin a | b c = true\n",
        statements: 2,
    },
    ReadRow {
        text: b"model m\nversion 2\n",
        statements: 2,
    },
    ReadRow {
        text: b"version 2\nin a|b|c d = e | f = g\nfault->b cost 1 when c = d\n",
        statements: 2,
    },
    ReadRow {
        text: b"version 2\nfault a->b cost 1 repair true = false when c = d\nin in in = in\n",
        statements: 2,
    },
    ReadRow {
        text: b"version 1\nin a b = c\nfault a -> b cost 1\n",
        statements: 2,
    },
];

#[test]
fn reads_both_versions(rt: HostRuntime) -> Result<(), ModelFault> {
    for row in &READ_ROWS {
        let text = read_model(rt.alloc(), row.text)?;
        assert!(rt; text.statements.len() == row.statements);
    }
    Ok(())
}
