//! Formulas read, printed, refused and resolved, each public call with ample memory.

use lv_formula_text::{PhraseFault, print_phrase, read_phrase};
use lv_text::TokenLine;
use std::alloc::Global;

/// The canonical text of a formula.
fn canonical(alloc: Global, text: &[u8]) -> Option<Vec<u8>> {
    let line = TokenLine::read(alloc, text).ok()?;
    let phrase = read_phrase(alloc, &line, 0).ok()?;
    print_phrase(alloc, &phrase).ok()
}

fn prints(alloc: Global, text: &[u8], wanted: &[u8]) -> bool {
    match canonical(alloc, text) {
        Some(found) => found.as_slice() == wanted,
        None => false,
    }
}

/// Whether the text is refused for its form.
fn is_no_formula(alloc: Global, text: &[u8]) -> bool {
    let Ok(line) = TokenLine::read(alloc, text) else {
        return false;
    };
    matches!(read_phrase(alloc, &line, 0), Err(PhraseFault::Form))
}

fn is_too_deep(alloc: Global, text: &[u8]) -> bool {
    let Ok(line) = TokenLine::read(alloc, text) else {
        return false;
    };
    matches!(read_phrase(alloc, &line, 0), Err(PhraseFault::TooDeep))
}

#[test]
fn prints_canonical_texts(rt: HostRuntime) {
    assert!(rt; prints(rt.alloc(), b"a = b", b"a=b"));
    assert!(rt; prints(rt.alloc(), b"!( a=b ) & ( c=d | e=f )", b"!a=b&(c=d|e=f)"));
    assert!(rt; prints(rt.alloc(), b"a=b => c=d => e=f", b"a=b=>c=d=>e=f"));
    assert!(rt; prints(rt.alloc(), b"( a=b => c=d ) => e=f", b"(a=b=>c=d)=>e=f"));
    assert!(rt; prints(rt.alloc(), b"(a=b <=> c=d) <=> e=f", b"(a=b<=>c=d)<=>e=f"));
    assert!(rt;
        prints(
            rt.alloc(),
            b"a=b|c=d&!(e=f & g=h)<=>true",
            b"a=b|c=d&!(e=f&g=h)<=>true"
        )
    );
    assert!(rt;
        prints(
            rt.alloc(),
            b"((p.x = q.y)) & ((a=b & c=d))",
            b"p.x=q.y&(a=b&c=d)"
        )
    );
    assert!(rt;
        prints(
            rt.alloc(),
            b"! ! false | (true | x=y)",
            b"!!false|(true|x=y)"
        )
    );
    assert!(rt; prints(rt.alloc(), b"a=b => (c=d <=> e=f)", b"a=b=>(c=d<=>e=f)"));
}

#[test]
fn refuses_other_forms(rt: HostRuntime) {
    assert!(rt; is_no_formula(rt.alloc(), b"a ="));
    assert!(rt; is_no_formula(rt.alloc(), b"a=b c=d"));
    assert!(rt; is_no_formula(rt.alloc(), b"true=x"));
    assert!(rt; is_no_formula(rt.alloc(), b"(a=b"));
    assert!(rt; is_no_formula(rt.alloc(), b"a=b & "));
    assert!(rt; is_no_formula(rt.alloc(), b"a.b.c=d"));
    assert!(rt; is_no_formula(rt.alloc(), b"a = 3"));
    assert!(rt; is_no_formula(rt.alloc(), b""));
    assert!(rt; is_no_formula(rt.alloc(), b"(a=b).c"));
}

#[test]
fn refuses_deep_nesting(rt: HostRuntime) {
    assert!(rt; is_too_deep(rt.alloc(), &[b'('; 65]));
    assert!(rt; is_no_formula(rt.alloc(), &[b'('; 64]));
    assert!(rt; is_too_deep(rt.alloc(), &[b'!'; 257]));
    assert!(rt; is_no_formula(rt.alloc(), &[b'!'; 256]));
}
