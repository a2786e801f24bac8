//! Texts that are refused, of the first version and of the second.

use lv_checker::model_of;
use lv_reader::ModelFault;
use std::alloc::Global;

/// A text that is refused, the number of the code, and the line.
struct Refusal {
    text: &'static [u8],
    code: u32,
    line: usize,
}

/// Whether a text is refused with this code on this line.
fn is_refused(alloc: Global, refusal: &Refusal) -> bool {
    match model_of(alloc, refusal.text) {
        Err(ModelFault::At { code, line }) => {
            code.number() == refusal.code && line == refusal.line
        }
        _ => false,
    }
}

const REFUSALS: [Refusal; 20] = [
    Refusal {
        text: b"",
        code: 15,
        line: 1,
    },
    Refusal {
        text: b"domain d a a\n",
        code: 7,
        line: 1,
    },
    Refusal {
        text: b"type t\nend\n",
        code: 11,
        line: 2,
    },
    Refusal {
        text: b"type t\nmode m\n",
        code: 11,
        line: 3,
    },
    Refusal {
        text: b"domain d a\nmodel m\n",
        code: 10,
        line: 2,
    },
    Refusal {
        text: b"type t\nmode m\nend\npart p t n\n",
        code: 8,
        line: 4,
    },
    Refusal {
        text: b"type t\nmode m\nend\npart p t m\nlaw p.mode = n\n",
        code: 9,
        line: 5,
    },
    Refusal {
        text: b"type t\nmode m\nlaw mode = mode <=> (mode = mode <=> mode = mode)\nend\npart p t m\n",
        code: 14,
        line: 3,
    },
    Refusal {
        text: b"domain d a b\ntype t\ncontrol c d\nmode m\nend\npart p t m\nprice p.c = a 3\n",
        code: 9,
        line: 7,
    },
    Refusal {
        text: b"version 2\n",
        code: 15,
        line: 2,
    },
    Refusal {
        text: b"model m\nversion 2\n",
        code: 10,
        line: 2,
    },
    Refusal {
        text: b"version 2\nversion 2\n",
        code: 10,
        line: 2,
    },
    Refusal {
        text: b"version 2\ndomain d a\nversion 1\n",
        code: 10,
        line: 3,
    },
    Refusal {
        text: b"type t\nversion 1\n",
        code: 10,
        line: 2,
    },
    Refusal {
        text: b"version 2\nmodel m\nmodel m\n",
        code: 10,
        line: 3,
    },
    Refusal {
        text: b"version 2\ndomain d a\nmodel m\n",
        code: 10,
        line: 3,
    },
    Refusal {
        text: b"version 1\nmodel m\ntype t\nin m | n c = a\n",
        code: 5,
        line: 4,
    },
    Refusal {
        text: b"version 2\nin m | n c = a\n",
        code: 10,
        line: 2,
    },
    Refusal {
        text: b"version 2\nfault -> m cost 1\n",
        code: 10,
        line: 2,
    },
    Refusal {
        text: b"version 2\nfault m -> n cost 1 repair c = a\n",
        code: 10,
        line: 2,
    },
];

#[test]
fn refuses_other_texts(rt: HostRuntime) {
    for refusal in &REFUSALS {
        assert!(rt; is_refused(rt.alloc(), refusal));
    }
}
