//! The literals of the booleans 0, 1, 2 and 3.
use lv_base::{BoolId, Lit};

pub const A: Lit = Lit {
    var: BoolId(0),
    sign: true,
};

pub const B: Lit = Lit {
    var: BoolId(1),
    sign: true,
};

pub const C: Lit = Lit {
    var: BoolId(2),
    sign: true,
};

pub const D: Lit = Lit {
    var: BoolId(3),
    sign: true,
};

pub const NOT_A: Lit = Lit {
    var: BoolId(0),
    sign: false,
};

pub const NOT_B: Lit = Lit {
    var: BoolId(1),
    sign: false,
};

pub const NOT_D: Lit = Lit {
    var: BoolId(3),
    sign: false,
};
