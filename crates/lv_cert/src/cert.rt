//! A certificate: lines in the order of the format, whoever put them together.
#![tactic(auto)]

ghost use Rattle.std.specs.Prelude.{◌≡◌, Some};
ghost use Rattle.lv_cert.specs.Order.{place_behind};
ghost use Rattle.lv_cert.specs.declared.order.Place.TheVariants.{Start, Done};

use crate::line::Line;
use lv_base::Seq;

/// A certificate: its lines, which lead from the start to the end, so that each stands where it may and none is left out.
#[derive(Debug, Drop)]
pub struct Cert {
    lines: Seq<Line>,
    pub ghost order: { place_behind Start lines ≡ Some Done },
}

impl Cert {
    /// The certificate of lines in order.
    pub fn new(lines: Seq<Line>) -> Cert
        requires { place_behind Start lines ≡ Some Done }
        ensures { result.lines ≡ lines }
    {
        Cert { lines }
    }

    /// Its lines.
    pub fn lines(&self) -> &[Line]
        ensures { result.now ≡ self.now.lines }
    {
        self.lines.as_slice()
    }
}
