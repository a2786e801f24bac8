//! When the search takes all its choices back, to begin anew with what it has learned.
#![tactic(auto)]

ghost use Rattle.std.specs.Prelude.{◌≡◌, ◌+◌, true, false};

/// After how many conflicts at least.
const SHORTEST: u64 = 100;

/// How often at most. So the search ends, since without it fewer trails are left after each conflict.
const MOST: u64 = 1 << 40;

/// How often it may still be done, how many conflicts are left until then, and the place in the series of lengths, which
/// are the shortest one times 1, 1, 2, 1, 1, 2, 4, 1, 1, 2, 1, 1, 2, 4, 8 and so on.
#[derive(Clone, Copy, Debug)]
pub struct Pace {
    pub left: u64,
    conflicts: u64,
    round: u64,
    length: u64,
}

impl Pace {
    pub fn new() -> Pace {
        Pace {
            left: MOST,
            conflicts: SHORTEST,
            round: 1,
            length: 1,
        }
    }

    /// Counts a conflict, and answers whether it is time.
    pub fn is_due(&mut self) -> bool
        ensures fewer { result ≡ true → self.old.left ≡ self.new.left + 1 }
        ensures same { result ≡ false → self.new.left ≡ self.old.left }
    {
        if self.conflicts > 0 {
            self.conflicts -= 1;
            return false;
        }
        if self.left == 0 {
            return false;
        }
        self.left -= 1;
        self.turn();
        true
    }

    /// Goes on in the series: a length that is the greatest power of two in the round ends it.
    fn turn(&mut self)
        ensures { self.new.left ≡ self.old.left }
    {
        if self.round & self.round.wrapping_neg() == self.length {
            self.round = self.round.wrapping_add(1);
            self.length = 1;
        } else {
            self.length = self.length.wrapping_mul(2);
        }
        self.conflicts = self.length.saturating_mul(SHORTEST);
    }
}
