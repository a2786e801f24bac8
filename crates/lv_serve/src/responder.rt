//! What can be served: something that answers lines.
#![tactic(auto)]

ghost use Rattle.std.specs.Prelude.{◌≡◌, ◌<◌, ℕ, List, [], Bool, true, OnOk, length};
ghost use Rattle.lv_base.specs.declared.limits.TheConstants.{LINE_BYTES};

use std::alloc::AllocError;

/// Something that answers lines, one after another. Where a line leads to is a function of where the responder stands;
/// which text stands for the reply is a relation.
///
/// What it knows of a line that is longer than a line may be doesn't depend on what stands in it, so that whoever serves
/// it need not keep such a line.
pub trait Responder {
    ghost next: { Self → List ℕ → Self };

    ghost says: { Self → List ℕ → List ℕ → Type 0 };

    ghost has_ended: { Self → Bool };

    /// Does what a line asks for, which is given without its end, and writes a text of the reply in place of what stands in
    /// `text`. After want of memory nothing is known of where it stands, nor of the text.
    fn answer(&mut self, line: &[u8], text: &mut Vec<u8>) -> Result<(), AllocError>
        ensures goes { OnOk result (self.new ≡ next self.old line.now) }
        ensures says { OnOk result (says self.old line.now text.new.items) };

    /// Whether later lines get no reply and change nothing. Takes no memory.
    fn is_ended(&self) -> bool
        ensures { result ≡ has_ended self.now };

    ghost long_goes: { (s : Self) (a b : List ℕ) → LINE_BYTES < length a → LINE_BYTES < length b → next s a ≡ next s b };

    ghost long_says: { (s : Self) (a b text : List ℕ) → LINE_BYTES < length a → LINE_BYTES < length b → says s a text → says s b text };

    ghost ended_stays: { (s : Self) (line : List ℕ) → has_ended s ≡ true → next s line ≡ s };

    ghost ended_silent: { (s : Self) (line : List ℕ) → has_ended s ≡ true → says s line [] };
}
