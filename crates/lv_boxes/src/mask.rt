//! A set of up to 64 choices as the bits of a word: choice `c` is in it where bit `c` is 1.
#![tactic(auto)]

ghost use Rattle.std.specs.Prelude.{◌≡◌, ◌≤◌, length};
ghost use Rattle.lv_boxes.specs.Masks.{has_choice, only_choice, without_choice, only_group, without_group};

/// Whether the mask has the choice.
pub fn has(mask: u64, choice: usize) -> bool
    ensures { result ≡ has_choice mask choice }
{
    choice < 64 && (mask >> choice) & 1 == 1
}

/// The mask with no choice but this one, and not that one either where it was not there.
pub fn only(mask: u64, choice: u32) -> u64
    ensures { result ≡ only_choice mask choice }
{
    if choice < 64 { mask & (1 << choice) } else { 0 }
}

/// The mask with this choice taken out.
pub fn without(mask: u64, choice: u32) -> u64
    ensures { result ≡ without_choice mask choice }
{
    mask ^ only(mask, choice)
}

/// The mask with no choices but those of this group, where these are the groups of the choices.
pub fn only_group(mask: u64, groups: &[u32], group: u32) -> u64
    requires { length groups.now ≤ 64 }
    ensures { result ≡ only_group mask groups.now group }
{
    let mut left = mask;
    for (choice, other) in groups.iter().enumerate() {
        if *other != group {
            left = without(left, choice as u32);
        }
    }
    left
}

/// The mask with the choices of this group taken out.
pub fn without_group(mask: u64, groups: &[u32], group: u32) -> u64
    requires { length groups.now ≤ 64 }
    ensures { result ≡ without_group mask groups.now group }
{
    mask ^ only_group(mask, groups, group)
}
