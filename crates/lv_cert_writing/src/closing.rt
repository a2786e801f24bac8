//! Splits of zones, as lines of a certificate, that go on until each zone is passed: the zones are gone through by their
//! numbers, and each that has a member which counts is split by what explains its least member. The parts come behind.
#![tactic(auto)]

ghost use Rattle.std.specs.Prelude.{◌≡◌, ◌≤◌, ◌^◌, true, length, position, option_map, Some, None, All, IfOk, IfSome, OnOk};
ghost use Rattle.std.specs.Option.{option_copied};
ghost use Rattle.lv_base.specs.Choices.{contains_all};
ghost use Rattle.lv_boxes.specs.Members.{ZoneValue};
ghost use Rattle.lv_boxes.specs.Ranked.{is_rank};
ghost use Rattle.lv_cert_meaning.specs.Space as Spaces;
ghost use Rattle.lv_cert_writing.specs.Explained.{stands_for, AreExplained};
ghost use Rattle.lv_cert_writing.specs.Explained as explained;
ghost use Rattle.lv_cert_writing.specs.Closing.{Cut, can_be_listed, AreForQuestion, cut_of_listed, cut_of, cut_at, with_cut, after_cut, Closes, EvidenceIsSmall, SplitIsSmall};
ghost use Rattle.lv_cert_writing.specs.Closing as Closings;

use lv_base::{Conflict, Rank, contains};
use lv_boxes::{Grid, Groups, Zone, choices_as_conflict};
use lv_cert::{Evidence, Question};
use lv_cert_meaning::Space;
use std::alloc::{AllocError, Global};

/// A split: the zone of this number, counted from 1, by this evidence.
#[derive(Clone, Copy, Debug, PartialEq, Eq)]
pub struct Split {
    pub zone: u128,
    pub by: Evidence,
}

/// Why candidates need not be listed: each contains an excluded conflict, is listed, has the target of a listed one, or
/// ranks behind the last that counts. A recovery lists one command set at most, and has no targets.
#[derive(Drop)]
pub struct Explanations<'a> {
    pub question: Question,
    /// Which choices lead to the same mode, where candidates are to have distinct targets.
    pub targets: Option<&'a Groups>,
    pub excluded: &'a [Conflict],
    pub listed: &'a [Rank],
    /// The last that counts, where as many are listed as are wanted.
    pub last: Option<&'a Rank>,
}

/// Splits of these zones, with what their choices cost, until each that is open is empty or its least member ranks behind
/// the last that counts. A zone is split by the first excluded conflict in its least member, or else by all choices of the
/// listed candidate that this is; or, where targets are given, by that of the listed candidate that it has. So each member
/// must be explained. Conflicts, listed candidates and zones are numbered from 1, and the zones that a split makes come
/// behind the others.
pub fn close(
    alloc: Global,
    why: &Explanations<'_>,
    grid: Grid,
    zones: Vec<Zone>,
) -> Result<Vec<Split>, AllocError>
    requires explained { AreExplained (option_copied why.now.targets) grid zones.items (option_copied why.now.last) why.now.listed.now why.now.excluded.now }
    requires few { can_be_listed why.now.question (length why.now.listed.now) ≡ true }
    requires targets { AreForQuestion (option_copied why.now.targets) why.now.question }
    ensures closes { IfOk result (λ made. Closes (option_copied why.now.targets) why.now.question grid zones.items (option_copied why.now.last) why.now.listed.now why.now.excluded.now made.items) }
    ensures small { IfOk result (λ made. All SplitIsSmall made.items) }
{
    let mut space = Space::new(alloc, grid, zones)?;
    let mut made = Vec::new(alloc);
    let mut at = 0;
    while at < space.len() {
        let zone = at as u128 + 1;
        if let Some(by) = why.close_zone(alloc, &mut space, zone)? {
            made.push(Split { zone, by })?;
        }
        at += 1;
    }
    Ok(made)
}

/// The last of the listed, where as many are listed as are wanted: what ranks behind it need not be listed.
pub fn last_if_full(listed: &[Rank], k: usize) -> Option<&Rank>
    ensures { option_copied result ≡ explained.last_if_full k listed.now }
{
    if listed.len() == k {
        listed.last()
    } else {
        None
    }
}

/// Whether the rank is behind the last one, where this is asked for.
fn is_behind(last: Option<&Rank>, r: &Rank) -> bool
    ensures { result ≡ Spaces.is_behind (option_copied last.entry) r.now }
{
    match last {
        Some(last) => last.before(r),
        None => false,
    }
}

impl Explanations<'_> {
    /// Splits the zone of this number, if its least member doesn't rank behind the last, by what explains that member.
    fn close_zone(
        &self,
        alloc: Global,
        space: &mut Space,
        n: u128,
    ) -> Result<Option<Evidence>, AllocError>
        ensures by { IfOk result (λ by. by ≡ option_map (λ (cut : Cut). cut.by) (cut_at (option_copied self.now.targets) self.now.question (option_copied self.now.last) self.now.listed.now self.now.excluded.now space.old n)) }
        ensures small { IfOk result (λ by. IfSome by EvidenceIsSmall) }
        ensures space { OnOk result (space.new ≡ after_cut space.old n (cut_at (option_copied self.now.targets) self.now.question (option_copied self.now.last) self.now.listed.now self.now.excluded.now space.old n)) }
    {
        match space.least_of(alloc, n)? {
            Some(least) if !is_behind(self.last, &least) => {
                self.split_zone(alloc, space, n, &least)
            }
            _ => Ok(None),
        }
    }

    /// Splits the zone of this number, whose least member has this rank, by the first excluded conflict in that, or else
    /// by the listed candidate that it is, or whose target it has.
    fn split_zone(
        &self,
        alloc: Global,
        space: &mut Space,
        n: u128,
        least: &Rank,
    ) -> Result<Option<Evidence>, AllocError>
        requires { length least.now.choices ≤ 4096 }
        ensures by { IfOk result (λ by. by ≡ option_map (λ (cut : Cut). cut.by) (cut_of (option_copied self.now.targets) self.now.question self.now.listed.now self.now.excluded.now least.now)) }
        ensures small { IfOk result (λ by. IfSome by EvidenceIsSmall) }
        ensures space { (zone : ZoneValue) → Spaces.open_zone space.old n ≡ Some zone → OnOk result (space.new ≡ with_cut space.old n zone (cut_of (option_copied self.now.targets) self.now.question self.now.listed.now self.now.excluded.now least.now)) }
    {
        if let Some(place) = first_inside(self.excluded, least.choices.as_slice()) {
            space.split(alloc, n, &self.excluded[place])?;
            return Ok(Some(Evidence::Conflict(place as u128 + 1)));
        }
        match self.targets {
            None => self.split_by_listed(alloc, space, n, least),
            Some(groups) => match first_standing(groups, self.listed, least) {
                Some(place) => {
                    let choices = self.listed[place].choices.as_slice();
                    space.split_by_groups(alloc, n, groups, choices)?;
                    Ok(Some(Evidence::Target(place as u128 + 1)))
                }
                None => Ok(None),
            },
        }
    }

    /// Splits the zone of this number, whose least member has this rank, by all choices of the listed one that it is.
    fn split_by_listed(
        &self,
        alloc: Global,
        space: &mut Space,
        n: u128,
        least: &Rank,
    ) -> Result<Option<Evidence>, AllocError>
        requires { length least.now.choices ≤ 4096 }
        ensures by { IfOk result (λ by. by ≡ option_map (λ (cut : Cut). cut.by) (cut_of_listed None self.now.question self.now.listed.now least.now)) }
        ensures small { IfOk result (λ by. IfSome by EvidenceIsSmall) }
        ensures space { (zone : ZoneValue) → Spaces.open_zone space.old n ≡ Some zone → OnOk result (space.new ≡ with_cut space.old n zone (cut_of_listed None self.now.question self.now.listed.now least.now)) }
    {
        match place_of(self.listed, least) {
            Some(place) => {
                let own = choices_as_conflict(alloc, least.choices.as_slice())?;
                space.split(alloc, n, &own)?;
                Ok(Some(listed_evidence(self.question, place as u128 + 1)))
            }
            None => Ok(None),
        }
    }
}

/// The place of the first listed candidate that stands for the rank.
fn first_standing(groups: &Groups, listed: &[Rank], rank: &Rank) -> Option<usize>
    ensures { result ≡ position (stands_for (Some groups.now) rank.now) listed.now }
{
    listed
        .iter()
        .position(|other| stands_for(groups, rank, other))
}

/// Whether the other is the rank, or ranks before it and has its target.
fn stands_for(groups: &Groups, rank: &Rank, other: &Rank) -> bool
    ensures { result ≡ stands_for (Some groups.now) rank.now other.now }
{
    is_same(rank, other)
        || groups.are_one(rank.choices.as_slice(), other.choices.as_slice()) && other.before(rank)
}

/// The place of the first conflict that the choices contain.
fn first_inside(conflicts: &[Conflict], choices: &[u32]) -> Option<usize>
    ensures { result ≡ position (contains_all choices.now) conflicts.now }
{
    conflicts
        .iter()
        .position(|conflict| contains(choices, conflict.pairs()))
}

/// The place of the first of the ranks that is this one.
fn place_of(ranks: &[Rank], rank: &Rank) -> Option<usize>
    ensures { result ≡ position (is_rank rank.now) ranks.now }
{
    ranks.iter().position(|other| is_same(rank, other))
}

fn is_same(rank: &Rank, other: &Rank) -> bool
    ensures { result ≡ is_rank rank.now other.now }
{
    rank == other
}

/// A listed candidate as evidence, by its number.
fn listed_evidence(question: Question, n: u128) -> Evidence
    requires { n ≤ 2 ^ 64 }
    ensures is { result ≡ Closings.listed_evidence question n }
    ensures small { EvidenceIsSmall result }
{
    match question {
        Question::Diagnosis => Evidence::Listed(n),
        Question::Recovery => Evidence::Recovery,
    }
}
