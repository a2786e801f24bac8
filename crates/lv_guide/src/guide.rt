//! What is left to try as zones in a queue. A zone is kept by the rank of its first member that contains none of some of the
//! known conflicts: at first its least member, whatever that contains. When that member has come to the front and contains
//! a known conflict, the zone is split by it, so many times in all. Once these splits are used up, there are too many
//! zones: they are left for those that there were before any split by a conflict, and from then on no conflict splits a
//! zone: the first member without a known conflict is looked for in the zone at the front, from the member that it is
//! kept by. The parts of a zone of which a member was listed are put in by what few steps tell of them, since most of
//! them come to the front late.
#![tactic(auto)]

ghost use Rattle.std.specs.Prelude.{◌≡◌, true, false, not, IfOk, IfSome, OnOk, None, find, is_none, length, [], ◌∷◌};
ghost use Rattle.std.specs.Option.{option_copied};
ghost use Rattle.lv_base.specs.Choices.{contains_all};
ghost use Rattle.lv_boxes.specs.GroupParts.{have_shape};
ghost use Rattle.lv_boxes.specs.Laws.{pairs_of};
ghost use Rattle.lv_boxes.specs.Least.{lacks_choice};
ghost use Rattle.lv_boxes.specs.RankedMembers.{IsLeastRank, ranked_members, sources_differ};
ghost use Rattle.lv_boxes.specs.Walk.{is_ruled_out};
ghost use Rattle.lv_search.specs.Free.{is_free_rank, free_of};
ghost use Rattle.lv_guide.specs.Near.{IsFirstNear};
ghost use Rattle.lv_guide.specs.Guide.{AreKeptBy, AreNear, IsReady, HasMore, HasMoreBy, HasRoomBy, HasSameFree, LooksAgain, DropsFirst, DropsAlike, WholeTells, front_is_free};

use super::beside::first_beside;
use super::known::Known;
use super::near::least_free_near;
use lv_base::{Conflict, Rank, Seq, contains};
use lv_boxes::{Grid, Groups, Zone, choices_as_conflict, split, split_by_groups};
use lv_search::Frontier;
use std::alloc::{AllocError, Global};
use std::collections::BTreeMap;
use std::marker::Model;
use std::mem;

/// The candidates left that contain no conflict which it was told of. Contracts see the list of them, each as its rank, in
/// the order of their ranks.
#[derive(Drop)]
pub struct Guide {
    alloc: Global,
    grid: Grid,
    known: Known,
    queue: BTreeMap<Rank, Zone>,
    course: Course,
}

/// How zones whose members contain known conflicts are dealt with.
#[derive(Debug, Drop)]
struct Course {
    /// The zones before any was split, where no candidate is listed so far, and the splits aren't used up.
    whole: Option<Seq<Zone>>,
    /// How often zones may still be split by conflicts.
    splits: u64,
}

/// How often zones may be split by conflicts at first, and how often more with each conflict.
const SPLITS_AT_FIRST: u64 = 16;

const SPLITS_BY_CONFLICT: u64 = 2;

impl Course {
    /// That of a frontier which is only dropped.
    fn over() -> Course
        ensures { result ≡ record { whole = None; splits = 0 } }
    {
        Course {
            whole: None,
            splits: 0,
        }
    }

    /// Allows more splits for one more conflict, where they aren't used up.
    fn allow_more(&mut self)
        ensures { self.new.whole ≡ self.old.whole }
    {
        if self.splits > 0 {
            self.splits = self.splits.saturating_add(SPLITS_BY_CONFLICT);
        }
    }
}

impl Model for Guide {
    ghost use Rattle.std.specs.Prelude.{List};
    ghost use Rattle.lv_base.specs.declared.rank.Rank.{Rank};
    ghost use Rattle.lv_guide.specs.Guide.{left_in, IsGuide};

    ghost Value = { List Rank };

    ghost view = { λ g. left_in g.grid g.known g.queue.entries };

    ghost invariant = { λ g. IsGuide g.grid g.known g.queue.entries g.course.whole };
}

impl Guide {
    /// The members of these zones, of which no two have one source. The grid tells what choices cost.
    pub fn new(alloc: Global, grid: Grid, zones: Vec<Zone>) -> Result<Guide, AllocError>
        requires { sources_differ zones.items ≡ true }
        ensures { IfOk result (λ all. all ≡ ranked_members grid zones.items) }
    {
        let whole = copied(alloc, zones.as_slice())?;
        let known = Known::new(alloc, grid.len(), Vec::new(alloc))?;
        let mut queue = BTreeMap::new(alloc);
        put_all(alloc, &grid, &mut queue, zones)?;
        Ok(Guide {
            alloc,
            grid,
            known,
            queue,
            course: Course {
                whole: Some(whole),
                splits: SPLITS_AT_FIRST,
            },
        })
    }

    /// As `new`, without the members that contain one of these conflicts. They are many from the start: no zone is split
    /// by them, or by those that come.
    pub fn new_with(
        alloc: Global,
        grid: Grid,
        zones: Vec<Zone>,
        known: Vec<Conflict>,
    ) -> Result<Guide, AllocError>
        requires { sources_differ zones.items ≡ true }
        ensures { IfOk result (λ all. all ≡ free_of known.items (ranked_members grid zones.items)) }
    {
        let mut known = Known::new(alloc, grid.len(), known)?;
        let mut queue = BTreeMap::new(alloc);
        put_all(alloc, &grid, &mut queue, zones)?;
        look_ahead(alloc, &grid, &mut known, &mut queue)?;
        Ok(Guide {
            alloc,
            grid,
            known,
            queue,
            course: Course::over(),
        })
    }
}

/// The rank of the zone's least member, if it has members.
fn least_of(alloc: Global, grid: &Grid, zone: &Zone) -> Result<Option<Rank>, AllocError>
    ensures none { IfOk result (λ least. is_none least ≡ lacks_choice grid.now zone.now.masks) }
    ensures least { IfOk result (λ least. IfSome least (λ rank. IsLeastRank grid.now zone.now rank)) }
{
    let mut choices = vec![in alloc; 0; grid.len()]?;
    match grid.write_best(zone, &mut choices) {
        Some(cost) => Ok(Some(Rank {
            cost,
            source: zone.source(),
            choices: Seq::from_vec(choices),
        })),
        None => Ok(None),
    }
}

/// All choices of a candidate with a choice for each slot, as a conflict.
fn own_choices(alloc: Global, grid: &Grid, rank: &Rank) -> Result<Conflict, AllocError>
    requires { length rank.now.choices ≡ length grid.now }
    ensures { IfOk result (λ conflict. conflict ≡ pairs_of rank.now.choices) }
{
    let _slots = grid.len();
    choices_as_conflict(alloc, rank.choices.as_slice())
}

/// Puts a zone into the queue by its least member, if it has members.
fn put(
    alloc: Global,
    grid: &Grid,
    queue: &mut BTreeMap<Rank, Zone>,
    zone: Zone,
) -> Result<(), AllocError>
    requires { HasRoomBy grid.now (zone ∷ []) queue.old.entries }
    ensures { OnOk result (HasMore grid.now (zone ∷ []) queue.old.entries queue.new.entries) }
{
    if let Some(rank) = least_of(alloc, grid, &zone)? {
        queue.insert(rank, zone)?;
    }
    Ok(())
}

/// Puts zones into the queue, each by its least member, where they have members.
fn put_all(
    alloc: Global,
    grid: &Grid,
    queue: &mut BTreeMap<Rank, Zone>,
    zones: Vec<Zone>,
) -> Result<(), AllocError>
    requires { HasRoomBy grid.now zones.items queue.old.entries }
    ensures { OnOk result (HasMore grid.now zones.items queue.old.entries queue.new.entries) }
{
    for zone in zones {
        put(alloc, grid, queue, zone)?;
    }
    Ok(())
}

/// Puts a part of a zone into the queue, of which a member was listed that contains no known conflict: without what few
/// steps rule out, and by its first member by some of the known conflicts, if it has one.
fn put_part(
    alloc: Global,
    grid: &Grid,
    known: &Known,
    queue: &mut BTreeMap<Rank, Zone>,
    part: Zone,
    listed: &Rank,
) -> Result<(), AllocError>
    requires room { HasRoomBy grid.now (part ∷ []) queue.old.entries }
    requires near { IsFirstNear grid.now part known.now listed.now }
    requires free { is_free_rank known.now listed.now ≡ true }
    ensures { OnOk result (HasMoreBy grid.now known.now (part ∷ []) queue.old.entries queue.new.entries) }
{
    match first_beside(alloc, grid, &part, known, listed)? {
        Some(found) => {
            queue.insert(found.0, found.1)?;
            Ok(())
        }
        None => Ok(()),
    }
}

/// Puts the parts of a zone into the queue, of which a member was listed that contains no known conflict.
fn put_parts(
    alloc: Global,
    grid: &Grid,
    known: &Known,
    queue: &mut BTreeMap<Rank, Zone>,
    parts: Vec<Zone>,
    listed: &Rank,
) -> Result<(), AllocError>
    requires room { HasRoomBy grid.now parts.items queue.old.entries }
    requires near { AreNear grid.now known.now listed.now parts.items }
    requires free { is_free_rank known.now listed.now ≡ true }
    ensures { OnOk result (HasMoreBy grid.now known.now parts.items queue.old.entries queue.new.entries) }
{
    for part in parts {
        put_part(alloc, grid, known, queue, part, listed)?;
    }
    Ok(())
}

/// Whether the first zone is kept by a member that contains a known conflict.
fn is_stale(queue: &BTreeMap<Rank, Zone>, known: &[Conflict]) -> bool
    ensures { result ≡ not (front_is_free known.now queue.now.entries) }
{
    match queue.first_key_value() {
        Some((rank, _)) => contains_any(known, rank.choices.as_slice()),
        None => false,
    }
}

/// Whether the choices contain one of the conflicts. The last is looked at first: what was just refused contains it.
fn contains_any(conflicts: &[Conflict], choices: &[u32]) -> bool
    ensures { result ≡ is_ruled_out conflicts.now choices.now }
{
    contains_last(conflicts, choices) || contains_some(conflicts, choices)
}

/// Whether the choices contain the last of the conflicts.
fn contains_last(conflicts: &[Conflict], choices: &[u32]) -> bool
    ensures { result ≡ true → is_ruled_out conflicts.now choices.now ≡ true }
{
    match conflicts.last() {
        Some(conflict) => contains(choices, conflict.pairs()),
        None => false,
    }
}

/// Whether the choices contain one of the conflicts, looked at in their order.
fn contains_some(conflicts: &[Conflict], choices: &[u32]) -> bool
    ensures { result ≡ is_ruled_out conflicts.now choices.now }
{
    conflicts
        .iter()
        .any(|conflict| contains(choices, conflict.pairs()))
}

/// Keeps the first zone by its first member that contains no known conflict, or no longer, where it has none.
fn look_again(
    alloc: Global,
    grid: &Grid,
    known: &mut Known,
    queue: &mut BTreeMap<Rank, Zone>,
) -> Result<(), AllocError>
    requires kept { AreKeptBy grid.now known.old queue.old.entries }
    requires stale { front_is_free known.old queue.old.entries ≡ false }
    ensures again { OnOk result (LooksAgain grid.now known.old queue.old.entries queue.new.entries) }
    ensures known { known.new ≡ known.old }
{
    match queue.pop_first() {
        Some((before, zone)) => match least_free_near(alloc, grid, &zone, known, &before)? {
            Some(rank) => {
                queue.insert(rank, zone)?;
                Ok(())
            }
            None => Ok(()),
        },
        None => Ok(()),
    }
}

/// Looks again until the first zone is kept by a member that contains no known conflict.
fn look_ahead(
    alloc: Global,
    grid: &Grid,
    known: &mut Known,
    queue: &mut BTreeMap<Rank, Zone>,
) -> Result<(), AllocError>
    requires { AreKeptBy grid.now known.old queue.old.entries }
    ensures same { OnOk result (HasSameFree grid.now known.old queue.old.entries queue.new.entries) }
    ensures front { OnOk result (front_is_free known.old queue.new.entries ≡ true) }
    ensures known { known.new ≡ known.old }
{
    while is_stale(queue, known.as_slice()) {
        look_again(alloc, grid, known, queue)?;
    }
    Ok(())
}

/// Copies of zones.
fn copied(alloc: Global, zones: &[Zone]) -> Result<Seq<Zone>, AllocError>
    ensures { IfOk result (λ copies. copies ≡ zones.now) }
{
    let mut copies = Seq::new(alloc);
    for zone in zones {
        copies.push(Zone::new(alloc, zone.source(), zone.base(), zone.masks())?)?;
    }
    Ok(copies)
}

/// The first known conflict that the choices contain.
fn first_contained<'a>(known: &'a [Conflict], choices: &[u32]) -> Option<&'a Conflict>
    ensures { option_copied result ≡ find (contains_all choices.now) known.now }
{
    known
        .iter()
        .find(|conflict| contains(choices, conflict.pairs()))
}

/// Splits the first zone by a known conflict, which the member that it is kept by contains.
fn split_front(
    alloc: Global,
    grid: &Grid,
    known: &Known,
    queue: &mut BTreeMap<Rank, Zone>,
) -> Result<(), AllocError>
    requires kept { AreKeptBy grid.now known.now queue.old.entries }
    requires stale { front_is_free known.now queue.old.entries ≡ false }
    ensures { OnOk result (HasSameFree grid.now known.now queue.old.entries queue.new.entries) }
{
    match queue.pop_first() {
        Some((rank, zone)) => match first_contained(known.as_slice(), rank.choices.as_slice()) {
            Some(conflict) => {
                put_all(alloc, grid, queue, split(alloc, &zone, conflict)?)?;
                Ok(())
            }
            None => Ok(()),
        },
        None => Ok(()),
    }
}

/// Splits zones, so many times at most, until the first is kept by a member that contains no known conflict. Answers how
/// many times are left.
fn split_ahead(
    alloc: Global,
    grid: &Grid,
    known: &Known,
    queue: &mut BTreeMap<Rank, Zone>,
    most: u64,
) -> Result<u64, AllocError>
    requires { AreKeptBy grid.now known.now queue.old.entries }
    ensures { OnOk result (HasSameFree grid.now known.now queue.old.entries queue.new.entries) }
{
    let mut left = most;
    'splits: while left > 0 {
        if !is_stale(queue, known.as_slice()) {
            return Ok(left);
        }
        split_front(alloc, grid, known, queue)?;
        left -= 1;
    }
    Ok(left)
}

/// Where the first zone is still kept by a member that contains a known conflict, ends the splits: the zones are again
/// those that there were before any was split, where these are held.
fn end_splits(
    alloc: Global,
    grid: &Grid,
    known: &Known,
    queue: &mut BTreeMap<Rank, Zone>,
    course: &mut Course,
) -> Result<(), AllocError>
    requires kept { AreKeptBy grid.now known.now queue.old.entries }
    requires whole { WholeTells grid.now known.now queue.old.entries course.old.whole }
    ensures same { OnOk result (HasSameFree grid.now known.now queue.old.entries queue.new.entries) }
    ensures whole { OnOk result (WholeTells grid.now known.now queue.new.entries course.new.whole) }
{
    if course.whole.is_none() || !is_stale(queue, known.as_slice()) {
        return Ok(());
    }
    match mem::replace(course, Course::over()).whole {
        Some(zones) => {
            *queue = BTreeMap::new(alloc);
            put_all(alloc, grid, queue, zones.into_vec())?;
            Ok(())
        }
        None => Ok(()),
    }
}

/// Goes on until the first zone is kept by a member that contains no known conflict: splits zones as often as they may
/// be, and then looks again.
fn go_ahead(
    alloc: Global,
    grid: &Grid,
    known: &mut Known,
    queue: &mut BTreeMap<Rank, Zone>,
    course: &mut Course,
) -> Result<(), AllocError>
    requires kept { AreKeptBy grid.now known.old queue.old.entries }
    requires whole { WholeTells grid.now known.old queue.old.entries course.old.whole }
    ensures same { OnOk result (HasSameFree grid.now known.old queue.old.entries queue.new.entries) }
    ensures front { OnOk result (front_is_free known.old queue.new.entries ≡ true) }
    ensures whole { OnOk result (WholeTells grid.now known.old queue.new.entries course.new.whole) }
    ensures known { known.new ≡ known.old }
{
    course.splits = split_ahead(alloc, grid, known, queue, course.splits)?;
    end_splits(alloc, grid, known, queue, course)?;
    look_ahead(alloc, grid, known, queue)?;
    Ok(())
}

/// Puts the parts of the first zone without the member that it is kept by into the queue.
fn part_first(
    alloc: Global,
    grid: &Grid,
    known: &Known,
    queue: &mut BTreeMap<Rank, Zone>,
) -> Result<(), AllocError>
    requires { IsReady grid.now known.now queue.old.entries }
    ensures { OnOk result (DropsFirst grid.now known.now queue.old.entries queue.new.entries) }
{
    match queue.pop_first() {
        Some((rank, zone)) => {
            let own = own_choices(alloc, grid, &rank)?;
            let parts = split(alloc, &zone, &own)?;
            put_parts(alloc, grid, known, queue, parts, &rank)?;
            Ok(())
        }
        None => Ok(()),
    }
}

/// As `part_first`, without the members that have the target of the one that the first zone is kept by.
fn part_alike(
    alloc: Global,
    grid: &Grid,
    known: &Known,
    queue: &mut BTreeMap<Rank, Zone>,
    groups: &Groups,
) -> Result<(), AllocError>
    requires ready { IsReady grid.now known.now queue.old.entries }
    requires shape { have_shape grid.now groups.now ≡ true }
    ensures { OnOk result (DropsAlike grid.now known.now groups.now queue.old.entries queue.new.entries) }
{
    match queue.pop_first() {
        Some((rank, zone)) => {
            let parts = split_by_groups(alloc, &zone, groups, rank.choices.as_slice())?;
            put_parts(alloc, grid, known, queue, parts, &rank)?;
            Ok(())
        }
        None => Ok(()),
    }
}

impl Frontier for Guide {
    ghost left = { λ guide. guide };

    fn first(&self) -> Option<&Rank> {
        match self.queue.first_key_value() {
            Some((rank, _)) => Some(rank),
            None => None,
        }
    }

    fn drop_first(&mut self) -> Result<(), AllocError> {
        let mut queue = mem::replace(&mut self.queue, BTreeMap::new(self.alloc));
        let mut course = mem::replace(&mut self.course, Course::over());
        course.whole = None;
        part_first(self.alloc, &self.grid, &self.known, &mut queue)?;
        go_ahead(
            self.alloc,
            &self.grid,
            &mut self.known,
            &mut queue,
            &mut course,
        )?;
        self.queue = queue;
        self.course = course;
        Ok(())
    }

    fn split_first(&mut self, conflict: &Conflict) -> Result<(), AllocError> {
        let mut queue = mem::replace(&mut self.queue, BTreeMap::new(self.alloc));
        let mut course = mem::replace(&mut self.course, Course::over());
        course.allow_more();
        self.known
            .push(Conflict::from_pairs(self.alloc, conflict.pairs())?)?;
        go_ahead(
            self.alloc,
            &self.grid,
            &mut self.known,
            &mut queue,
            &mut course,
        )?;
        self.queue = queue;
        self.course = course;
        Ok(())
    }

    fn drop_alike(&mut self, groups: &Groups) -> Result<(), AllocError> {
        if !groups.fit(&self.grid) {
            return self.drop_first();
        }
        let mut queue = mem::replace(&mut self.queue, BTreeMap::new(self.alloc));
        let mut course = mem::replace(&mut self.course, Course::over());
        course.whole = None;
        part_alike(self.alloc, &self.grid, &self.known, &mut queue, groups)?;
        go_ahead(
            self.alloc,
            &self.grid,
            &mut self.known,
            &mut queue,
            &mut course,
        )?;
        self.queue = queue;
        self.course = course;
        Ok(())
    }
}
