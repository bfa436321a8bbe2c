ghost use Rattle.std.specs.Prelude.{◌≡◌, ℕ, ◌<◌, ◌≤◌, ◌*◌, ◌⊎◌, true, false, All, IfOk, length};
ghost use Rattle.design_meaning.specs.States.{IsStateOf, var_of};
ghost use Rattle.place_marks.specs.Marked.{is_marked};
ghost use Rattle.cycle_wakes.specs.Changes.{HasMarked, HasRoom, HasRoomFor, IsNoted, IsQuiet, KeepsMarks};
ghost use Rattle.cycle_wakes.specs.Wakes.{targets_of};

use crate::wakes::Wakes;
use cov_types::NoMemory;
use design_state::State;
use design_tree::Design;
use place_marks::PlaceMarks;
use std::alloc::Global;
use std::marker::Model;

/// What a cycle has changed: the variables that may differ from the last settled state, and the places in the order of the
/// processes that read one of them.
#[derive(Drop)]
pub struct Changes {
    places: PlaceMarks,
    vars: PlaceMarks,
}

impl Model for Changes {
    ghost use Rattle.cycle_wakes.specs.Changes as seen;

    ghost Value = { seen.Changes };

    ghost view = { λ c. record { places = c.places; vars = c.vars } };
}

/// Marks places, one after the other.
fn mark_each(marks: &mut PlaceMarks, places: &[u32])
    requires { All (λ k. k < 64 * length marks.old) places.now }
    ensures { HasMarked marks.old marks.new places.now (length places.now) }
{
    for place in places {
        marks.mark(*place as usize);
    }
}

impl Changes {
    /// No change, with room for so many places and variables.
    pub fn new(alloc: Global, places: usize, vars: usize) -> Result<Changes, NoMemory>
        ensures { IfOk result (HasRoom places vars) }
    {
        Ok(Changes {
            places: PlaceMarks::new(alloc, places)?,
            vars: PlaceMarks::new(alloc, vars)?,
        })
    }

    /// No place and no variable is marked from here on.
    pub fn clear(&mut self)
        ensures places { length self.new.places ≡ length self.old.places }
        ensures vars { length self.new.vars ≡ length self.old.vars }
    {
        self.places.clear();
        self.vars.clear();
    }

    /// The first marked place from one on, and the end where there is none before it.
    pub fn next_place(&self, from: usize, end: usize) -> usize
        requires { from ≤ end }
        ensures from { from ≤ result }
        ensures end { result ≤ end }
        ensures between { (k : ℕ) → from ≤ k → k < result → is_marked self.now.places k ≡ false }
        ensures marked { result < end → is_marked self.now.places result ≡ true }
    {
        self.places.next_before(from, end)
    }

    /// The variables that may differ.
    pub fn vars(&self) -> &PlaceMarks
        ensures { result.now ≡ self.now.vars }
    {
        &self.vars
    }

    /// Marks a variable, and the places of those that read it.
    fn note(&mut self, wakes: &Wakes, var: u32)
        requires var { var < length wakes.now.readers }
        requires room { HasRoomFor wakes.now self.old }
        ensures keeps { KeepsMarks self.old self.new }
        ensures noted { IsNoted wakes.now self.new var }
    {
        self.vars.mark(var as usize);
        mark_each(&mut self.places, wakes.readers_of(var));
    }
}

/// Notes the variables that a process writes.
pub fn note_targets(wakes: &Wakes, p: u32, changes: &mut Changes)
    requires process { p < length wakes.now.targets }
    requires within { All (λ v. v < length wakes.now.readers) (targets_of wakes.now p) }
    requires room { HasRoomFor wakes.now changes.old }
    ensures keeps { KeepsMarks changes.old changes.new }
    ensures noted { All (IsNoted wakes.now changes.new) (targets_of wakes.now p) }
{
    for var in wakes.targets_of(p) {
        changes.note(wakes, *var);
    }
}

/// How many words a variable has.
fn words_of(design: &Design, var: u32) -> u32
    requires { var < length design.now.vars }
    ensures { result ≡ (var_of design.now var).words }
{
    design.vars.as_slice()[var as usize].words
}

/// Whether a variable of one word is the same in two states. One of several words isn't looked at.
fn is_quiet(design: &Design, var: u32, now: &State, before: &State) -> bool
    requires now { IsStateOf design.now now.now }
    requires before { IsStateOf design.now before.now }
    requires var { var < length design.now.vars }
    ensures { result ≡ true → IsQuiet now.now before.now var }
{
    let words = words_of(design, var);
    if words != 1 {
        return false;
    }
    now.read(var, 0) == before.read(var, 0)
}

/// Notes a variable if it may differ in two states: each that has several words is noted.
fn note_source(
    design: &Design,
    wakes: &Wakes,
    var: u32,
    now: &State,
    before: &State,
    changes: &mut Changes,
)
    requires now { IsStateOf design.now now.now }
    requires before { IsStateOf design.now before.now }
    requires var { var < length design.now.vars }
    requires many { length wakes.now.readers ≡ length design.now.vars }
    requires room { HasRoomFor wakes.now changes.old }
    ensures keeps { KeepsMarks changes.old changes.new }
    ensures noted { IsQuiet now.now before.now var ⊎ IsNoted wakes.now changes.new var }
{
    if is_quiet(design, var, now, before) {
        return;
    }
    changes.note(wakes, var);
}

/// Notes the variables that may change beside the runs of the order and differ in two states.
pub fn note_sources(
    design: &Design,
    wakes: &Wakes,
    now: &State,
    before: &State,
    changes: &mut Changes,
)
    requires now { IsStateOf design.now now.now }
    requires before { IsStateOf design.now before.now }
    requires many { length wakes.now.readers ≡ length design.now.vars }
    requires within { All (λ v. v < length design.now.vars) wakes.now.sources }
    requires room { HasRoomFor wakes.now changes.old }
    ensures keeps { KeepsMarks changes.old changes.new }
    ensures noted { All (λ v. IsQuiet now.now before.now v ⊎ IsNoted wakes.now changes.new v) wakes.now.sources }
{
    for var in wakes.sources() {
        note_source(design, wakes, *var, now, before, changes);
    }
}
