ghost use Rattle.std.specs.Prelude.{◌≡◌, ◌+◌, ◌<◌, ◌∷◌, [], ℕ, IsTrue, All, length, map, flat_map, slice_index_or, IfOk};
ghost use Rattle.std.specs.List.{list_all};
ghost use Rattle.circuit_run.specs.Lists.{total};
ghost use Rattle.design_meaning.specs.States.{IsStateOf};
ghost use Rattle.design_meaning.specs.WellTyped.{is_piece};
ghost use Rattle.design_meaning.specs.WellFormed.{is_step};
ghost use Rattle.design_meaning.specs.Mentions.{piece_length};
ghost use Rattle.design_meaning.specs.Processes.{process_of};
ghost use Rattle.design_meaning.specs.Valid.{IsValidDesign};
ghost use Rattle.design_tree.specs.declared.design.Design.{Design};
ghost use Rattle.design_tree.specs.declared.step.StepArm.{StepArm};
ghost use Rattle.flat_design.specs.Effects.{room_for, room_of, room_of_all, sum_of};
ghost use Rattle.piece_text.specs.Pieces.{IsPieceIn, ArePiecesIn};
ghost use Rattle.flat_design.specs.InDesign.{mentions_in};
ghost use Rattle.flat_design.specs.Needed.{room_seen, StepsIn, ArmsIn, arm_mentions_in, arm_at};

use cov_types::NoMemory;
use design_state::{State, value};
use design_tree::{Design, Piece, Step, StepArm};
use piece_text::{columns_of, hex_digits};

/// How many updates, bytes of text and counters runs need room for.
#[derive(Clone, Copy, Debug)]
pub(crate) struct Needs {
    pub(crate) updates: usize,
    pub(crate) bytes: usize,
    pub(crate) counters: usize,
}

/// Room for so many updates alone.
fn updates_need(updates: usize) -> Needs
    ensures { room_seen result ≡ record { updates = updates; bytes = 0; counters = 0 } }
{
    Needs {
        updates,
        bytes: 0,
        counters: 0,
    }
}

/// A sum. One that doesn't fit is more than any memory has.
fn sum(a: usize, b: usize) -> Result<usize, NoMemory>
    ensures { IfOk result (λ n. n ≡ a + b) }
{
    match a.checked_add(b) {
        Some(all) => Ok(all),
        None => Err(NoMemory),
    }
}

/// What both need together.
fn both(a: Needs, b: Needs) -> Result<Needs, NoMemory>
    ensures { IfOk result (λ n. room_seen n ≡ sum_of (room_seen a) (room_seen b)) }
{
    Ok(Needs {
        updates: sum(a.updates, b.updates)?,
        bytes: sum(a.bytes, b.bytes)?,
        counters: sum(a.counters, b.counters)?,
    })
}

/// The greatest length of what a piece prints: its value has its width in every state.
fn piece_needs(piece: &Piece, state: &State) -> usize
    requires { IsPieceIn state.now piece.now }
    ensures { (d : Design) → IsStateOf d state.now → IsTrue (is_piece d piece.now) → result ≡ piece_length d piece.now }
{
    match piece {
        Piece::Text(bytes) => bytes.len(),
        Piece::Dec {
            signed,
            short: _,
            value: e,
        } => columns_of(value(e, state).width, *signed) as usize,
        Piece::Hex { short: _, value: e } => hex_digits(value(e, state).width) as usize,
        Piece::Bin { short: _, value: e } => usize::from(value(e, state).width),
    }
}

/// The greatest length of what pieces print together.
fn pieces_need(pieces: &[Piece], state: &State) -> Result<usize, NoMemory>
    requires { ArePiecesIn state.now pieces.now }
    ensures { IfOk result (λ n. (d : Design) → IsStateOf d state.now → IsTrue (list_all (is_piece d) pieces.now) → n ≡ total
        (map (piece_length d) pieces.now)) }
{
    let mut all = 0;
    for piece in pieces {
        all = sum(all, piece_needs(piece, state))?;
    }
    Ok(all)
}

/// What one run of a step needs, whichever ways it takes.
#[cycle(needs)]
fn step_needs(step: &Step, state: &State) -> Result<Needs, NoMemory>
    requires { StepsIn state.now (step.now ∷ []) }
    ensures { IfOk result (λ n. (d : Design) (k : ℕ) → IsStateOf d state.now → IsTrue (is_step d k step.now) → room_seen n ≡ room_for d
        (mentions_in step.now)) }
{
    match step {
        Step::Set { targets, value: _ } => return Ok(updates_need(targets.len())),
        Step::Later { targets, value: _ } => return Ok(updates_need(targets.len())),
        Step::If { test: _, yes, no } => {
            let left = steps_need(yes.as_slice(), state)?;
            let right = steps_need(no.as_slice(), state)?;
            return both(left, right);
        }
        Step::Case { on: _, arms, rest } => {
            let left = arms_need(arms.as_slice(), state)?;
            let right = steps_need(rest.as_slice(), state)?;
            return both(left, right);
        }
        Step::Show { pieces } => {
            let bytes = pieces_need(pieces.as_slice(), state)?;
            return Ok(Needs {
                updates: 0,
                bytes,
                counters: 0,
            });
        }
        Step::Finish => return Ok(updates_need(0)),
        Step::Stop => return Ok(updates_need(0)),
        Step::Count { counter: _ } => {
            return Ok(Needs {
                updates: 0,
                bytes: 0,
                counters: 1,
            });
        }
    }
}

/// What one run of steps needs, one after the other.
#[cycle(needs)]
fn steps_need(steps: &[Step], state: &State) -> Result<Needs, NoMemory>
    requires { StepsIn state.now steps.now }
    ensures { IfOk result (λ n. (d : Design) (k : ℕ) → IsStateOf d state.now → IsTrue (list_all (is_step d k) steps.now) → room_seen n ≡ room_for d
        (flat_map mentions_in steps.now)) }
{
    let mut all = updates_need(0);
    for step in steps {
        let more = step_needs(step, state)?;
        all = both(all, more)?;
    }
    Ok(all)
}

/// What the arms of a case need together.
#[cycle(needs)]
fn arms_need(arms: &[StepArm], state: &State) -> Result<Needs, NoMemory>
    requires { ArmsIn state.now arms.now }
    ensures { IfOk result (λ n. (d : Design) (k w : ℕ) → IsStateOf d state.now → IsTrue (list_all (arm_at d k w) arms.now) → room_seen n ≡ room_for d
        (flat_map arm_mentions_in arms.now)) }
{
    let mut all = updates_need(0);
    for arm in arms {
        let more = steps_need(arm.body.as_slice(), state)?;
        all = both(all, more)?;
    }
    Ok(all)
}

/// What one run of each process of a design needs.
pub(crate) fn design_needs(design: &Design, state: &State) -> Result<Needs, NoMemory>
    requires valid { IsValidDesign design.now }
    requires of_design { IsStateOf design.now state.now }
    ensures { IfOk result (λ n. room_seen n ≡ room_of_all design.now) }
{
    let mut all = updates_need(0);
    for process in design.processes.as_slice() {
        let more = steps_need(process.body.as_slice(), state)?;
        all = both(all, more)?;
    }
    Ok(all)
}

/// How many counters one run of a process raises at most. A value has its width in every state, so any state of the design will do.
pub fn counter_room(design: &Design, p: u32, state: &State) -> Result<usize, NoMemory>
    requires valid { IsValidDesign design.now }
    requires of_design { IsStateOf design.now state.now }
    requires process { p < length design.now.processes }
    ensures { IfOk result (λ n. n ≡ (room_of design.now (process_of design.now p)).counters) }
{
    let process = &design.processes.as_slice()[p as usize];
    let needs = steps_need(process.body.as_slice(), state)?;
    Ok(needs.counters)
}
