ghost use Rattle.std.specs.Prelude.{◌≡◌, ◌≤◌, ◌<◌, ◌+◌, ◌++◌, ◌∷◌, [], length, flat_map, true, All, IfOk};
ghost use Rattle.circuit_run.specs.Writes.{all_written};
ghost use Rattle.design_meaning.specs.Writes.{target_widths, parts_at};
ghost use Rattle.design_meaning.specs.Texts.{piece_text};
ghost use Rattle.design_meaning.specs.Valid.{IsValid};
ghost use Rattle.flat_design.specs.Effects.{empty, room_of_all};
ghost use Rattle.flat_design.specs.Needed.{room_seen};
ghost use Rattle.piece_text.specs.Pieces.{ArePiecesIn};
ghost use Rattle.flat_design.specs.InDesign.{AreTargetsIn};

use crate::needs::{Needs, design_needs};
use crate::place::{place, set_in, write_updates};
use bit_values::Bits;
use cov_types::NoMemory;
use design_state::{State, Update};
use design_tree::{Instrumented, Piece, Target};
use piece_text::put_pieces;
use std::alloc::Global;
use std::marker::Model;

/// What runs leave beside the state: pending updates, text, raised counters and two flags, with room for more.
#[derive(Drop)]
pub struct Effects {
    updates: Vec<Update>,
    text: Vec<u8>,
    raised: Vec<u32>,
    finished: bool,
    stopped: bool,
    update_room: usize,
    byte_room: usize,
    counter_room: usize,
}

impl Model for Effects {
    ghost use Rattle.std.specs.Prelude.{◌≤◌, map, vec_capacity};
    ghost use Rattle.flat_design.specs.Effects as seen;
    ghost use Rattle.design_state.specs.Positions.{part_of};

    ghost Value = { seen.Effects };

    ghost view = { λ e. record {
      updates = map part_of e.updates.items;
      text = e.text.items;
      raised = e.raised.items;
      finished = e.finished;
      stopped = e.stopped;
      room = record { updates = e.update_room; bytes = e.byte_room; counters = e.counter_room };
    } };

    ghost invariant = { λ e. (e.update_room ≤ vec_capacity e.updates) × (e.byte_room ≤ vec_capacity e.text) × (e.counter_room ≤ vec_capacity e.raised) };
}

/// Empty effects with so much room.
fn with_room(alloc: Global, needs: Needs) -> Result<Effects, NoMemory>
    ensures { IfOk result (λ e. e ≡ empty (room_seen needs)) }
{
    Ok(Effects {
        updates: Vec::with_capacity(alloc, needs.updates)?,
        text: Vec::with_capacity(alloc, needs.bytes)?,
        raised: Vec::with_capacity(alloc, needs.counters)?,
        finished: false,
        stopped: false,
        update_room: needs.updates,
        byte_room: needs.bytes,
        counter_room: needs.counters,
    })
}

impl Effects {
    /// Empty effects with the room for one run of each process of the design. A value has its width in every state, so the room for
    /// texts is counted at the start values.
    pub fn reserve(alloc: Global, design: &Instrumented) -> Result<Effects, NoMemory>
        requires { IsValid design.now }
        ensures { IfOk result (λ e. e ≡ empty (room_of_all design.now.design)) }
    {
        let state = State::new(alloc, &design.design)?;
        let needs = design_needs(&design.design, &state)?;
        with_room(alloc, needs)
    }

    /// Writes a value to targets, once the places of all of them are known. Its parts stand behind the pending updates meanwhile.
    pub(crate) fn set(&mut self, targets: &[Target], value: Bits, state: &mut State)
        requires targets { AreTargetsIn state.old targets.now }
        requires widths { target_widths state.old targets.now ≡ value.width }
        requires room { length self.old.updates + length targets.now ≤ self.old.room.updates }
        ensures effects { self.new ≡ self.old }
        ensures state { state.new ≡ all_written state.old (parts_at state.old targets.now value.bits) }
    {
        set_in(&mut self.updates, targets, value, state);
    }

    /// Keeps the parts of a value for later.
    pub(crate) fn later(&mut self, targets: &[Target], value: Bits, state: &State)
        requires targets { AreTargetsIn state.now targets.now }
        requires widths { target_widths state.now targets.now ≡ value.width }
        requires room { length self.old.updates + length targets.now ≤ self.old.room.updates }
        ensures { self.new ≡ record self.old { updates = self.old.updates ++ parts_at state.now targets.now value.bits } }
    {
        place(&mut self.updates, targets, value, state);
    }

    /// Makes the pending updates in order and takes them off.
    pub fn apply(&mut self, state: &mut State)
        requires { All (λ part. part.var < length state.old) self.old.updates }
        ensures effects { self.new ≡ record self.old { updates = [] } }
        ensures state { state.new ≡ all_written state.old self.old.updates }
    {
        write_updates(self.updates.as_slice(), state);
        self.updates.clear();
    }

    /// Takes all off; the room stays.
    pub fn clear(&mut self)
        ensures { self.new ≡ empty self.old.room }
    {
        self.updates.clear();
        self.text.clear();
        self.raised.clear();
        self.finished = false;
        self.stopped = false;
    }

    /// The text since the last `clear`.
    pub fn text(&self) -> &[u8]
        ensures { result.now ≡ self.now.text }
    {
        self.text.as_slice()
    }

    /// Whether `$finish` was executed since the last `clear`.
    pub fn finished(&self) -> bool
        ensures { result ≡ self.now.finished }
    {
        self.finished
    }

    /// Whether `$stop` was executed since the last `clear`.
    pub fn stopped(&self) -> bool
        ensures { result ≡ self.now.stopped }
    {
        self.stopped
    }

    /// The counters raised since the last `clear`, in order of execution.
    pub fn raised(&self) -> &[u32]
        ensures { result.now ≡ self.now.raised }
    {
        self.raised.as_slice()
    }

    /// For how many bytes of text there is room.
    pub fn byte_room(&self) -> usize
        ensures { result ≡ self.now.room.bytes }
    {
        self.byte_room
    }

    pub(crate) fn raise(&mut self, counter: u32)
        requires { length self.old.raised + 1 ≤ self.old.room.counters }
        ensures { self.new ≡ record self.old { raised = self.old.raised ++ counter ∷ [] } }
    {
        match self.raised.push(counter) {
            Ok(()) => {}
            Err(_) => unreachable!(),
        }
    }

    pub(crate) fn finish(&mut self)
        ensures { self.new ≡ record self.old { finished = true } }
    {
        self.finished = true;
    }

    pub(crate) fn stop(&mut self)
        ensures { self.new ≡ record self.old { stopped = true } }
    {
        self.stopped = true;
    }

    /// Prints pieces one after the other.
    pub(crate) fn show(&mut self, pieces: &[Piece], state: &State)
        requires pieces { ArePiecesIn state.now pieces.now }
        requires room { length self.old.text + length (flat_map (piece_text state.now) pieces.now) ≤ self.old.room.bytes }
        ensures { self.new ≡ record self.old { text = self.old.text ++ flat_map (piece_text state.now) pieces.now } }
    {
        put_pieces(&mut self.text, pieces, state);
    }
}
