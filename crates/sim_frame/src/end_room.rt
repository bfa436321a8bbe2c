//! The end of a run: what was kept is put, and then the data file is stored.

ghost use Rattle.std.specs.Prelude.{◌≡◌, ◌≤◌, length, IfOk};
ghost use Rattle.cov_dat.specs.DataText.{count_map, data_text};
ghost use Rattle.design_meaning.specs.Runs.{point_counts};
ghost use Rattle.design_meaning.specs.Valid.{IsValid};
ghost use Rattle.data_image.specs.PointText.{room_of};
ghost use Rattle.command_ending.specs.World.{world};
ghost use Rattle.sim_frame.specs.Asked.{seen};
ghost use Rattle.sim_frame.specs.EndRooms.{IsEndRoomFor};
ghost use Rattle.sim_frame.specs.RunEnds.{IsPutBefore, IsStored, good_ending};

use crate::asked::Simulation;
use command_ending::Ending;
use cov_port::{Files, NoMemory, Sink};
use data_image::DataText;
use design_tree::Instrumented;
use sim_ending::DataFile;
use sim_output::Output;
use std::alloc::Global;

/// What a run puts and stores, in memory that is taken before it starts: the output on its way, and the data file.
#[derive(Drop)]
pub struct EndRoom<'a> {
    pub output: Output,
    pub text: DataText,
    pub data: DataFile<'a>,
}

impl<'a> EndRoom<'a> {
    /// Takes all memory that the output of a run and its data file need.
    pub fn reserve(
        alloc: Global,
        asked: &Simulation<'a>,
        design: &Instrumented,
    ) -> Result<EndRoom<'a>, NoMemory>
        ensures { IfOk result (λ room. IsEndRoomFor design.now (seen asked.now) room) }
    {
        let output = Output::new(alloc)?;
        let text = DataText::reserve(alloc, &design.points)?;
        match DataFile::reserve(alloc, asked.data_name) {
            Ok(data) => Ok(EndRoom { output, text, data }),
            Err(NoMemory) => Err(NoMemory),
        }
    }

    /// Puts what is kept and ends so, or tells that the put failed. It takes no memory.
    pub fn end_with<O: Sink>(self, out: &mut O, ending: Ending) -> Ending
        ensures { IsPutBefore ending self.entry.output (O.written out.old) (O.written out.new) (O.faults out.old) (O.faults out.new) result }
    {
        let mut output = self.output;
        match output.put_kept(out) {
            Ok(()) => ending,
            Err(_) => Ending::OutputFailed,
        }
    }

    /// Puts what is kept, and then stores the data file of a run of this design: what its counters are, the bits of a count, and whether
    /// `$stop` ended it. It takes no memory.
    pub fn store_run<F: Files, O: Sink>(
        self,
        files: &mut F,
        out: &mut O,
        design: &Instrumented,
        counts: &[u64],
        bits: u32,
        stopped: bool,
    ) -> Ending
        requires valid { IsValid design.now }
        requires room { self.text.room ≡ room_of design.now.points }
        requires counters { length counts.now ≡ design.now.counters }
        requires bits { bits ≤ 64 }
        ensures { IsStored (good_ending stopped) self.entry.data self.entry.output (data_text (count_map (point_counts design.now bits counts.now)))
            (world (F.held files.old) (F.faults files.old) (O.written out.old) (O.faults out.old))
            (world (F.held files.new) (F.faults files.new) (O.written out.new) (O.faults out.new)) result }
    {
        let mut output = self.output;
        let mut text = self.text;
        text.fill(&design.points, counts, bits);
        put_and_store(files, out, &mut output, self.data, text.bytes(), stopped)
    }
}

/// Puts what is kept, and then stores these bytes.
fn put_and_store<F: Files, O: Sink>(
    files: &mut F,
    out: &mut O,
    output: &mut Output,
    file: DataFile<'_>,
    bytes: &[u8],
    stopped: bool,
) -> Ending
    ensures { IsStored (good_ending stopped) file.entry output.old bytes.now
        (world (F.held files.old) (F.faults files.old) (O.written out.old) (O.faults out.old))
        (world (F.held files.new) (F.faults files.new) (O.written out.new) (O.faults out.new)) result }
{
    match output.put_kept(out) {
        Ok(()) => match file.store(files, bytes) {
            Ok(()) => well_ended(stopped),
            Err(ending) => ending,
        },
        Err(_) => Ending::OutputFailed,
    }
}

/// How a `sim` ends whose data file is stored.
fn well_ended(stopped: bool) -> Ending
    ensures { result ≡ good_ending stopped }
{
    if stopped {
        Ending::Stopped
    } else {
        Ending::Done
    }
}
