ghost use Rattle.std.specs.Prelude.{◌≡◌, ◌≤◌, ◌<◌, All, AllPairs, length, IfOk};
ghost use Rattle.cov_dat.specs.DataText.{count_map, data_text};
ghost use Rattle.design_meaning.specs.Names.{IsBefore};
ghost use Rattle.data_image.specs.PointText.{counts_of, empty, room_of};

use crate::lines::{bytes_for, put_header, put_lines};
use cov_types::{NoMemory, Rows};
use design_tree::PointRow;
use std::alloc::Global;
use std::marker::Model;

/// The text of a data file, with the room that was taken for it.
#[derive(Drop)]
pub struct DataText {
    text: Vec<u8>,
    room: usize,
}

impl Model for DataText {
    ghost use Rattle.std.specs.Prelude.{◌≤◌, vec_capacity};
    ghost use Rattle.data_image.specs.PointText.{TextInRoom};

    ghost Value = { TextInRoom };

    ghost view = { λ t. record { text = t.text.items; room = t.room } };

    ghost invariant = { λ t. t.room ≤ vec_capacity t.text };
}

impl DataText {
    /// An empty text, with room for the data file of these points whatever their counts are.
    pub fn reserve(alloc: Global, points: &Rows<PointRow>) -> Result<DataText, NoMemory>
        ensures { IfOk result (λ made. made ≡ empty (room_of points.now)) }
    {
        let room = bytes_for(points.as_slice())?;
        Ok(DataText {
            text: Vec::with_capacity(alloc, room)?,
            room,
        })
    }

    /// Makes the data file of these points in place of the text before. It takes no memory.
    pub fn fill(&mut self, points: &Rows<PointRow>, counts: &[u64], bits: u32)
        requires room { room_of points.now ≤ self.old.room }
        requires plus { All (λ point. All (λ c. c < length counts.now) point.plus) points.now }
        requires minus { All (λ point. All (λ c. c < length counts.now) point.minus) points.now }
        requires ascend { AllPairs (λ a b. IsBefore a.key b.key) points.now }
        requires bits { bits ≤ 64 }
        ensures { self.new ≡ record self.old { text = data_text (count_map (counts_of bits counts.now points.now)) } }
    {
        self.text.clear();
        put_header(&mut self.text);
        put_lines(&mut self.text, points.as_slice(), counts, bits);
    }

    /// The text that was made last, or nothing.
    pub fn bytes(&self) -> &[u8]
        ensures { result.now ≡ self.now.text }
    {
        self.text.as_slice()
    }
}
