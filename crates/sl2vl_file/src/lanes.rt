//! What was printed.

ghost use Rattle.std.specs.Prelude.{◌≡◌, true};
ghost use Rattle.std.specs.List.{list_all, IsDistinct};
ghost use Rattle.sl2vl_file.specs.Rows.{place_of};
ghost use Rattle.sl2vl_file.specs.Sound.{IsSound, is_low_sl, is_whole_row, shares_ports};

use crate::path::PathSl;
use crate::row::LaneRow;
use crate::rows::LaneRowList;
use std::marker::Model;

/// The rows of SL-to-VL mapping tables, and the SLs of paths.
#[derive(Debug, Drop)]
pub struct Lanes {
    pub(crate) rows: LaneRowList,
    pub(crate) paths: Vec<PathSl>,
}

impl Model for Lanes {
    ghost use Rattle.sl2vl_file.specs.Lanes.{LanesState};
    ghost use Rattle.sl2vl_file.specs.Sound.{IsSound};

    ghost Value = { LanesState };

    ghost view = { λ lanes. record { rows = lanes.rows; paths = lanes.paths.items } };

    ghost invariant = { λ lanes. IsSound (record { rows = lanes.rows; paths = lanes.paths.items }) };
}

impl Lanes {
    /// Says all at once what is so of all that was read. It does nothing.
    pub fn known_sound(&self)
        ensures { IsSound self.now }
    {
        // What a value meets is known once a field is named.
        let _ = &self.rows;
    }

    /// The rows of all tables, in the order of the text.
    pub fn rows(&self) -> &[LaneRow]
        ensures value { result.now ≡ self.now.rows }
        ensures own_ports { IsDistinct shares_ports result.now }
        ensures whole_rows { list_all is_whole_row result.now ≡ true }
    {
        self.rows.as_slice()
    }

    /// What the path records say, in the order of the text. Several may be of one pair of LIDs.
    pub fn paths(&self) -> &[PathSl]
        ensures value { result.now ≡ self.now.paths }
        ensures low_sls { list_all is_low_sl result.now ≡ true }
    {
        self.paths.as_slice()
    }

    /// Where the row of this LID and these two ports stands among the rows, looked up in constant time.
    pub fn place_of(&self, lid: u16, input: u8, output: u8) -> Option<usize>
        ensures { result ≡ place_of lid input output self.now.rows }
    {
        self.rows.place_of(lid, input, output)
    }
}
