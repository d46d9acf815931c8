//! Numbers of the crate, written out, and what its words rule out.

ghost use Rattle.std.specs.Prelude.{◌≡◌};
ghost use Rattle.text_streams.specs.declared.reading.TheConstants.{BIG_PIECE, PIECE, READS};
ghost use Rattle.text_streams.specs.Laws.{LateReportsAreNotInTime, OthersAreNoPart, OthersAreNotMade, ShortTextsEnd};

/// How often a text is read, and how many bytes a read takes at most, so that a text is read up to 256 MiB, and a big one up
/// to 4 GiB. The numbers are ours. Like every law the function does nothing: its contract is the law.
pub fn the_numbers()
    ensures reads { READS ≡ 1_048_576 }
    ensures piece { PIECE ≡ 256 }
    ensures big_piece { BIG_PIECE ≡ 4_096 }
{}

/// A text of fewer bytes than there are reads is not endless.
pub fn short_texts_end()
    ensures { ShortTextsEnd }
{}

/// What has another byte than a text, or one too many, is no part of it.
pub fn others_are_no_part()
    ensures { OthersAreNoPart }
{}

/// A read before which less than the report of what was read is written, or more, is not in time.
pub fn late_reports_are_not_in_time()
    ensures { LateReportsAreNotInTime }
{}

/// What is made of a text is what its definition gives for it, and a fault is that which it gives, with its line.
pub fn others_are_not_made()
    ensures { OthersAreNotMade }
{}
