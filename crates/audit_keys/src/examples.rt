//! Edges of what is said of tables, computed. Each function does nothing: its contract is the example.

ghost use Rattle.audit_keys.specs.Examples.{DirectionsAreRead, DroppedFilesAreSeen, ManyPairsAreCounted, StraysAreReported, WidePartitionsAreReported};

/// How many pairs of a partition are listed.
pub fn many_pairs_are_counted()
    ensures { ManyPairsAreCounted }
{}

/// When every port that was read has 0xffff alone.
pub fn dropped_files_are_seen()
    ensures { DroppedFilesAreSeen }
{}

/// Which switch ports enforce partitions, and when all are off.
pub fn directions_are_read()
    ensures { DirectionsAreRead }
{}

/// Partitions of the tables or the file alone, and tables without room.
pub fn strays_are_reported()
    ensures { StraysAreReported }
{}

/// Partitions in which the file lets many pairs talk.
pub fn wide_partitions_are_reported()
    ensures { WidePartitionsAreReported }
{}
