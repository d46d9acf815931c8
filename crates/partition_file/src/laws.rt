//! What is so of every partition text and of all partitions. The functions do nothing; their clauses are the
//! theorems.

ghost use Rattle.partition_file.specs.Laws.{GeneratedBasesAreFree};
ghost use Rattle.partition_file.specs.Laws.{KeysReportMembership, TextsAreCut};
ghost use Rattle.partition_file.specs.Laws.{CleanThroughout, CommentsByBeginning, EndRefuses, InsideRefuses, OnlySoRefused};

/// Which fault a partition text is refused for, as a law over the definitions that [`read`] meets.
/// The function does nothing; its clauses are the theorem.
///
/// No byte of a clean beginning of a text has a fault. A text is refused if and only if
/// a byte that follows a clean beginning has a fault, or all of it is clean and ends inside a
/// definition; it is refused for that fault, the first in turn if the byte has several, with the
/// line of that byte or of the end.
///
/// [`read`]: crate::read
pub fn texts_are_refused_for_their_first_fault()
    // The fault of a byte after a clean beginning is reported, whatever follows.
    ensures inside { InsideRefuses }
    // So is the fault of the end.
    ensures end { EndRefuses }
    // No text is refused otherwise.
    ensures only { OnlySoRefused }
    // No byte of a clean beginning has a fault.
    ensures clean { CleanThroughout }
    // Comments don't matter to any of this.
    ensures comments { CommentsByBeginning }
{}

/// What a partition text says that is read. Cut it at each `;`, comments blanked: what stands before each
/// is a definition. Cut a definition at its `:`, and both sides at each `,`; before the `:` the first part
/// is its name, with a PKey behind the `=` if it has one, the others are flags, with values behind theirs;
/// the parts behind the `:` are the ports that it lists, with their membership behind the `=`. White space
/// at the ends of a word is ignored. The partitions that [`read`] returns are those of these
/// definitions. The function does nothing; its clause is the theorem.
///
/// [`read`]: crate::read
pub fn partitions_are_cut_from_the_text()
    ensures { TextsAreCut }
{}

/// The law of the bases of definitions that name none: each is one that no definition of the file
/// names and none got before, and is the least such. With no more partitions than there may be,
/// there always is one. The function does nothing; its clause is the theorem.
pub fn generated_bases_are_free()
    ensures { GeneratedBasesAreFree }
{}

/// The law of the keys that [`members`] gives: of each partition's base a port has the key that it has
/// in that partition, and none if it is no member. The function does nothing; its clause is the
/// theorem.
///
/// [`members`]: crate::members
pub fn keys_report_membership()
    ensures { KeysReportMembership }
{}
