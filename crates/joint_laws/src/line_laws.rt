//! What is printed of all. Each function's contract is its law; it does nothing.

ghost use Rattle.joint_laws.specs.LineLaws.{AllChangesArePrinted, AllCutsArePrinted, AllEntriesArePrinted, AllIsDrawn, AllKeysArePrinted, AllMembersAreListed};
ghost use Rattle.joint_laws.specs.LineLaws.{AllSharesArePrinted, AllStepsArePrinted, AllTablesArePrinted};

/// `check` prints a line for each end port, each partition, and each member of one.
pub fn all_members_are_listed()
    ensures { AllMembersAreListed }
{}

/// `shares` prints a line for each two end ports and each partition in which they may talk, if one of them is asked for, or if no
/// port is. Of more end ports than a simulated fabric may have it prints one for each partition.
pub fn all_shares_are_printed()
    ensures { AllSharesArePrinted }
{}

/// `diff` prints a line for each partition, group, member and pair that goes or comes.
pub fn all_changes_are_printed()
    ensures { AllChangesArePrinted }
{}

/// `cuts` prints a line for each cable between switches, which says what its loss does.
pub fn all_cuts_are_printed()
    ensures { AllCutsArePrinted }
{}

/// `cuts` of one cable prints a line for each LFT entry that its loss changes.
pub fn all_entries_are_printed()
    ensures { AllEntriesArePrinted }
{}

/// `tables` prints of each switch the LFT row of each end port to which an entry leads, and the MFT row of each MLID of which the bit
/// of a port is set.
pub fn all_tables_are_printed()
    ensures { AllTablesArePrinted }
{}

/// `keys` prints a line for each end port, and for each port of a switch that faces a channel adapter.
pub fn all_keys_are_printed()
    ensures { AllKeysArePrinted }
{}

/// `trace` prints what the port stamps, and each step of the packet, or why the port refuses to send it.
pub fn all_steps_are_printed()
    ensures { AllStepsArePrinted }
{}

/// `graph` draws what stands at each node, each row, each thick edge, and each cable.
pub fn all_is_drawn()
    ensures { AllIsDrawn }
{}
