//! Wrong rules for what is reported, and the law that each breaks, so that a reader sees that the laws say something. Each
//! function does nothing: its contract says that with this rule the law is false.

ghost use Rattle.audit_loads.specs.WrongRules.{FirstLinksCountToo, FirstPortsDoNotAddUp, LastLinksCountToo, LostPairsLoad, PairsCountOnce, PortsCountFrom1, SilentPortsDoNotCount, UnusedChannelsHaveALine};
ghost use Rattle.audit_loads.specs.WrongRules.{AllChannelsArePrinted, AllLidsAreCounted, AllLidsArePrinted};
ghost use Rattle.audit_loads.specs.WrongRules.{OtherLidsCountToo, OtherSwitchesCountToo};

/// If pairs that are lost were not counted, a channel that one goes over would have no load.
pub fn lost_pairs_load()
    ensures { LostPairsLoad }
{}

/// If pairs counted whose ports may not talk, two ports apart would count.
pub fn silent_ports_do_not_count()
    ensures { SilentPortsDoNotCount }
{}

/// If a pair loaded the first port alone by which its packets leave, the loads of two ports would not add up.
pub fn first_ports_do_not_add_up()
    ensures { FirstPortsDoNotAddUp }
{}

/// If a pair loaded ports of its first two switches alone, nothing would arrive over a third link.
pub fn last_links_count_too()
    ensures { LastLinksCountToo }
{}

/// If a pair did not load the first port, nothing would arrive over a link that is the only one.
pub fn first_links_count_too()
    ensures { FirstLinksCountToo }
{}

/// If the ports of a discovery counted from 0, a cable would end at a port 0.
pub fn ports_count_from_1()
    ensures { PortsCountFrom1 }
{}

/// If each pair counted twice, a load would be more than there are pairs.
pub fn pairs_count_once()
    ensures { PairsCountOnce }
{}

/// If a channel without load had no line, one would be missing.
pub fn unused_channels_have_a_line()
    ensures { UnusedChannelsHaveALine }
{}

/// If ports that are attached to the first switch sent alone, those of another would send nothing.
pub fn other_switches_count_too()
    ensures { OtherSwitchesCountToo }
{}

/// If ports sent to the first LID alone, nobody would send to another.
pub fn other_lids_count_too()
    ensures { OtherLidsCountToo }
{}

/// If pairs to the first LID alone were counted, a channel would lack those to another.
pub fn all_lids_are_counted()
    ensures { AllLidsAreCounted }
{}

/// If pairs to the first LID alone were printed, the line of a channel would lack those to another.
pub fn all_lids_are_printed()
    ensures { AllLidsArePrinted }
{}

/// If the first line were printed alone, another channel would have none.
pub fn all_channels_are_printed()
    ensures { AllChannelsArePrinted }
{}
