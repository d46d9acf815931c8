//! The laws of fabrics that are brought up, and of what becomes of a topology's. Each function's contract is its law; it
//! does nothing.

ghost use Rattle.subnet_fabric.specs.Laws.{AFabricIsBroughtUpAsListed, AFabricWithGroupsIsAsListed, NoPathExcludesComingUp, OnePairHasNoPath, OneTableIsLeft, TooFarExcludesTheRest};
ghost use Rattle.subnet_fabric.specs.StandingLaws.{AStandingFabricIsAsListed, BroughtUpStands, MasksLetItStand, OneCablingFollows, OneFabricStands};
ghost use Rattle.subnet_fabric.specs.Recabled.{BroughtUpIsUpWithAll, MasksKeepItUp, RecabledIsAsBroughtUp, WhatIsUpIsSound};

/// The fabric of a topology, brought up with the keys of its end ports, is the fabric of their list: each listed port of a
/// channel adapter is there, set up as listed, and no other; and packets go by their LIDs. So what its ports stamp and
/// what it delivers is what the list reports.
pub fn a_fabric_is_brought_up_as_listed()
    ensures { AFabricIsBroughtUpAsListed }
{}

/// A fabric that is brought up, with MFTs of groups in its switches, is the fabric of the topology's list of ports and
/// of these groups: so what it delivers to a group is what the list says of those that are in it.
pub fn a_fabric_with_groups_is_as_listed()
    ensures { AFabricWithGroupsIsAsListed }
{}

/// If some cable of a topology's fabric is too far for any SMP, no pair is reported that has no up/down path, and the fabric
/// does not come up.
pub fn too_far_excludes_the_rest()
    ensures { TooFarExcludesTheRest }
{}

/// If some pair of a sound topology has no up/down path, its fabric does not come up, in whatever order a sweep may find
/// its switches.
pub fn no_path_excludes_coming_up()
    ensures { NoPathExcludesComingUp }
{}

/// The pair of LIDs that is reported to have no up/down path is one, in whatever order a sweep may find the switches.
pub fn one_pair_has_no_path()
    ensures { OnePairHasNoPath }
{}

/// The linear forwarding tables of a sound topology's fabric are one, in whatever order a sweep may find the switches, and
/// whatever keys are given.
pub fn one_table_is_left()
    ensures { OneTableIsLeft }
{}

/// A sound topology is sound with the cables with which its fabric is up. So the laws of sound topologies apply to it, while
/// others of its cables are cut.
pub fn what_is_up_is_sound()
    ensures { WhatIsUpIsSound }
{}

/// A topology's fabric that is brought up is up with all its cables, of which none is cut.
pub fn brought_up_is_up_with_all()
    ensures { BroughtUpIsUpWithAll }
{}

/// A fabric that is up with some of its cables stays so when MFTs of groups are pushed into all its switches, and then
/// nothing is left of the entries before.
pub fn masks_keep_it_up()
    ensures { MasksKeepItUp }
{}

/// After a cable between two switches is cut or mended, and the fabric is set up again, it is up with the cables that are in
/// place then: it is the fabric of the topology with these alone, set up from power-up by the same routes with the same
/// keys. So nothing of the time before is left but the masks, which stay.
pub fn recabled_is_as_brought_up()
    ensures { RecabledIsAsBroughtUp }
{}

/// A topology's fabric that is brought up stands: it is up with all its cables.
pub fn brought_up_stands()
    ensures { BroughtUpStands }
{}

/// A fabric that stands does so with the masks of any groups.
pub fn masks_let_it_stand()
    ensures { MasksLetItStand }
{}

/// A fabric that stands with the keys of its end ports is the fabric of their list, and of the groups whose masks its switches
/// have, whichever of its cables are cut. So what its ports stamp and what it delivers is what the list reports.
pub fn a_standing_fabric_is_as_listed()
    ensures { AStandingFabricIsAsListed }
{}

/// What stands is one fabric for the same keys, cables in place and groups, whatever was cut and mended before, and in whatever order
/// the sweep of its routes found the switches.
pub fn one_fabric_stands()
    ensures { OneFabricStands }
{}

/// After a command for a cable exactly one set of cables can be in place.
pub fn one_cabling_follows()
    ensures { OneCablingFollows }
{}
