//! The laws of agents. Each function's contract is its law; it does nothing.

ghost use Rattle.std.specs.Prelude.{◌≡◌};
ghost use Rattle.agent_rules.specs.declared.power_up.TheConstants.{LINEAR_TABLE, MULTICAST_TABLE};
ghost use Rattle.agent_rules.specs.declared.request.TheConstants.{DIRECTED_ROUTE_CLASS, SMP_VERSION};
ghost use Rattle.agent_rules.specs.Laws.{NodeInfosNameGuids, PortsTakeBack, RepliesCarry, SetsAreTaken, SettingsKeepGood, EncodedIsRead, UnseenPasses};

/// A reply carries the attribute or the refusal that answers, and all of the request beside. Like the
/// laws below it does nothing: its contract is the law.
pub fn replies_carry()
    ensures { RepliesCarry }
{}

/// What an agent neither reads nor writes, as the path, asks nothing of it and comes back in the reply.
pub fn unseen_passes()
    ensures { UnseenPasses }
{}

/// What is encoded in an attribute, PortInfo say, is what an agent reads in it.
pub fn encoded_is_read()
    ensures { EncodedIsRead }
{}

/// A port takes back what it has: a Set that asks for that, and for no change of its state, is taken and
/// changes nothing.
pub fn ports_take_back()
    ensures { PortsTakeBack }
{}

/// After a Set that a port takes, each field that a Set may change reads as it was asked, and every other as before.
pub fn sets_are_taken()
    ensures { SetsAreTaken }
{}

/// NodeInfo names the GUID of the system, of the node and of the port, each at its place.
pub fn node_infos_name_guids()
    ensures { NodeInfosNameGuids }
{}

/// Whatever a Set asks for, what the port has after it is good if it was good.
pub fn settings_keep_good()
    ensures { SettingsKeepGood }
{}

/// The numbers of agents, written out. How long the tables are is ours; the class is that of directed-route
/// SMPs (IBA volume 1, 13.4.4 and 14.2.1.2).
pub fn the_numbers()
    ensures linear_table { LINEAR_TABLE ≡ 512 }
    ensures multicast_table { MULTICAST_TABLE ≡ 4096 }
    ensures directed_route_class { DIRECTED_ROUTE_CLASS ≡ 0x81 }
    ensures smp_version { SMP_VERSION ≡ 1 }
{}
