//! The laws of services, over the definitions alone. Each function does nothing: its
//! contract is the law.

ghost use Rattle.sa_model.specs.KeyOrder.{KeysStandByBase};
ghost use Rattle.sa_model.specs.ServiceLaws.{DeletedServicesAreGone, FarServicesAreNotNear, FarServicesAreNotSeen, NearServicesStayAlike, NoServicesAreSound, PlacesStay, ServicesAreSeenAlike, ServicesDependOnNear, ServicesStaySound, SetServicesAreThere, ShownServicesAreNear};

/// A port's keys in the order of their bases are the same keys, and are in that order.
pub fn keys_stand_by_base()
    ensures { KeysStandByBase }
{}

/// At the start services are sound.
pub fn no_services_are_sound()
    ensures { NoServicesAreSound }
{}

/// What ports set and delete keeps them sound.
pub fn services_stay_sound()
    ensures { ServicesStaySound }
{}

/// Whose services there are, and in which partitions, does not change.
pub fn places_stay()
    ensures { PlacesStay }
{}

/// After a Set the service is there, once, if the port has one place in this base and room there; all others are
/// as before.
pub fn set_services_are_there()
    ensures { SetServicesAreThere }
{}

/// After a Delete there is no service of this ID; all others are as before.
pub fn deleted_services_are_gone()
    ensures { DeletedServicesAreGone }
{}

/// What a port that is far from another does to services is not shown to that one.
pub fn far_services_are_not_seen()
    ensures { FarServicesAreNotSeen }
{}

/// Nor does it change anything of the services of the ports near that one.
pub fn far_services_are_not_near()
    ensures { FarServicesAreNotNear }
{}

/// What a port is shown of services follows from those of the ports near it.
pub fn shown_services_are_near()
    ensures { ShownServicesAreNear }
{}

/// If a port is shown the same services before a Set or a Delete of any port, it is shown the same after.
pub fn services_are_seen_alike()
    ensures { ServicesAreSeenAlike }
{}

/// If the services of the ports near a port are the same before a Set or a Delete of any port, they are the same
/// after.
pub fn near_services_stay_alike()
    ensures { NearServicesStayAlike }
{}

/// Whatever ports set and delete, the services of the ports near a port depend only on what these ports do.
pub fn services_depend_on_near()
    ensures { ServicesDependOnNear }
{}
