//! A rule for what is shown of services that breaks isolation, so that a reader sees that the laws say
//! something. The function does nothing: its contract is the law.

ghost use Rattle.sa_model.specs.ServiceWrongRules.{ServicesOfPartitionsReport};

/// If a port is shown all services of its partitions, one limited member shows to another that it is there.
pub fn services_of_partitions_report()
    ensures { ServicesOfPartitionsReport }
{}
