//! The ports of a subnet, and its partitions.

ghost use Rattle.std.specs.Prelude.{◌≡◌};

use crate::subnet_port::SubnetPort;
use partition_file::Heading;
use std::marker::Model;

/// What a subnet is brought up as, which no command changes: its end ports in order of LID, and its
/// partitions in order of their numbers.
#[derive(Debug, Drop)]
pub struct Configuration {
    ports: Vec<SubnetPort>,
    partitions: Vec<Heading>,
}

impl Model for Configuration {
    ghost use Rattle.subnet_model.specs.Configuration.{ConfigurationState};

    ghost Value = { ConfigurationState };

    ghost view = { λ configuration. record { ports = configuration.ports.items; partitions = configuration.partitions.items } };
}

impl Configuration {
    ghost use Rattle.subnet_model.specs.Configuration.{ConfigurationState};

    /// The configuration of these ports and partitions.
    pub fn new(ports: Vec<SubnetPort>, partitions: Vec<Heading>) -> Configuration
        ensures { result ≡ record { ports = ports.items; partitions = partitions.items } }
    {
        Configuration { ports, partitions }
    }

    /// The end ports.
    pub fn ports(&self) -> &[SubnetPort]
        ensures { result.now ≡ self.now.ports }
    {
        self.ports.as_slice()
    }

    /// The partitions; the place of each is its number.
    pub fn partitions(&self) -> &[Heading]
        ensures { result.now ≡ self.now.partitions }
    {
        self.partitions.as_slice()
    }
}
