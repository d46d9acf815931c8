//! The numbers of queue pairs.

ghost use Rattle.std.specs.Prelude.{◌≡◌, ◌<◌, ◌^◌};
ghost use Rattle.std.specs.Option.{SomeIff};
ghost use Rattle.data_packet.specs.QueuePair.{general_services_qp, is_general_services, is_subnet_management};

use std::marker::Model;

/// The queue pair of the subnet management interface (IBA volume 1, 14.2.1.1): it takes subnet management packets alone.
pub const SUBNET_MANAGEMENT_QP: u32 = 0;

/// The queue pair of the general services interface (IBA volume 1, 13.4.4), subnet administration's among them.
pub const GENERAL_SERVICES_QP: u32 = 1;

/// The number of a queue pair: 24 bits.
#[derive(Clone, Copy, Debug, PartialEq, Eq)]
pub struct QueuePair {
    number: u32,
}

impl Model for QueuePair {
    ghost use Rattle.std.specs.Prelude.{ℕ, ◌<◌, ◌^◌};

    ghost Value = { ℕ };

    ghost view = { λ queue_pair. queue_pair.number };

    ghost invariant = { λ queue_pair. queue_pair.number < 2 ^ 24 };

    ghost inverse = { λ n. record { number = n } };
}

impl QueuePair {
    /// The queue pair of that number, if it has 24 bits.
    pub fn new(number: u32) -> Option<QueuePair>
        ensures { SomeIff result (number < 2 ^ 24) number }
    {
        if number >> 24 == 0 {
            Some(QueuePair { number })
        } else {
            None
        }
    }

    /// The queue pair at which subnet administration is asked.
    pub fn general_services() -> QueuePair
        ensures { result ≡ general_services_qp }
    {
        QueuePair {
            number: GENERAL_SERVICES_QP,
        }
    }

    /// Whether it takes subnet management packets alone, and so no data.
    pub fn is_subnet_management(self) -> bool
        ensures { result ≡ is_subnet_management self }
    {
        self.number == SUBNET_MANAGEMENT_QP
    }

    /// Whether subnet administration is asked at it.
    pub fn is_general_services(self) -> bool
        ensures { result ≡ is_general_services self }
    {
        self.number == GENERAL_SERVICES_QP
    }

    /// Its number.
    pub fn number(self) -> u32
        ensures value { result ≡ self }
        ensures fits { result < 2 ^ 24 }
    {
        self.number
    }
}
