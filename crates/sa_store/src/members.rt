//! Who is in a partition.

ghost use Rattle.std.specs.Prelude.{◌≡◌, ◌<◌};
ghost use Rattle.sa_model.specs.Members.{is_in};

use subnet_model::SubnetPort;

/// Whether the port is in the partition of a base.
pub fn is_in(own: &SubnetPort, base: u16) -> bool
    requires { base < 0x8000 }
    ensures { result ≡ is_in own.now base }
{
    base != 0 && own.keys.has_base(base)
}
