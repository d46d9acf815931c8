//! Whom the lines name. The function does nothing: its contract is the law.

ghost use Rattle.partition_reports.specs.ShareLaws.{NearIsToShare};

/// Whatever the ports and their keys, one port is near another if and only if it is that port, or some line names both.
pub fn near_is_to_share()
    ensures { NearIsToShare }
{}
