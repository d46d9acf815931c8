//! What is so of all records. Each function does nothing: its contract is the law.

ghost use Rattle.std.specs.Prelude.{◌≡◌};
ghost use Rattle.sa_records.specs.declared.node_record.TheConstants.{NODE_RECORD_BYTES, NODE_RECORD_OFFSET};
ghost use Rattle.sa_records.specs.declared.path_record.TheConstants.{PATH_RECORD_BYTES, PATH_RECORD_OFFSET};
ghost use Rattle.sa_records.specs.declared.mc_member_record.TheConstants.{MC_MEMBER_RECORD_BYTES, MC_MEMBER_RECORD_OFFSET};
ghost use Rattle.sa_records.specs.declared.service_record.TheConstants.{SERVICE_RECORD_BYTES, SERVICE_RECORD_OFFSET};
ghost use Rattle.sa_records.specs.Laws.{FieldsHaveOwnBits, McMemberRecordsReadBack, NodeRecordsReadBack, PathRecordsReadBack, RatesAreInOrder, ServiceRecordsReadBack};

/// A NodeRecord that is written is read again, whatever follows its bytes.
pub fn node_records_read_back()
    ensures { NodeRecordsReadBack }
{}

/// A PathRecord that is written is read again, whatever follows its bytes.
pub fn path_records_read_back()
    ensures { PathRecordsReadBack }
{}

/// An MCMemberRecord that is written is read again, whatever follows its bytes.
pub fn mc_member_records_read_back()
    ensures { McMemberRecordsReadBack }
{}

/// A ServiceRecord that is written is read again, whatever follows its bytes.
pub fn service_records_read_back()
    ensures { ServiceRecordsReadBack }
{}

/// Each field that a record is asked by has bits of the ComponentMask, ServiceName too, and no two fields have one in
/// common.
pub fn fields_have_own_bits()
    ensures { FieldsHaveOwnBits }
{}

/// Each rate is among those that are compared, which stand in the order of their speed.
pub fn rates_are_in_order()
    ensures { RatesAreInOrder }
{}

/// How many bytes records fill in a table, and AttributeOffset of tables, written out.
pub fn the_numbers()
    ensures node_record { (NODE_RECORD_BYTES ≡ 112) × (NODE_RECORD_OFFSET ≡ 14) }
    ensures path_record { (PATH_RECORD_BYTES ≡ 64) × (PATH_RECORD_OFFSET ≡ 8) }
    ensures mc_member_record { (MC_MEMBER_RECORD_BYTES ≡ 56) × (MC_MEMBER_RECORD_OFFSET ≡ 7) }
    ensures service_record { (SERVICE_RECORD_BYTES ≡ 176) × (SERVICE_RECORD_OFFSET ≡ 22) }
{}
