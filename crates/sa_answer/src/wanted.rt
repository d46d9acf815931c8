//! What a request wants, read once from its method and its AttributeID.

ghost use Rattle.std.specs.Prelude.{◌≡◌};
ghost use Rattle.sa_answer.specs.Wanted.{change_wanted, get_wanted, table_wanted, wanted_of};

use crate::request::Request;
use mad_layout::{MadStatus, Method};
use sa_records::SaAttribute;

/// What a request wants.
///
/// Source: IBA volume 1, 15.2.2.
#[derive(Clone, Copy)]
pub(crate) enum Wanted {
    /// The one record of this kind that it selects.
    Get(SaAttribute),
    /// All records of this kind that it selects.
    GetTable(SaAttribute),
    /// To join a multicast group.
    Join,
    /// To leave one.
    Leave,
    /// To register a service.
    SetService,
    /// To delete one.
    DeleteService,
    /// What no SA does: it is refused with this status.
    Refused(MadStatus),
}

impl Request {
    /// What it wants.
    pub(crate) fn wanted(&self) -> Wanted
        ensures { result ≡ wanted_of self.now }
    {
        let attribute = SaAttribute::from_code(self.header.attribute_id);
        let method = self.header.method;
        if method == Method::Get.code() {
            get_wanted(attribute)
        } else if method == Method::GetTable.code() {
            table_wanted(attribute)
        } else if method == Method::Set.code() {
            change_wanted(attribute, Wanted::Join, Wanted::SetService)
        } else if method == Method::Delete.code() {
            change_wanted(attribute, Wanted::Leave, Wanted::DeleteService)
        } else {
            Wanted::Refused(MadStatus::MethodNotSupported)
        }
    }
}

/// A Get of records of this kind.
fn get_wanted(attribute: Option<SaAttribute>) -> Wanted
    ensures { result ≡ get_wanted attribute }
{
    match attribute {
        Some(attribute) => Wanted::Get(attribute),
        None => Wanted::Refused(MadStatus::AttributeNotSupported),
    }
}

/// A GetTable of them.
fn table_wanted(attribute: Option<SaAttribute>) -> Wanted
    ensures { result ≡ table_wanted attribute }
{
    match attribute {
        Some(attribute) => Wanted::GetTable(attribute),
        None => Wanted::Refused(MadStatus::AttributeNotSupported),
    }
}

/// A Set or a Delete: the first of MCMemberRecords, the second of ServiceRecords.
fn change_wanted(attribute: Option<SaAttribute>, membership: Wanted, service: Wanted) -> Wanted
    ensures { result ≡ change_wanted attribute membership service }
{
    match attribute {
        Some(SaAttribute::McMemberRecord) => membership,
        Some(SaAttribute::ServiceRecord) => service,
        _ => Wanted::Refused(MadStatus::AttributeNotSupported),
    }
}
