//! The methods of MADs.

ghost use Rattle.std.specs.Prelude.{◌≡◌, Some, IfSome};
ghost use Rattle.mad_layout.specs.Method.{method_code};

/// What a MAD asks for or answers; the answers have the R bit set.
///
/// Source: IBA volume 1, 13.4.5; those on tables and Delete are subnet administration's, 15.2.2.
#[derive(Clone, Copy, Debug, PartialEq, Eq)]
pub enum Method {
    /// Asks for an attribute.
    Get = 0x01,
    /// Sets an attribute.
    Set = 0x02,
    /// Asks for all records that agree with one.
    GetTable = 0x12,
    /// Deletes a record.
    Delete = 0x15,
    /// Answers Get and Set.
    GetResp = 0x81,
    /// Answers GetTable.
    GetTableResp = 0x92,
    /// Answers Delete.
    DeleteResp = 0x95,
}

impl Method {
    /// The method of that code, its R bit included, if there is one.
    pub fn from_code(code: u8) -> Option<Method>
        ensures known { IfSome result (λ method. method_code method ≡ code) }
        ensures every { (method : Method) → method_code method ≡ code → result ≡ Some method }
    {
        match code {
            0x01 => Some(Method::Get),
            0x02 => Some(Method::Set),
            0x12 => Some(Method::GetTable),
            0x15 => Some(Method::Delete),
            0x81 => Some(Method::GetResp),
            0x92 => Some(Method::GetTableResp),
            0x95 => Some(Method::DeleteResp),
            _ => None,
        }
    }

    /// The code of the method, its R bit included.
    pub fn code(self) -> u8
        ensures { result ≡ method_code self }
    {
        self as u8
    }
}
