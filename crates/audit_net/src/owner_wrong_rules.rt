//! Wrong rules for whose a LID is, and the law that each breaks, so that a reader sees that the laws say something. Each
//! function does nothing: its contract says that with this rule the law is false.

ghost use Rattle.audit_net.specs.OwnerWrongRules.{ReportsComeLast, OldLidsDoNotCount, ReportedLidsCount};

/// If what a port reports counts first, a row that gives the LID to another port is not heard.
pub fn reports_come_last()
    ensures { ReportsComeLast }
{}

/// If what a port reports counts beside what rows say, a port that got another LID since has two.
pub fn old_lids_do_not_count()
    ensures { OldLidsDoNotCount }
{}

/// If rows alone count, a LID that has no row is nobody's, though a port reports it.
pub fn reported_lids_count()
    ensures { ReportedLidsCount }
{}
