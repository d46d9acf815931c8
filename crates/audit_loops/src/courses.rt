//! LIDs, each with the switches at which its entries count.

ghost use Rattle.std.specs.Prelude.{◌≡◌, IfOk};
ghost use Rattle.audit_loops.specs.Courses.{counts, everywhere, from_hosts};

use audit_net::Net;
use std::alloc::{AllocError, Global};
use std::marker::Model;
use topo_file::is_marked;

/// A LID, and the switches at which its entries count.
#[derive(Drop)]
pub struct Course {
    lid: u16,
    // A mark for each node; none if the entries count at all switches.
    marks: Option<Vec<bool>>,
}

impl Model for Course {
    ghost use Rattle.std.specs.Prelude.{option_map};
    ghost use Rattle.audit_loops.specs.Courses.{CourseState};

    ghost Value = { CourseState };

    ghost view = { λ course. record { lid = course.lid; marks = option_map (λ marks. marks.items) course.marks } };
}

impl Course {
    /// The entries of this LID count at all switches.
    pub fn everywhere(lid: u16) -> Course
        ensures { result ≡ everywhere lid }
    {
        Course { lid, marks: None }
    }

    /// They count at the switches that packets of hosts come to.
    pub fn from_hosts(net: &Net<'_>, alloc: Global, lid: u16) -> Result<Course, AllocError>
        ensures { IfOk result (λ course. course ≡ from_hosts net.now lid) }
    {
        let marks = net.hosts_marks(alloc, lid)?;
        Ok(Course {
            lid,
            marks: Some(marks),
        })
    }

    /// The LID.
    pub fn lid(&self) -> u16
        ensures { result ≡ self.now.lid }
    {
        self.lid
    }

    /// Whether its entry counts at the switch there.
    pub fn counts(&self, place: usize) -> bool
        ensures { result ≡ counts self.now place }
    {
        match &self.marks {
            Some(marks) => is_marked(marks, place),
            None => true,
        }
    }
}
