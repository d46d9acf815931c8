//! Fat trees: as many leaf switches, with 8 adapters each, as spine switches, of which each leaf is cabled to 28 or all.
//! The greatest fabric has 32 of each.

ghost use Rattle.std.specs.Prelude.{◌≤◌, ◌<◌};

use crate::fabrics::fabric_of;
use crate::lines::{put, put_line};
use fabric_wire::Fabric;
use std::alloc::Global;
use std::test::Fail;

/// A fat tree of so many leaf switches, and as many spine switches, whose GUIDs are 2000 and those behind it, in decimal.
/// The SM port is attached to port 1 of the first leaf.
pub fn fat_tree_of(alloc: Global, leaves: u16) -> Result<Fabric, Fail>
    requires some { 0 < leaves }
    requires few { leaves ≤ 32 }
{
    let text = text_of_a_fat_tree(alloc, leaves)?;
    fabric_of(alloc, &text)
}

fn text_of_a_fat_tree(alloc: Global, leaves: u16) -> Result<Vec<u8>, Fail>
    requires some { 0 < leaves }
    requires few { leaves ≤ 32 }
{
    let mut text = Vec::new(alloc);
    for i in 0..leaves {
        put_line(&mut text, &[(b"switch leaf", i), (b" 1", i)], b" 36\n")?;
        put_line(&mut text, &[(b"switch spine", i), (b" 2", i)], b" 36\n")?;
    }
    for i in 0..8 * leaves {
        put_line(&mut text, &[(b"adapter h", i), (b" 3", i)], b"0 1\n")?;
        let leaf_port = [(b"cable leaf".as_slice(), i / 8), (b"/", i % 8 + 1)];
        put_line(&mut text, &leaf_port, b"")?;
        put_line(&mut text, &[(b" h", i)], b"/1\n")?;
    }
    for i in 0..leaves {
        for k in 0..leaves.min(28) {
            let leaf_port = [(b"cable leaf".as_slice(), i), (b"/", 9 + k)];
            put_line(&mut text, &leaf_port, b"")?;
            put_line(
                &mut text,
                &[(b" spine", (i + k) % leaves), (b"/", k + 1)],
                b"\n",
            )?;
        }
    }
    put(&mut text, b"sm h000/1\n")?;
    Ok(text)
}
