//! Lines of texts of fabrics.

use std::test::Fail;

/// Adds these bytes.
pub fn put(text: &mut Vec<u8>, part: &[u8]) -> Result<(), Fail> {
    text.extend_from_slice(part).ok().ok_or("memory")?;
    Ok(())
}

/// Adds a number of three digits.
fn put_number(text: &mut Vec<u8>, number: u16) -> Result<(), Fail> {
    for unit in [100, 10, 1] {
        let digit = (number / unit % 10) as u8;
        text.push(b'0' + digit).ok().ok_or("memory")?;
    }
    Ok(())
}

/// Adds a line of such parts, each with a number of three digits.
pub fn put_line(text: &mut Vec<u8>, parts: &[(&[u8], u16)], end: &[u8]) -> Result<(), Fail> {
    for (part, number) in parts {
        put(text, *part)?;
        put_number(text, *number)?;
    }
    put(text, end)
}

/// Adds a cable between two ports, each given by the beginning of its node's name, and the numbers of node and port.
pub fn put_cable(text: &mut Vec<u8>, ends: [(&[u8], u8, u8); 2]) -> Result<(), Fail> {
    put(text, b"cable")?;
    for (kind, node, port) in ends {
        put_line(
            text,
            &[(kind, u16::from(node)), (b"/", u16::from(port))],
            b"",
        )?;
    }
    put(text, b"\n")
}
