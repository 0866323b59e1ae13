//! How the name of a file is written in messages.
ghost use Rattle.std.specs.Prelude.{◌≡◌, ◌++◌, OnOk};
ghost use Rattle.std.specs.List.{flat_map};
ghost use Rattle.drf_app.specs.FileNames.{reported_byte, reported_name};

use std::alloc::AllocError;

// Appends a byte of a name, escaped if it is ASCII.
fn push_byte(text: &mut Vec<u8>, byte: u8) -> Result<(), AllocError>
    ensures { OnOk result (text.new.items ≡ text.old.items ++ reported_byte byte) }
{
    if byte >= 128 {
        text.push(byte)?;
        return Ok(());
    }
    for escaped in byte.escape_ascii() {
        text.push(escaped)?;
    }
    Ok(())
}

/// Appends the bytes of a name, escaped if they are ASCII.
fn push_bytes(text: &mut Vec<u8>, bytes: &[u8]) -> Result<(), AllocError>
    ensures { OnOk result (text.new.items ≡ text.old.items ++ flat_map reported_byte bytes.now) }
{
    for byte in bytes {
        push_byte(text, *byte)?;
    }
    Ok(())
}

/// Appends the name of a file, with ASCII control bytes escaped, and in quotes if it has a space.
pub(crate) fn push_name(text: &mut Vec<u8>, name: &str) -> Result<(), AllocError>
    ensures { OnOk result (text.new.items ≡ text.old.items ++ reported_name name.now) }
{
    let bytes = name.as_bytes();
    if !bytes.contains(&b' ') {
        return push_bytes(text, bytes);
    }
    text.push(b'"')?;
    push_bytes(text, bytes)?;
    text.push(b'"')?;
    Ok(())
}
