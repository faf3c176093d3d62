// What is printed of a run.
ghost use Rattle.std.specs.Prelude.{◌≡◌, ◌++◌, ℕ, IfOk, OnOk, flat_map};
ghost use Rattle.std.specs.String.{string_bytes};
ghost use Rattle.run_status.specs.Statuses.{number_of};
ghost use Rattle.run_status.specs.declared.status.Status.TheVariants.{WriteFault};
ghost use Rattle.dired_cases.specs.Reports.{report_text as report_text_of, line_byte as line_byte_of, held_text};

use case_tables::push_field_byte;
use dired_run::Status;
use dired_text::Memory;
use std::alloc::Global;

/// What is printed of a status and of the bytes that were written.
pub fn report_text(alloc: Global, status: &Status, written: &[u8]) -> Result<String, Memory>
    ensures { IfOk result (λ t. string_bytes t ≡
        report_text_of (number_of status.now) written.now) }
{
    let number = status.number();
    let mut text = format!(in alloc; "status {number}\n|")?;
    push_lines(&mut text, written)?;
    text.push_str("\n")?;
    Ok(text)
}

/// Prints the number that a write fault holds, that of the status whose text was being written.
pub fn push_held(text: &mut String, status: &Status) -> Result<(), Memory>
    ensures { (held : ℕ) → status.now ≡ WriteFault held →
        OnOk result (string_bytes text.new ≡ string_bytes text.old ++ held_text held) }
{
    if let Status::WriteFault { held } = status {
        let row = format!(in *text.allocator(); "held {held}\n")?;
        text.push_str(row.as_str())?;
    }
    Ok(())
}

// Prints the bytes of the output, in which each newline begins a line behind `|`.
fn push_lines(text: &mut String, bytes: &[u8]) -> Result<(), Memory>
    ensures { OnOk result (string_bytes text.new ≡ string_bytes text.old
        ++ flat_map line_byte_of bytes.now) }
{
    for byte in bytes {
        push_line_byte(text, *byte)?;
    }
    Ok(())
}

// Prints a byte of the output.
fn push_line_byte(text: &mut String, byte: u8) -> Result<(), Memory>
    ensures { OnOk result (string_bytes text.new ≡ string_bytes text.old ++ line_byte_of byte) }
{
    match byte {
        b'\n' => text.push_str("\n|")?,
        b' ' => text.push(' ')?,
        _ => push_field_byte(text, byte)?,
    }
    Ok(())
}
