// Faulty sheets, by examples.
use sheet_merge::{SheetFault, SheetLineFault, read_sheet};
use std::alloc::{AllocError, Global};

fn refusal(rt: &HostRuntime, bytes: &[u8]) -> Option<SheetFault> {
    read_sheet(rt.alloc(), bytes).err()
}

fn at_line(line: u64, fault: SheetLineFault) -> Option<SheetFault> {
    Some(SheetFault::Line { line, fault })
}

#[test]
fn tells_faults(rt: HostRuntime) {
    let cases: [(&[u8], Option<SheetFault>); 11] = [
        (b" \n\n", None),
        (b"1000000000000000000 a t d 1\r\n", None),
        (
            b"1000000000000000001 a t d 1",
            at_line(1, SheetLineFault::BadStamp),
        ),
        (b"0 ann 401 d3 1\n", at_line(1, SheetLineFault::BadStamp)),
        (b"\n01 a t d 1", at_line(2, SheetLineFault::BadStamp)),
        (b"+1 a t d 1", at_line(1, SheetLineFault::BadStamp)),
        (b"0 a t d\n", at_line(1, SheetLineFault::BadFieldCount)),
        (b"0 a t d\x01 1", at_line(1, SheetLineFault::BadByte)),
        (b"0 a t d 1001\n", at_line(1, SheetLineFault::BadStamp)),
        (b"5 a t d 1001\n", at_line(1, SheetLineFault::BadGrade)),
        (
            b"5 a t d -1000\n\n5 a t d -1001",
            at_line(3, SheetLineFault::BadGrade),
        ),
    ];
    for (text, fault) in &cases {
        assert!(rt; refusal(&rt, text) == *fault);
    }
}

// A line whose grade is too great, with names of these lengths and spaces at its end.
fn padded(
    alloc: Global,
    stamp: u8,
    names: &[usize; 3],
    spaces: usize,
) -> Result<Vec<u8>, AllocError> {
    let mut text = vec![in alloc; stamp]?;
    for length in names {
        let name = vec![in alloc; b'n'; *length]?;
        text.extend_from_slice(b" ")?;
        text.extend_from_slice(&name)?;
    }
    text.extend_from_slice(b" 1001")?;
    let spaces = vec![in alloc; b' '; spaces]?;
    text.extend_from_slice(&spaces)?;
    Ok(text)
}

#[test]
fn tells_lengths_in_their_order(rt: HostRuntime) -> Result<(), AllocError> {
    for (stamp, names, spaces, fault) in &[
        (b'5', [255, 255, 255], 0, SheetLineFault::BadGrade),
        (b'5', [256, 1, 1], 0, SheetLineFault::NameTooLong),
        (b'5', [1, 256, 1], 0, SheetLineFault::NameTooLong),
        (b'5', [1, 1, 256], 0, SheetLineFault::NameTooLong),
        (b'0', [256, 256, 256], 0, SheetLineFault::BadStamp),
        (b'5', [1, 1, 1], 4084, SheetLineFault::BadGrade),
        (b'5', [1, 1, 1], 4085, SheetLineFault::LineTooLong),
    ] {
        let text = padded(rt.alloc(), *stamp, names, *spaces)?;
        assert!(rt; refusal(&rt, &text) == at_line(1, *fault));
    }
    Ok(())
}
