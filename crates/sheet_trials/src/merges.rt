// Sheets, their texts and their merge, by examples.
use sheet_merge::{Sheet, read_sheet};
use std::test::Fail;

// The text of the merge of sheets.
fn merged_text(rt: &HostRuntime, texts: &[&[u8]]) -> Result<Vec<u8>, Fail> {
    let mut sheet = Sheet::empty(rt.alloc());
    for text in texts {
        let other = read_sheet(rt.alloc(), text)?;
        sheet.merge(rt.alloc(), &other)?;
    }
    Ok(sheet.text(rt.alloc())?)
}

#[test]
fn merges_in_any_order(rt: HostRuntime) -> Result<(), Fail> {
    let s: &[u8] = b"5 ann 401 d3 1\n7 bob 401 d1 0\n";
    let t: &[u8] = b"5 bob 401 d3 0\n7 bob 401 d1 2\n";
    let wanted: &[u8] = b"7 bob 401 d1 2\n5 bob 401 d3 0\n";
    for texts in &[[s, t, b""], [t, b"\n", s], [s, t, s]] {
        assert!(rt; merged_text(&rt, texts)?.as_slice() == wanted);
    }
    assert!(rt; merged_text(&rt, &[b"", b""])?.as_slice() == b"".as_slice());
    Ok(())
}

#[test]
fn prints_a_line_for_each_document(rt: HostRuntime) -> Result<(), Fail> {
    let text =
        b"9\tann 402 d2 +007 \r\n\n10 bob 401 d9 -5\n9 cat 401 d10 2\n1000000000000000000 ann 402 d2 -1\n8 bob 402 d2 3";
    let wanted: &[u8] = b"9 cat 401 d10 2\n10 bob 401 d9 -5\n1000000000000000000 ann 402 d2 -1\n";
    assert!(rt; merged_text(&rt, &[text])?.as_slice() == wanted);
    assert!(rt; merged_text(&rt, &[b"3 ann t d +007"])?.as_slice() == b"3 ann t d 7\n".as_slice());
    Ok(())
}

fn has_grades(sheet: &Sheet) -> bool {
    sheet.grade(b"401", b"d1") == Some(-1)
        && sheet.grade(b"401", b"d2") == Some(0)
        && sheet.grade(b"401", b"d3") == None
        && sheet.grade(b"40", b"1d1") == None
        && sheet.grade(b"", b"401 d1") == None
        && sheet.grade(b"401", b"\0") == None
}

#[test]
fn keeps_the_last_grade(rt: HostRuntime) -> Result<(), Fail> {
    let sheet = read_sheet(
        rt.alloc(),
        b"4 ann 401 d1 2\n5 bob 401 d1 -1\n4 ann 401 d2 0\n",
    )?;
    assert!(rt; has_grades(&sheet));
    Ok(())
}
