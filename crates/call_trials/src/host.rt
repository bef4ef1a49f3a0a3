// The objects of the host, over a file that the test writes.
use crate::reading::{TEXT, read_to_end};
use desk_outside::{Failed, HostShelf, HostSink, HostSource, Shelf, put_all};
use std::test::Fail;
use std::{env, fs, process};

// A path of this process alone.
fn own_path(rt: &HostRuntime) -> Result<String, Fail> {
    let alloc = rt.alloc();
    let name = format!(in alloc; "desk_outside_{}", process::id(rt.process()))?;
    let path = env::temp_dir(rt)?.join(alloc, name.as_str())?;
    let text = path.to_str().ok_or("the path is no text")?;
    Ok(String::from_str(alloc, text)?)
}

// Whether the file of this name takes the text.
fn is_written(rt: &HostRuntime, name: &str) -> Result<bool, Fail> {
    let mut sink = HostSink::new(fs::create(rt, name)?);
    Ok(put_all(&mut sink, TEXT) == Ok(()))
}

// Whether a file that was opened to be read takes the text.
fn is_rewritten(rt: &HostRuntime, name: &str) -> Result<bool, Fail> {
    let mut sink = HostSink::new(fs::open(rt, name)?);
    Ok(put_all(&mut sink, TEXT) == Ok(()))
}

// Whether the file of this name gives these bytes, and how many before a first failure.
fn gives(rt: &HostRuntime, name: &str, text: &[u8], before: Option<usize>) -> Result<bool, Fail> {
    let mut source = HostSource::new(fs::open(rt, name)?);
    let mut bytes = Vec::new(rt.alloc());
    Ok(read_to_end(&mut source, &mut bytes)? == before && bytes.as_slice() == text)
}

// What one read of the file of this name gives on a shelf.
fn read_once(rt: &HostRuntime, name: &str, room: &mut [u8; 16]) -> Result<usize, Failed> {
    let mut shelf = HostShelf::new(rt);
    shelf.open(name)?;
    shelf.read(room)
}

// Whether a shelf gives the text for the file of this name.
fn shelf_gives_text(rt: &HostRuntime, name: &str) -> bool {
    let mut room = [0; 16];
    read_once(rt, name, &mut room) == Ok(10) && &room[..10] == TEXT
}

#[test]
fn the_host_reads_what_it_wrote(rt: HostRuntime) -> Result<(), Fail> {
    let name = own_path(&rt)?;
    assert!(rt; is_written(&rt, &name)?);
    assert!(rt; gives(&rt, &name, TEXT, None)?);
    assert!(rt; shelf_gives_text(&rt, &name));
    assert!(rt; !is_rewritten(&rt, &name)?);
    fs::remove_file(&rt, name.as_str())?;
    assert!(rt; read_once(&rt, &name, &mut [0; 16]).is_err(), "it is gone");
    Ok(())
}

#[test]
fn a_folder_is_no_file(rt: HostRuntime) -> Result<(), Fail> {
    assert!(rt; gives(&rt, "/", b"", Some(0))?, "and not an empty one");
    assert!(rt;
        read_once(&rt, "/", &mut [0; 16]).is_err(),
        "nor on the shelf"
    );
    Ok(())
}
