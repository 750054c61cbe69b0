// The outside held in memory, with calls that fail.
use kit_base::{
    FileErr, Files, FilesInMemory, Name, Reads, Seq, Sink, SinkErr, SinkInMemory, join_pieces,
};
use std::test::Fail;

fn write_file<F: Files>(files: &mut F, name: &str, bytes: &[u8]) -> Result<(), FileErr> {
    files.create(name)?;
    files.append(name, bytes)
}

#[test]
fn a_file_is_written_and_read_back_but_by_the_call_that_fails(rt: HostRuntime) -> Result<(), Fail> {
    let alloc = rt.alloc();
    let held = Vec::new(alloc);
    assert!(rt; FilesInMemory::are_distinct(&held));
    let mut files = FilesInMemory::new(alloc, held, vec![in alloc; 3]?);
    assert_eq!(rt; files.read(alloc, "a").err(), Some(FileErr::Missing));
    assert_eq!(rt; write_file(&mut files, "a", b"one"), Ok(()));
    assert_eq!(rt; files.read(alloc, "a").err(), Some(FileErr::Failed));
    assert_eq!(rt; files.read(alloc, "a").map(|v| v.len()), Ok(3));
    if files.held().len() == 1 {
        let name: &Name = &files.held()[0].0;
        assert!(rt; name.is_text());
        assert_eq!(rt; name.bytes(), b"a".as_slice());
    }
    let text = join_pieces(alloc, &[b"one ", b"two"])?;
    let own = Name::from_bytes(alloc, &[0xFF])?.copy()?;
    assert!(rt; !own.is_text());
    assert_eq!(rt; Seq::from_vec(text).as_slice(), b"one two".as_slice());
    Ok(())
}

#[test]
fn what_is_put_is_kept_and_the_second_put_fails(rt: HostRuntime) -> Result<(), Fail> {
    let alloc = rt.alloc();
    let mut sink = SinkInMemory::new(alloc, vec![in alloc; 1]?);
    assert_eq!(rt; sink.put(b"ab"), Ok(()));
    assert_eq!(rt; sink.put(b"cd"), Err(SinkErr::Failed));
    assert_eq!(rt; sink.put(b"ef"), Ok(()));
    assert_eq!(rt; sink.written(), b"abef".as_slice());
    Ok(())
}
