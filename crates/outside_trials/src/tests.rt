// The forms in memory and the adapters over real files, each through its trait.
use ex_io::{
    DiskFolder, Failed, Folder, MemoryFolder, MemorySink, MemorySource, OutsideFault, Sink, Source,
    StdSink, StdSource, SureSink, SureSource, TakeFault,
};
use std::alloc::{AllocError, Global};
use std::fs::OpenFile;
use std::io::{Read, Write};
use std::process::Abort;
use std::test::Fail;
use std::{fs, io};

fn bytes_of(alloc: Global, text: &str) -> Result<Vec<u8>, AllocError> {
    Vec::from_slice(alloc, text.as_bytes())
}

// Asks for three bytes, for each answer that is wanted. At the front of the room stands this text then.
fn fills<S: Source>(rt: &impl Abort, source: &mut S, wanted: &[(Result<usize, Failed>, &str)]) {
    let mut room = [0u8; 3];
    for (want, text) in wanted {
        let answer = source.fill(&mut room);
        assert!(rt;
            answer == *want && room.starts_with(text.as_bytes()),
            "{text}"
        );
    }
}

// Puts each text, and compares the answers.
fn puts<K: Sink>(rt: &impl Abort, sink: &mut K, wanted: &[(&str, Result<(), OutsideFault>)]) {
    for (text, want) in wanted {
        assert!(rt; sink.put(text.as_bytes()) == *want, "{text}");
    }
}

// What a folder is asked, and what it is to answer.
#[derive(Clone, Copy)]
enum Ask<'a> {
    Keeps(&'a str, Result<(), OutsideFault>),
    Takes(&'a str),
    TakesMany(usize),
    Refuses(TakeFault),
}

use Ask::{Keeps, Refuses, Takes, TakesMany};

fn answers<F: Folder>(folder: &mut F, name: &str, ask: Ask) -> bool {
    match ask {
        Keeps(text, want) => folder.keep_file(name, text.as_bytes()) == want,
        Takes(text) => match folder.take_file(name) {
            Ok(taken) => taken.as_slice() == text.as_bytes(),
            Err(_) => false,
        },
        TakesMany(count) => match folder.take_file(name) {
            Ok(taken) => taken.len() == count,
            Err(_) => false,
        },
        Refuses(want) => match folder.take_file(name) {
            Ok(_) => false,
            Err(fault) => fault == want,
        },
    }
}

// Asks a folder for files of these names.
fn asks<F: Folder>(rt: &impl Abort, folder: &mut F, wanted: &[(&str, Ask)]) {
    for (name, ask) in wanted {
        assert!(rt; answers(folder, name, *ask), "{name}");
    }
}

#[test]
fn sources_give_their_bytes_in_pieces_and_fail_where_told(rt: HostRuntime) -> Result<(), Fail> {
    let alloc = rt.alloc();
    let failing = Vec::from_slice(alloc, &[2, 5])?;
    let wanted = [
        (Ok(2), "ab"),
        (Err(Failed), "ab"),
        (Ok(2), "cd"),
        (Ok(2), "ef"),
        (Err(Failed), "ef"),
        (Ok(0), "ef"),
    ];
    fills(
        &rt,
        &mut MemorySource::new(bytes_of(alloc, "abcdef")?, 2, failing),
        &wanted,
    );
    let wanted = [(Ok(3), "abc"), (Ok(1), "dbc"), (Ok(0), "dbc")];
    fills(&rt, &mut SureSource::new(bytes_of(alloc, "abcd")?), &wanted);
    Ok(())
}

#[test]
fn a_failing_put_holds_half_of_its_bytes(rt: HostRuntime) -> Result<(), Fail> {
    let alloc = rt.alloc();
    let failed = Err(OutsideFault::Failed);
    let mut sink = MemorySink::new(alloc, Vec::from_slice(alloc, &[1, 3])?);
    puts(
        &rt,
        &mut sink,
        &[("hi\n", failed), ("abc", Ok(())), ("defg", failed)],
    );
    assert_eq!(rt; sink.held(), b"habcde".as_slice());
    let mut sure = SureSink::new(alloc);
    puts(&rt, &mut sure, &[("ab", Ok(())), ("cd", Ok(()))]);
    assert_eq!(rt; sure.held(), b"abcd".as_slice());
    Ok(())
}

#[test]
fn the_first_file_of_a_name_counts_and_is_replaced(rt: HostRuntime) -> Result<(), Fail> {
    let alloc = rt.alloc();
    let mut files = Vec::new(alloc);
    for (name, text) in [("a", "1"), ("b", "2"), ("a", "3")] {
        files.push((String::from_str(alloc, name)?, bytes_of(alloc, text)?))?;
    }
    let mut folder = MemoryFolder::new(alloc, files, Vec::from_slice(alloc, &[3, 4])?);
    let wanted = [
        ("a", Takes("1")),
        ("c", Refuses(TakeFault::Absent)),
        ("c", Refuses(TakeFault::Failed)),
        ("a", Keeps("4", Err(OutsideFault::Failed))),
        ("a", Takes("1")),
        ("a", Keeps("45", Ok(()))),
        ("c", Keeps("", Ok(()))),
        ("a", Takes("45")),
        ("b", Takes("2")),
        ("c", Takes("")),
    ];
    asks(&rt, &mut folder, &wanted);
    for (name, want) in [
        ("a", Some("45")),
        ("b", Some("2")),
        ("c", Some("")),
        ("d", None),
    ] {
        assert!(rt;
            folder.file(name) == want.map(|text| text.as_bytes()),
            "{name}"
        );
    }
    Ok(())
}

// Takes two bytes a call, and nothing once it is full.
#[derive(Drop)]
struct Narrow {
    room: usize,
    taken: Vec<u8>,
}

impl Write for Narrow {
    fn write(&mut self, buf: &[u8]) -> io::Result<usize> {
        let count = buf.len().min(2).min(self.room);
        if self.taken.extend_from_slice(&buf[..count]).is_err() {
            return Ok(0);
        }
        self.room -= count;
        Ok(count)
    }

    fn flush(&mut self) -> io::Result<()> {
        Ok(())
    }
}

#[test]
fn a_sink_writes_until_all_is_taken_and_fails_where_nothing_is(
    rt: HostRuntime,
) -> Result<(), Fail> {
    let mut narrow = Narrow {
        room: 8,
        taken: Vec::new(rt.alloc()),
    };
    let failed = Err(OutsideFault::Failed);
    let wanted = [("abcde", Ok(())), ("", Ok(())), ("fghi", failed)];
    puts(&rt, &mut StdSink::new(&mut narrow), &wanted);
    assert_eq!(rt; narrow.taken.as_slice(), b"abcdefgh".as_slice());
    Ok(())
}

#[test]
fn a_source_takes_no_more_of_a_stream_than_is_asked_for(rt: HostRuntime) -> Result<(), Fail> {
    fs::write(&rt, "stream.bin", "abcdefgh")?;
    let file = fs::open(&rt, "stream.bin")?;
    let mut behind = file.try_clone()?;
    let mut source = StdSource::new(file);
    fills(&rt, &mut source, &[(Ok(3), "abc")]);
    let mut rest = [0u8; 9];
    assert_eq!(rt; behind.read(&mut rest)?, 5);
    assert_eq!(rt; &rest[..5], b"defgh".as_slice());
    fills(&rt, &mut source, &[(Ok(0), "")]);
    let mut directory = StdSource::new(fs::open(&rt, ".")?);
    fills(&rt, &mut directory, &[(Err(Failed), "")]);
    fs::remove_file(&rt, "stream.bin")?;
    Ok(())
}

#[test]
fn a_disk_folder_keeps_and_takes_files(rt: HostRuntime) -> Result<(), Fail> {
    let wanted = [
        ("kept.bin", Keeps("longer\n", Ok(()))),
        ("kept.bin", Keeps("kept", Ok(()))),
        ("kept.bin", Takes("kept")),
        ("nowhere.bin", Refuses(TakeFault::Failed)),
        (".", Refuses(TakeFault::Failed)),
        ("nowhere/kept.bin", Keeps("kept", Err(OutsideFault::Failed))),
    ];
    asks(&rt, &mut DiskFolder::new(&rt, rt.alloc()), &wanted);
    fs::remove_file(&rt, "kept.bin")?;
    Ok(())
}

#[test]
fn a_disk_folder_takes_up_to_the_limit(rt: HostRuntime) -> Result<(), Fail> {
    let file = fs::create(&rt, "sparse.bin")?;
    for (size, ask) in [
        (268_435_456, TakesMany(268_435_456)),
        (268_435_457, Refuses(TakeFault::Long)),
    ] {
        file.set_len(size)?;
        asks(
            &rt,
            &mut DiskFolder::new(&rt, rt.alloc()),
            &[("sparse.bin", ask)],
        );
    }
    fs::remove_file(&rt, "sparse.bin")?;
    Ok(())
}

// Takes all that is written, and can't pass it on.
#[derive(Drop)]
struct Stuck;

impl Write for Stuck {
    fn write(&mut self, buf: &[u8]) -> io::Result<usize> {
        Ok(buf.len())
    }

    fn flush(&mut self) -> io::Result<()> {
        Err(io::Error::from(io::ErrorKind::WriteZero))
    }
}

#[test]
fn a_put_fails_where_its_flush_does(rt: HostRuntime) {
    let wanted = [("abc", Err(OutsideFault::Failed))];
    puts(&rt, &mut StdSink::new(Stuck), &wanted);
}
