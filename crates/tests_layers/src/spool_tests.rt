//! The spool's calls, and files over many blocks.

use njh_record::{Kind, Record};
use njh_spool::{FileId, Quota, Spool, SpoolFault, State};
use njh_table::MAX_QUOTA;
use std::alloc::Global;
use std::process::Abort;
use std::test::Fail;

/// A spool of a customer with so many blocks and two files.
fn opened<R: Abort>(rt: &R, alloc: Global, blocks: u32) -> Result<Spool, SpoolFault> {
    let quota = Quota { blocks, files: 2 };
    assert!(rt; 1 <= blocks && blocks <= MAX_QUOTA);
    Spool::open(alloc, &[quota])
}

/// Appends a record of so many bytes, each the same.
fn append<R: Abort>(
    rt: &R,
    spool: &mut Spool,
    file: FileId,
    size: usize,
    byte: u8,
) -> Result<(), SpoolFault> {
    assert!(rt; 0 < spool.customers());
    assert!(rt; size <= 256);
    spool.append(0, file, 0x80, &[byte; 256][..size])
}

/// Whether a file has a record of these bytes by its index.
fn has<R: Abort>(
    rt: &R,
    spool: &Spool,
    file: FileId,
    n: u32,
    bytes: &[u8],
) -> Result<bool, SpoolFault> {
    assert!(rt; 0 < spool.customers());
    let count = spool.records(0, file)?;
    assert!(rt; n < count);
    let mut record = Record::new();
    let srcb = spool.record_at(0, file, n, &mut record)?;
    Ok(srcb == 0x80 && record.as_slice() == bytes)
}

/// Whether it has it where it is read on.
fn goes_on<R: Abort>(
    rt: &R,
    spool: &mut Spool,
    file: FileId,
    n: u32,
    bytes: &[u8],
) -> Result<bool, SpoolFault> {
    assert!(rt; 0 < spool.customers());
    let count = spool.records(0, file)?;
    assert!(rt; n < count);
    let mut record = Record::new();
    let srcb = spool.read_on(0, file, n, &mut record)?;
    Ok(srcb == 0x80 && record.as_slice() == bytes)
}

/// A file's record is so many bytes, each the same.
fn check_record<R: Abort>(
    rt: &R,
    spool: &mut Spool,
    file: FileId,
    n: u32,
    (size, byte): (usize, u8),
) -> Result<(), SpoolFault> {
    assert!(rt; size <= 256);
    let bytes = [byte; 256];
    assert!(rt; has(rt, spool, file, n, &bytes[..size])?, "{n}");
    assert!(rt; goes_on(rt, spool, file, n, &bytes[..size])?, "{n}");
    Ok(())
}

/// A file of three records, of which one ends at a block's end and one crosses two, is written.
fn write<R: Abort>(rt: &R, spool: &mut Spool) -> Result<FileId, SpoolFault> {
    assert!(rt; 0 < spool.customers());
    let file = spool.begin(0, Kind::In)?;
    append(rt, spool, file, 249, 1)?;
    append(rt, spool, file, 248, 2)?;
    append(rt, spool, file, 256, 3)?;
    assert!(rt; 0 < spool.customers());
    spool.finish(0, file)?;
    Ok(file)
}

fn read<R: Abort>(rt: &R, spool: &mut Spool, file: FileId) -> Result<(), SpoolFault> {
    check_record(rt, spool, file, 0, (249, 1))?;
    check_record(rt, spool, file, 1, (248, 2))?;
    check_record(rt, spool, file, 2, (256, 3))?;
    check_record(rt, spool, file, 1, (248, 2))
}

/// What is known of a file, which is the only one.
fn look<R: Abort>(rt: &R, spool: &Spool, file: FileId) -> Result<(), SpoolFault> {
    assert!(rt; 0 < spool.customers());
    assert!(rt; 0 < spool.files(0));
    assert!(rt; spool.file_at(0, 0) == file && spool.kind(0, file)? == Kind::In);
    assert!(rt; spool.state(0, file)? == State::Held && spool.blocks(0, file)? == 4);
    assert!(rt; spool.arrived(0) == 1);
    Ok(())
}

/// Eight bytes are written over a record's, from the third on.
fn rewrite<R: Abort>(rt: &R, spool: &mut Spool, file: FileId) -> Result<(), SpoolFault> {
    assert!(rt; 0 < spool.customers());
    spool.state(0, file)?;
    let count = spool.records(0, file)?;
    assert!(rt; 1 < count);
    let mut record = Record::new();
    spool.record_at(0, file, 1, &mut record)?;
    assert!(rt; 10 <= record.len());
    spool.rewrite(0, file, 1, 2, [0xE7; 8])
}

fn rewrite_and_read<R: Abort>(rt: &R, spool: &mut Spool, file: FileId) -> Result<(), SpoolFault> {
    rewrite(rt, spool, file)?;
    let mut bytes = [2; 248];
    bytes[2..10].copy_from_slice(b"\xe7\xe7\xe7\xe7\xe7\xe7\xe7\xe7");
    assert!(rt; has(rt, spool, file, 1, &bytes)?);
    Ok(())
}

fn hold<R: Abort>(rt: &R, spool: &mut Spool, file: FileId) -> Result<(), SpoolFault> {
    assert!(rt; 0 < spool.customers());
    spool.set_state(0, file, State::Held)
}

/// Another file comes in part, and is given up.
fn give_up<R: Abort>(rt: &R, spool: &mut Spool) -> Result<(), SpoolFault> {
    assert!(rt; 0 < spool.customers());
    let file = spool.begin(0, Kind::Out)?;
    append(rt, spool, file, 9, 1)?;
    assert!(rt; 0 < spool.customers());
    spool.abandon(0, file)
}

fn remove<R: Abort>(rt: &R, spool: &mut Spool, file: FileId) -> Result<(), SpoolFault> {
    assert!(rt; 0 < spool.customers());
    spool.remove(0, file)?;
    assert!(rt; 0 < spool.customers());
    assert!(rt; spool.files(0) == 0 && spool.used(0) == 0);
    Ok(())
}

fn try_calls<R: Abort>(rt: &R, spool: &mut Spool) -> Result<(), SpoolFault> {
    let file = write(rt, spool)?;
    read(rt, spool, file)?;
    hold(rt, spool, file)?;
    look(rt, spool, file)?;
    rewrite_and_read(rt, spool, file)?;
    give_up(rt, spool)?;
    remove(rt, spool, file)
}

#[test]
fn calls_on_a_file(rt: HostRuntime) -> Result<(), Fail> {
    let mut spool = opened(&rt, rt.alloc(), 20)?;
    Ok(try_calls(&rt, &mut spool)?)
}

/// A file of as many blocks as a customer may have is written, one for each record.
fn fill<R: Abort>(rt: &R, spool: &mut Spool) -> Result<FileId, SpoolFault> {
    assert!(rt; 0 < spool.customers());
    let file = spool.begin(0, Kind::Out)?;
    for _ in 0..65_535 {
        append(rt, spool, file, 249, 197)?;
    }
    Ok(file)
}

/// It is full, and is read on.
fn read_on<R: Abort>(rt: &R, spool: &mut Spool, file: FileId) -> Result<(), SpoolFault> {
    assert_eq!(rt; append(rt, spool, file, 0, 0), Err(SpoolFault::QuotaFull));
    let bytes = [197; 249];
    for n in 0..65_535 {
        assert!(rt; goes_on(rt, spool, file, n, &bytes)?, "{n}");
    }
    Ok(())
}

fn fill_and_read<R: Abort>(rt: &R, spool: &mut Spool) -> Result<(), SpoolFault> {
    let file = fill(rt, spool)?;
    read_on(rt, spool, file)
}

#[test]
fn a_file_takes_the_most_blocks(rt: HostRuntime) -> Result<(), Fail> {
    let mut spool = opened(&rt, rt.alloc(), 65_535)?;
    Ok(fill_and_read(&rt, &mut spool)?)
}
