// A folder of blob files, read into a bank and listed.
use anyhow::Context;
use blobs::{Bank, BlobFiles, BlobSource, Extent};
use codec::Word;
use std::fs;
use tables::{Entry, SortedTable};

#[derive(Drop)]
struct BlobFile {
    pointer: u64,
    bytes: Vec<u8>,
}

// The files whose names are pointers, in no order, and how many bytes they have in all.
fn read_files(rt: &HostRuntime, folder: &str) -> anyhow::Result<(Vec<BlobFile>, usize)> {
    let mut files = Vec::new(rt.alloc());
    let mut total = 0usize;
    for entry in fs::read_dir(rt, folder)? {
        let entry = entry?;
        if let Ok(pointer) = entry.file_name().parse::<i64>() {
            let bytes = fs::read(rt, entry.path())?;
            total = total.saturating_add(bytes.len());
            let pointer = pointer.cast_unsigned();
            files.push(BlobFile { pointer, bytes })?;
        }
    }
    Ok((files, total))
}

// The blob's line; whether it is sound.
fn print_blob(rt: &HostRuntime, bank: &Bank<'_>, pointer: u64) -> anyhow::Result<bool> {
    let name = Word { bits: pointer };
    match bank.blob(pointer) {
        Some(note) if note.sound => {
            let kind = note.kind;
            println!(rt; "blob {name}: kind {kind}, sound")?;
            Ok(true)
        }
        _ => {
            println!(rt; "blob {name}: damaged")?;
            Ok(false)
        }
    }
}

fn print_bank<'a>(
    rt: &HostRuntime,
    bytes: &'a [u8],
    extents: &'a SortedTable<'a, Extent>,
) -> anyhow::Result<()> {
    let bank = Bank::new(bytes, extents);
    let count = extents.len();
    let mut sound = 0usize;
    for entry in extents.entries() {
        if print_blob(rt, &bank, entry.key)? {
            sound = sound.saturating_add(1);
        }
    }
    let rest = count.saturating_sub(sound);
    println!(rt; "{count} blobs: {sound} sound, {rest} damaged")?;
    Ok(())
}

pub(crate) fn list_blobs(rt: &HostRuntime, folder: &str) -> anyhow::Result<()> {
    let (files, total) = read_files(rt, folder)?;
    let blank = Extent { start: 0, len: 0 };
    let mut bytes = vec![in rt.alloc(); 0u8; total]?;
    let mut entries = vec![in rt.alloc(); Entry {
        key: 0,
        value: blank
    }; files.len()]?;
    let mut extents = SortedTable::new(entries.as_mut_slice(), blank);
    let mut shelf = BlobFiles::new(bytes.as_mut_slice());
    for file in &files {
        shelf
            .add(&mut extents, file.pointer, file.bytes.as_slice())
            .ok()
            .context("the blobs do not fit the bank")?;
    }
    print_bank(rt, shelf.bytes(), &extents)
}
