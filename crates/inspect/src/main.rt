// Lists the segments of a log file, and the blobs of a folder: inspect SIZE FILE [BLOBS].
#![tactic(auto)]

mod folder;
mod verdict;

use anyhow::{Context, anyhow, bail};
use device::{Device, Image, ReadAt};
use folder::list_blobs;
use layout::{SEG_HEADER_LEN, is_segment_size};
use std::process::ExitCode;
use std::{env, fs};
use verdict::{Verdict, judge};

const USAGE: &str = "usage: inspect SIZE FILE [BLOBS]

Lists each segment of a log file, with its LSN and stable mark where its header
checks, and then each blob file in the folder BLOBS, with its kind where it is
sound. SIZE is the segment size in bytes, a power of two from 256 to 1048576.
Blob files are named by their pointer, in decimal; others are passed over.";

fn list_segments(rt: &HostRuntime, log: &Image) -> anyhow::Result<()> {
    let size = log.block_size();
    let count = size.count_in(log.len());
    let mut used = 0u64;
    for index in 0..count {
        let offset = index.saturating_mul(size.bytes());
        let mut header = [0u8; SEG_HEADER_LEN];
        let _ = log.pread_exact(&mut header, offset);
        let verdict = judge(&header);
        println!(rt; "segment {index} at {offset}: {verdict}")?;
        if matches!(verdict, Verdict::Used(_)) {
            used = used.saturating_add(1);
        }
    }
    let rest = count.saturating_sub(used);
    println!(rt; "{count} counted: {used} used, {rest} not used")?;
    Ok(())
}

fn inspect(rt: &HostRuntime, size: &str, file: &str) -> anyhow::Result<()> {
    let size = size.parse::<u64>().unwrap_or(0);
    if !is_segment_size(size) {
        bail!("SIZE is no power of two from 256 to 1048576");
    }
    let bytes = fs::read(rt, file).map_err(|e| anyhow!("cannot read {file}: {e}"))?;
    let log = Image::from_bytes(rt.alloc(), size, bytes.len() as u64, &bytes)
        .ok()
        .context("there is no memory for the log")?;
    list_segments(rt, &log)
}

fn run(rt: &HostRuntime) -> anyhow::Result<()> {
    let args: Vec<String> = env::args(rt)?.skip(1).collect(rt.alloc())?;
    match args.as_slice() {
        [word] if word.as_str() == "--help" => {
            println!(rt; "{USAGE}")?;
            Ok(())
        }
        [size, file] => inspect(rt, size.as_str(), file.as_str()),
        [size, file, blobs] => {
            inspect(rt, size.as_str(), file.as_str())?;
            list_blobs(rt, blobs.as_str())
        }
        _ => bail!("it takes SIZE, FILE and perhaps BLOBS; --help says more"),
    }
}

fn main(rt: HostRuntime) -> ExitCode {
    match run(&rt) {
        Ok(()) => ExitCode::SUCCESS,
        Err(e) => {
            let _ = eprintln!(rt; "inspect: {e}");
            ExitCode::FAILURE
        }
    }
}
