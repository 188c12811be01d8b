// Measures the speed of the checksum over a file: crc_bench FILE ROUNDS.
#![tactic(auto)]

use std::time::Instant;
use std::{env, fs};

const CHECK: &[u8] = b"123456789";

fn repeated(bytes: &[u8], rounds: u32) -> u32 {
    let mut crc = 0;
    for _ in 0..rounds {
        crc = checksum::update(crc, bytes);
    }
    crc
}

// The checksum of the file written ROUNDS times over, and the rate in millions of bytes to a second.
fn measure(rt: &HostRuntime, path: &str, rounds: u32) -> anyhow::Result<()> {
    let bytes = fs::read(rt, path)?;
    let start = Instant::now(rt)?;
    let crc = repeated(&bytes, rounds);
    let nanos = start.elapsed(rt)?.as_nanos().max(1);
    let done = (bytes.len() as u128).saturating_mul(u128::from(rounds));
    let rate = done.saturating_mul(1000) / nanos;
    println!(rt; "{crc:08x} {rate} MB/s")?;
    Ok(())
}

fn run(rt: &HostRuntime) -> anyhow::Result<()> {
    let mut args = env::args(rt)?.skip(1);
    match (args.next(), args.next()) {
        (Some(path), Some(rounds)) => measure(rt, path.as_str(), rounds.parse::<u32>()?),
        _ => {
            let crc = checksum::checksum(CHECK);
            println!(rt; "{crc:08x}")?;
            println!(rt; "usage: crc_bench FILE ROUNDS")?;
            Ok(())
        }
    }
}

fn main(rt: HostRuntime) -> anyhow::Result<()> {
    run(&rt)
}
