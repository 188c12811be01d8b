// Numbers of variable length: the first byte says the form.
ghost use Rattle.std.specs.Prelude.{◌≡◌, ℕ, ◌+◌, ◌≤◌, List, length, Some};
ghost use Rattle.std.proofs.lemmas.List.Edits.{sets};
ghost use Rattle.std.specs.Option.{option_map};
ghost use Rattle.std.specs.Result.{result_ok};
ghost use Rattle.codec.specs.Numbers.{Bytes, number, second, shortest, width, Examples};

use crate::CodecError;
use crate::little::{get_field, put_bytes};

// The largest numbers in one, two and three bytes.
const ONE_BYTE_MAX: u64 = 240;

const TWO_BYTES_MAX: u64 = 2_287;

const THREE_BYTES_MAX: u64 = 67_823;

// What the first byte says: up to 240 the number itself, 241 to 248 and 249 that one or two bytes follow, and above
// that as many as it exceeds 247 by.
const ONE_BYTE_LAST: u8 = 240;

const TWO_BYTES_FIRST: u8 = 241;

const TWO_BYTES_LAST: u8 = 248;

const THREE_BYTES: u8 = 249;

const LONG_BASE: u8 = 247;

// The first byte, and the bytes past it.
#[tactic(auto, unfolding(crate::specs::Numbers::second))]
pub(crate) fn get_byte(buf: &[u8]) -> Result<(u8, &[u8]), CodecError>
    ensures { option_map (λ p. (p.0, p.1.now)) (result_ok result) ≡ second 0 buf.now }
{
    let (first, rest) = buf.split_first().ok_or(CodecError::TooShort)?;
    Ok((*first, rest))
}

// The number at the front, and the bytes past it.
#[tactic(auto, unfolding(crate::specs::Numbers::number, crate::specs::Numbers::second))]
pub(crate) fn get_number(buf: &[u8]) -> Result<(u64, &[u8]), CodecError>
    ensures { option_map (λ p. (p.0, p.1.now)) (result_ok result) ≡ number buf.now }
{
    let (first, rest) = get_byte(buf)?;
    match first {
        0..=ONE_BYTE_LAST => Ok((u64::from(first), rest)),
        TWO_BYTES_FIRST..=TWO_BYTES_LAST => {
            let (b, rest) = get_byte(rest)?;
            Ok((
                ONE_BYTE_MAX + 256 * u64::from(first - TWO_BYTES_FIRST) + u64::from(b),
                rest,
            ))
        }
        THREE_BYTES => {
            let (a, rest) = get_byte(rest)?;
            let (b, rest) = get_byte(rest)?;
            Ok((TWO_BYTES_MAX + 1 + 256 * u64::from(a) + u64::from(b), rest))
        }
        _ => get_field(rest, usize::from(first - LONG_BASE)),
    }
}

// How many bytes follow the first one where a number is above 67,823.
fn long_len(n: u64) -> usize
    ensures value { result ≡ width n }
    ensures bound { result ≤ 8 }
{
    match n {
        0..=0xff_ffff => 3,
        0x100_0000..=0xffff_ffff => 4,
        0x1_0000_0000..=0xff_ffff_ffff => 5,
        0x100_0000_0000..=0xffff_ffff_ffff => 6,
        0x1_0000_0000_0000..=0xff_ffff_ffff_ffff => 7,
        _ => 8,
    }
}

// How many bytes the form takes that is written.
#[tactic(auto, using(crate::proofs::Forms::length_long), unfolding(crate::specs::Numbers::shortest))]
pub(crate) fn form_len(n: u64) -> usize
    ensures value { result ≡ length (shortest n) }
    ensures bounds { (1 ≤ result) × (result ≤ 9) }
{
    match n {
        0..=ONE_BYTE_MAX => 1,
        ..=TWO_BYTES_MAX => 2,
        ..=THREE_BYTES_MAX => 3,
        _ => 1 + long_len(n),
    }
}

// How many bytes `n` takes: no form that reads as `n` takes fewer.
pub fn number_len(n: u64) -> usize
    ensures value { result ≡ length (shortest n) }
    ensures least { (bs rest : List ℕ) → Bytes bs → number bs ≡ Some (n, rest) → result + length rest ≤ length bs }
    ensures examples { Examples }
{
    form_len(n)
}

// Writes `n` at `at` in its shortest form, and says where it ends.
#[tactic(auto, unfolding(crate::specs::Numbers::shortest))]
pub(crate) fn put_number(buf: &mut [u8], at: usize, n: u64) -> usize
    requires { at + length (shortest n) ≤ length buf.old }
    ensures after { buf.new ≡ sets buf.old at (shortest n) }
    ensures end { result ≡ at + length (shortest n) }
{
    match n {
        0..=ONE_BYTE_MAX => put_bytes(buf, at, &[n as u8]),
        ..=TWO_BYTES_MAX => {
            let over = n - ONE_BYTE_MAX;
            let (high, low) = (over / 256, over % 256);
            put_bytes(buf, at, &[TWO_BYTES_FIRST + high as u8, low as u8])
        }
        ..=THREE_BYTES_MAX => {
            let over = n - TWO_BYTES_MAX - 1;
            let (high, low) = (over / 256, over % 256);
            put_bytes(buf, at, &[THREE_BYTES, high as u8, low as u8])
        }
        _ => {
            let k = long_len(n);
            let at = put_bytes(buf, at, &[LONG_BASE + k as u8]);
            put_bytes(buf, at, &n.to_le_bytes()[..k])
        }
    }
}
