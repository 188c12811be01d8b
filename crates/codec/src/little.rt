// Fields of a fixed number of bytes, the lowest byte first.
ghost use Rattle.std.specs.Prelude.{◌≡◌, ◌+◌, ◌*◌, ◌^◌, ◌<◌, ◌≤◌, length, IfOk, is_ok, if◌then◌else◌, Ok, Err, nat_le};
ghost use Rattle.std.proofs.lemmas.List.Edits.{sets};
ghost use Rattle.std.specs.Option.{option_map};
ghost use Rattle.std.specs.Result.{result_ok};
ghost use Rattle.codec.specs.Numbers.{little, field};
ghost use Rattle.codec.specs.Serial.{placed};
ghost use Rattle.codec.specs.declared.error.CodecError.TheVariants.{TooShort};

use crate::CodecError;

// The number that at most eight bytes write.
fn get_octets(bytes: &[u8]) -> u64
    requires { length bytes.now ≤ 8 }
    ensures value { result ≡ little bytes.now }
    ensures bound { result < 2 ^ (8 * length bytes.now) }
{
    let mut octets = [0u8; 8];
    octets[..bytes.len()].copy_from_slice(bytes);
    u64::from_le_bytes(octets)
}

// The field of `k` bytes at the front, and the bytes past it.
#[tactic(auto, unfolding(crate::specs::Numbers::field))]
pub(crate) fn get_field(buf: &[u8], k: usize) -> Result<(u64, &[u8]), CodecError>
    requires { k ≤ 8 }
    ensures value { option_map (λ p. (p.0, p.1.now)) (result_ok result) ≡ field k buf.now }
    ensures bound { IfOk result (λ p. p.0 < 2 ^ (8 * k)) }
{
    let (front, rest) = buf.split_at_checked(k).ok_or(CodecError::TooShort)?;
    Ok((get_octets(front), rest))
}

// Whether `n` bytes fit from `at` on in a buffer of `len`.
pub fn has_room(len: usize, at: usize, n: usize) -> bool
    ensures { result ≡ nat_le (at + n) len }
{
    at <= len && n <= len - at
}

// Refuses where `n` bytes do not fit from `at` on in a buffer of `len`.
pub(crate) fn check_room(len: usize, at: usize, n: usize) -> Result<(), CodecError>
    ensures { result ≡ (if nat_le (at + n) len then Ok tt else Err TooShort) }
{
    if has_room(len, at, n) {
        Ok(())
    } else {
        Err(CodecError::TooShort)
    }
}

// Writes `bytes` at `at`, and says where they end.
#[tactic(auto, using(crate::proofs::Writes::put_part))]
pub(crate) fn put_bytes(buf: &mut [u8], at: usize, bytes: &[u8]) -> usize
    requires { at + length bytes.now ≤ length buf.old }
    ensures after { buf.new ≡ sets buf.old at bytes.now }
    ensures end { result ≡ at + length bytes.now }
{
    let end = at + bytes.len();
    buf[at..end].copy_from_slice(bytes);
    end
}

// Writes `bytes` at `at` and says where they end; a buffer too short is left as it was.
pub(crate) fn write_bytes(buf: &mut [u8], at: usize, bytes: &[u8]) -> Result<usize, CodecError>
    ensures reply { result ≡ placed (length buf.old) at (length bytes.now) }
    ensures after { buf.new ≡ (if is_ok result then sets buf.old at bytes.now else buf.old) }
{
    check_room(buf.len(), at, bytes.len())?;
    Ok(put_bytes(buf, at, bytes))
}
