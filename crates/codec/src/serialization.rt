// What can be written as bytes and read back.
ghost use Rattle.std.specs.Prelude.{◌≡◌, ℕ, ◌^◌, ◌<◌, List, [], ◌∷◌, ◌++◌, length, is_ok, if◌then◌else◌, Some, Ok, Err, Option, nat_le};
ghost use Rattle.std.proofs.lemmas.List.Edits.{sets};
ghost use Rattle.std.specs.Option.{option_map};
ghost use Rattle.std.specs.Result.{result_ok};
ghost use Rattle.codec.specs.Numbers.{octets, field, second, number, shortest};
ghost use Rattle.codec.specs.Serial.{placed};
ghost use Rattle.codec.specs.declared.error.CodecError.TheVariants.{TooShort};
ghost use Rattle.codec.specs.Laws.{second_back, field_back, number_back};

use crate::CodecError;
use crate::little::{check_room, get_field, write_bytes};
use crate::number::{form_len, get_byte, get_number, put_number};

pub trait Serialize: Sized {
    // The bytes that a value is written as.
    ghost bytes: { Self → List ℕ };

    // The values that the type has.
    ghost valid: { Self → Type 0 };

    // The value at the front of some bytes, and the bytes past it.
    ghost reads: { List ℕ → Option (Self × List ℕ) };

    fn serialized_size(&self) -> usize
        ensures { result ≡ length (bytes self.now) };

    // Writes the value at `at` and says where it ends; a buffer too short is left as it was.
    fn serialize_into(&self, buf: &mut [u8], at: usize) -> Result<usize, CodecError>
        ensures reply { result ≡ placed (length buf.old) at (length (bytes self.now)) }
        ensures after { buf.new ≡ (if is_ok result then sets buf.old at (bytes self.now) else buf.old) }
        ensures valid { valid self.now };

    // The value at the front, and the bytes past it.
    fn deserialize(buf: &[u8]) -> Result<(Self, &[u8]), CodecError>
        ensures { option_map (λ p. (p.0, p.1.now)) (result_ok result) ≡ reads buf.now };

    // A written value, followed by any bytes, is read as that value and those bytes.
    ghost back: { (x : Self) (rest : List ℕ) → valid x → reads (bytes x ++ rest) ≡ Some (x, rest) };
}

impl Serialize for u8 {
    ghost bytes = { λ x. x ∷ [] };

    ghost valid = { λ x. x < 256 };

    ghost reads = { second 0 };

    ghost back = { λ x rest v. second_back x rest };

    fn serialized_size(&self) -> usize {
        1
    }

    fn serialize_into(&self, buf: &mut [u8], at: usize) -> Result<usize, CodecError> {
        write_bytes(buf, at, &[*self])
    }

    fn deserialize(buf: &[u8]) -> Result<(u8, &[u8]), CodecError> {
        get_byte(buf)
    }
}

// Four bytes, the lowest first. One line a method, as for `u8` and `Word`: a width as const parameter would need a type besides.
impl Serialize for u32 {
    ghost bytes = { octets 4 };

    ghost valid = { λ x. x < 2 ^ 32 };

    ghost reads = { field 4 };

    ghost back = { field_back 4 };

    #[tactic(auto, unfolding(crate::specs::Numbers::octets))]
    fn serialized_size(&self) -> usize {
        4
    }

    #[tactic(auto, using(crate::proofs::Octets::le_octets_4))]
    fn serialize_into(&self, buf: &mut [u8], at: usize) -> Result<usize, CodecError> {
        write_bytes(buf, at, &self.to_le_bytes())
    }

    fn deserialize(buf: &[u8]) -> Result<(u32, &[u8]), CodecError> {
        let (n, rest) = get_field(buf, 4)?;
        Ok((n as u32, rest))
    }
}

// A number of variable length.
impl Serialize for u64 {
    ghost bytes = { shortest };

    ghost valid = { λ x. x < 2 ^ 64 };

    ghost reads = { number };

    ghost back = { number_back };

    fn serialized_size(&self) -> usize {
        form_len(*self)
    }

    fn serialize_into(&self, buf: &mut [u8], at: usize) -> Result<usize, CodecError> {
        check_room(buf.len(), at, form_len(*self))?;
        Ok(put_number(buf, at, *self))
    }

    fn deserialize(buf: &[u8]) -> Result<(u64, &[u8]), CodecError> {
        get_number(buf)
    }
}

// Writes a value at the front of a buffer and reads it from there: it is the same, whatever the type.
pub fn round_trip<T: Serialize + Drop>(x: T, buf: &mut [u8]) -> Result<T, CodecError>
    ensures reply { result ≡ (if nat_le (length (T.Serialize.bytes x)) (length buf.old) then Ok x else Err TooShort) }
    ensures after { buf.new ≡ (if is_ok result then sets buf.old 0 (T.Serialize.bytes x) else buf.old) }
{
    x.serialize_into(buf, 0)?;
    let (y, _) = T::deserialize(buf)?;
    Ok(y)
}
