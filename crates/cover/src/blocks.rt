// Parts of a cover and of its medium, which may end early.
ghost use Rattle.std.specs.Prelude.{◌≡◌, ℕ, ◌+◌, ◌-◌, ◌<◌, min, length, take, drop, slice_index};

// The `n` bytes from `from` on, or those of them that there are.
pub(crate) fn span(bytes: &[u8], from: usize, n: usize) -> &[u8]
    ensures value { result.now ≡ take n (drop from bytes.now) }
    ensures len { length result.now ≡ min n (length bytes.now - from) }
{
    let rest = bytes.get(from..).unwrap_or(&[]);
    &rest[..n.min(rest.len())]
}

// Fills `dst` from the place `from` of `src`, with zeros past its end.
pub(crate) fn copy_padded(dst: &mut [u8], src: &[u8], from: usize)
    ensures { (k : ℕ) → k < length dst.old → slice_index dst.new k ≡ slice_index src.now (from + k) }
{
    let part = span(src, from, dst.len());
    let (front, rest) = dst.split_at_mut(part.len());
    front.copy_from_slice(part);
    rest.fill(0);
}
