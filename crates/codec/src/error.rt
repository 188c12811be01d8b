// Why bytes could not be read or written.

// Only want of room refuses here: what the bytes mean is judged by the layers above.
#[derive(Clone, Copy, PartialEq, Eq, Debug, Drop)]
pub enum CodecError {
    // Fewer bytes than the value takes.
    TooShort,
}
