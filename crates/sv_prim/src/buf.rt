use arrayvec::ArrayVec;

/// A packet while it is formed: at most 256 bytes, in place, so that it takes no memory.
pub type Buf = ArrayVec<u8, 256>;
