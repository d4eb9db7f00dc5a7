/// Why no spelling goes on with a byte: the element in which the byte stands.
#[derive(Clone, Copy, Debug, PartialEq, Eq)]
pub enum Reason {
    /// In a number: it is not in its shortest form, or not below 2^32.
    BadNumber = 1,
    /// In an identifier: it is none, or not in its shortest form.
    BadId = 2,
    /// In the length of a payload: it is not in its shortest form.
    BadLength = 3,
    /// In the length of a text: it is not in its shortest form.
    BadText = 4,
}

/// What stands at the front of a slice.
#[derive(Clone, Copy, Debug, PartialEq, Eq)]
pub enum Got<T> {
    /// A value, spelled by the first `used` bytes. Other bytes may follow them.
    Value { value: T, used: usize },
    /// The slice ends inside a spelling, or is empty: more bytes are wanted.
    Short,
    /// `place` is the offset of the first byte with which no spelling goes on.
    Bad { place: usize, reason: Reason },
}
