//! Where an element is in a buffer.

/// Where an element is in a buffer, by offsets.
#[derive(Clone, Copy, Debug)]
pub struct Place {
    /// The identifier octet.
    pub tag: u8,
    /// Where the element begins.
    pub start: usize,
    /// Where its contents octets begin.
    pub content: usize,
    /// Where it ends, and what follows it begins.
    pub end: usize,
}
