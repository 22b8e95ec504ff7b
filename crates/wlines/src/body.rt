//! Bodies of commands.

/// What reading a body gave.
#[derive(Drop)]
pub enum Body {
    /// The body's bytes, without the line feed behind them.
    Whole(Vec<u8>),
    /// The body was there, and found no memory. It was read to its end and dropped.
    NoMemory,
    /// The input ended inside the body, or another byte than a line feed stood behind it.
    Malformed,
}
