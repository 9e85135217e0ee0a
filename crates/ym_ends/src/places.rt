//! Where what is asked for is done.

/// What is asked for, over connections at a port of 127.0.0.1.
#[derive(Clone, Copy)]
pub struct AtPort<T> {
    /// The port.
    pub port: u16,
    /// What is asked for.
    pub order: T,
}

/// What is asked for, over a serial line.
#[derive(Clone, Copy)]
pub struct OnLine<'a, T> {
    /// The path of its terminal. Without one the line is standard input and output.
    pub line: Option<&'a str>,
    /// What is asked for.
    pub order: T,
}
