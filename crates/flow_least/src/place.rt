/// A process of a design and one of its variables, for which a condition fails.
#[derive(Clone, Copy, Debug, PartialEq, Eq)]
pub struct Place {
    pub process: u32,
    pub var: u32,
}
