/// What the head of a record says, its fraction in nanoseconds.
#[derive(Clone, Copy, Debug, PartialEq, Eq)]
pub struct HeadFields {
    pub sec: u32,
    pub nsec: u32,
    pub captured: u32,
    pub orig: u32,
}
