// What reading a locator answers.
use crate::DvbBinaryLocator;

// The locator, and how many bytes it took.
#[derive(Drop)]
pub struct LocatorRead {
    pub locator: DvbBinaryLocator,
    pub used: usize,
}
