// What writing a locator answers.
use crate::DvbBinaryLocator;

// The locator's bytes, zeros behind them, and how many they are.
#[derive(Drop)]
pub struct LocatorBytes {
    pub bytes: [u8; DvbBinaryLocator::LONGEST_WRITTEN],
    pub length: usize,
}
