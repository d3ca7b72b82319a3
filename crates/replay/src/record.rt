// What differs between the programs: how a record is read, and what it asks.
use crate::digest::Digest;

/// A record of a list, whose header has `N` bytes. The last eight are the digest of the wanted answers.
pub trait Record<const N: usize> {
    /// What the questions are asked with, beside the record's body.
    type Stores;

    /// The record that a header begins. None if it exceeds the limits: our lists keep within them, so the list is
    /// damaged.
    fn parse(header: &[u8; N]) -> Option<Self>;

    /// How many bytes follow the header.
    fn length(&self) -> usize;

    /// Asks the library about the bytes that follow. None if they are none that our lists have.
    fn ask(&self, body: &mut [u8], stores: &mut Self::Stores) -> Option<Answers>;
}

/// What a record came to.
#[derive(Clone, Copy)]
pub enum Answers {
    /// So many questions, and the digest of their answers.
    Asked(u64, Digest),
    /// The record asks nothing: its bytes are for the records after it.
    Kept,
}
