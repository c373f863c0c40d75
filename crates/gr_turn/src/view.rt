use std::collections::LinkedList;

/// What a seat knows, which contracts speak of. No running code makes one.
pub struct View<E, B> {
    /// Whether the lock had its value when the seat was made.
    pub opened: bool,
    pub base: Option<B>,
    /// How many seats the lock was made with.
    pub seats: u64,
    /// The length of the list that the lock began with.
    pub opening: u64,
    /// The longest list that the seat has seen.
    pub seen: LinkedList<E>,
    /// The shorter of the two lists at its last join.
    pub met: LinkedList<E>,
    /// The places that were added under its turns.
    pub made: LinkedList<u64>,
    /// Its numbers.
    pub parts: LinkedList<u64>,
    /// How many of its grabs found the word even.
    pub won: u64,
    /// How many of its grabs found the word odd.
    pub lost: u64,
    /// The odd word that the last of these found, and 0 before the first.
    pub word: u64,
    /// The list found, while its turn is out.
    pub turn: Option<LinkedList<E>>,
    /// The next number to give, in the first seat alone.
    pub next: Option<u64>,
}
