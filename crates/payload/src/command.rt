// What a line asks for. Its strings may still be too long, and its node may still break the rules.
use fault::PageId;
use std::num::NonZeroU64;

// A change of the held node, as a link.
#[derive(Drop)]
pub enum Change {
    Set(Vec<u8>, Vec<u8>),
    Del(Vec<u8>),
    Intend(PageId),
    Confirm,
    Cap,
}

// A row of a node: its key, and the value or the page that it has.
#[derive(Drop)]
pub struct Row<V> {
    pub key: Vec<u8>,
    pub value: V,
}

// The rows of a node, of its kind.
#[derive(Drop)]
pub enum Rows {
    Leaf(Vec<Row<Vec<u8>>>),
    Index(Vec<Row<PageId>>),
}

// A node in full.
#[derive(Drop)]
pub struct Shape {
    pub prefix_len: u8,
    pub next: Option<NonZeroU64>,
    pub child: Option<NonZeroU64>,
    pub merging: bool,
    pub lo: Vec<u8>,
    pub hi: Vec<u8>,
    pub rows: Rows,
}

// What bytes are to be read as.
// Kept: a log's messages are of the same five kinds, but this program has no log, and reads the words of its own.
#[derive(Clone, Copy)]
pub enum Kind {
    Counter,
    Free,
    Meta,
    Link,
    Node,
}

#[derive(Drop)]
pub enum Command {
    Link(Change),
    Node(Shape),
    Split(Vec<u8>, PageId),
    Counter(u64),
    Root(Vec<u8>),
    SetRoot(Vec<u8>, PageId),
    DelRoot(Vec<u8>),
    Read(Kind, Vec<u8>),
}

#[derive(Drop)]
pub enum Line {
    // A line of no words, which does nothing.
    Blank,
    // A line that is printed as it stands.
    Comment,
    Command(Command),
}
