// What a command did, as it is printed.
use crate::payload::Payload;
use crate::shown::{LinkShown, MetaShown, NodeShown, PageShown};
use fault::{NodeFault, PageId};
use node::{Link, Meta, Node};
use std::fmt;
use std::fmt::Display;

// A value that was read.
#[derive(Clone, Copy)]
pub enum Read {
    Counter(u64),
    Free,
    Meta(Meta),
    Link(Link),
    Node(Node),
}

#[derive(Drop)]
pub enum Answer {
    // The link's bytes, and the node that it left.
    Linked(Payload, Node),
    // The link's bytes, and why the node did not take it.
    NotLinked(Payload, NodeFault),
    Node(Payload),
    // Whether the separator was new, and the node.
    Split(bool, Node),
    Counter(Payload),
    Root(Option<PageId>),
    // The page that the name had, and the bytes of the roots.
    Roots(Option<PageId>, Payload),
    Read(Read),
}

impl fmt::Display for Read {
    fn fmt<W: fmt::Write>(&self, f: &mut fmt::Formatter<W>) -> fmt::Result {
        match self {
            Read::Counter(value) => write!(f, "{value}"),
            Read::Free => f.write_str("free"),
            Read::Meta(meta) => fmt::Display::fmt(&MetaShown(meta), f),
            Read::Link(link) => fmt::Display::fmt(&LinkShown(link), f),
            Read::Node(node) => fmt::Display::fmt(&NodeShown(node), f),
        }
    }
}

impl fmt::Display for Answer {
    fn fmt<W: fmt::Write>(&self, f: &mut fmt::Formatter<W>) -> fmt::Result {
        match self {
            Answer::Linked(payload, node) => {
                write!(f, "link {payload} gives {}", NodeShown(node))
            }
            Answer::NotLinked(payload, fault) => write!(f, "link {payload} {fault}"),
            Answer::Node(payload) => write!(f, "node {payload}"),
            Answer::Split(new, node) => write!(f, "split {new} gives {}", NodeShown(node)),
            Answer::Counter(payload) => write!(f, "counter {payload}"),
            Answer::Root(page) => fmt::Display::fmt(&PageShown(*page), f),
            Answer::Roots(former, payload) => { write!(f, "{} meta {payload}", PageShown(*former)) }
            Answer::Read(value) => write!(f, "value {value}"),
        }
    }
}
