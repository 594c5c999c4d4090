// Nodes, links and roots in words, as the lines write them.
use crate::strings::Escaped;
use fault::PageId;
use node::{Data, Held, Link, Meta, Node, NodeParts, Row, Value};
use std::fmt;

// A page, or none.
#[derive(Clone, Copy)]
pub struct PageShown(pub Option<PageId>);

#[derive(Clone, Copy)]
pub struct LinkShown<'a>(pub &'a Link);

#[derive(Clone, Copy)]
pub struct MetaShown<'a>(pub &'a Meta);

// What a node has besides its rows is told only where the empty leaf has something else.
#[derive(Clone, Copy)]
pub struct NodeShown<'a>(pub &'a Node);

impl fmt::Display for PageShown {
    fn fmt<W: fmt::Write>(&self, f: &mut fmt::Formatter<W>) -> fmt::Result {
        match self.0 {
            Some(page) => write!(f, "page {page}"),
            None => f.write_str("none"),
        }
    }
}

impl fmt::Display for LinkShown<'_> {
    fn fmt<W: fmt::Write>(&self, f: &mut fmt::Formatter<W>) -> fmt::Result {
        match *self.0 {
            Link::Set(key, value) => {
                let key = Escaped(key.as_slice());
                let value = Escaped(value.as_slice());
                write!(f, "set {key} {value}")
            }
            Link::Del(key) => {
                let key = Escaped(key.as_slice());
                write!(f, "del {key}")
            }
            Link::ParentMergeIntention(page) => write!(f, "intend {page}"),
            Link::ParentMergeConfirm => f.write_str("confirm"),
            Link::ChildMergeCap => f.write_str("cap"),
        }
    }
}

impl fmt::Display for MetaShown<'_> {
    fn fmt<W: fmt::Write>(&self, f: &mut fmt::Formatter<W>) -> fmt::Result {
        f.write_str("roots")?;
        show_rows(self.0.roots(), f)
    }
}

// What a key leads to, as it is written.
// Kept: `Display` is not ours to write for a value, which is another crate's.
trait Shown {
    fn show<W: fmt::Write>(&self, f: &mut fmt::Formatter<W>) -> fmt::Result;
}

impl Shown for Value {
    fn show<W: fmt::Write>(&self, f: &mut fmt::Formatter<W>) -> fmt::Result {
        let value = Escaped(self.as_slice());
        write!(f, "{value}")
    }
}

impl Shown for PageId {
    fn show<W: fmt::Write>(&self, f: &mut fmt::Formatter<W>) -> fmt::Result {
        write!(f, "{self}")
    }
}

fn show_rows<V: Held + Shown, W: fmt::Write>(
    rows: &[Row<V>],
    f: &mut fmt::Formatter<W>,
) -> fmt::Result {
    for row in rows {
        let key = Escaped(row.key.as_slice());
        write!(f, " {key}=")?;
        row.value.show(f)?;
    }
    Ok(())
}

fn show_neighbours<W: fmt::Write>(parts: &NodeParts, f: &mut fmt::Formatter<W>) -> fmt::Result {
    if let Some(next) = parts.next {
        let next = next.get();
        write!(f, " next {next}")?;
    }
    if let Some(child) = parts.merging_child {
        let child = child.get();
        write!(f, " child {child}")?;
    }
    if parts.merging {
        f.write_str(" merging")?;
    }
    Ok(())
}

fn show_bounds<W: fmt::Write>(parts: &NodeParts, f: &mut fmt::Formatter<W>) -> fmt::Result {
    if !parts.lo.is_empty() {
        let lo = Escaped(parts.lo.as_slice());
        write!(f, " lo {lo}")?;
    }
    if !parts.hi.is_empty() {
        let hi = Escaped(parts.hi.as_slice());
        write!(f, " hi {hi}")?;
    }
    Ok(())
}

fn show_head<W: fmt::Write>(parts: &NodeParts, f: &mut fmt::Formatter<W>) -> fmt::Result {
    f.write_str(match &parts.data {
        Data::Leaf(_) => "leaf",
        Data::Index(_) => "index",
    })?;
    let prefix_len = parts.prefix_len;
    if prefix_len > 0 {
        write!(f, " prefix {prefix_len}")?;
    }
    show_neighbours(parts, f)?;
    show_bounds(parts, f)
}

impl fmt::Display for NodeShown<'_> {
    fn fmt<W: fmt::Write>(&self, f: &mut fmt::Formatter<W>) -> fmt::Result {
        let parts = self.0.parts();
        show_head(parts, f)?;
        f.write_str(" rows")?;
        match &parts.data {
            Data::Leaf(rows) => show_rows(rows.as_slice(), f),
            Data::Index(rows) => show_rows(rows.as_slice(), f),
        }
    }
}
