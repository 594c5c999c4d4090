// Loops over the values for a stopwatch outside: each does one thing many times and answers a sum, so that nothing is left
// out by the compiler. They are called from perf/, through the static library.
#![tactic(auto)]

use bounded::Table;
use fault::{BytesFault, NodeFault, Refusal, ValueFault};
use node::{Data, Key, LeafRow, Link, Node, NodeParts, Value};
use serialization::serialize::decode;
use serialization::{PAYLOAD, Serialize};

fn key_of(row: u8) -> Result<Key, BytesFault> {
    Key::from_slice(&[b'k', b'e', b'y', 0, 0, 0, 0, row])
}

// A leaf of sixteen rows with keys of eight bytes and values of twenty.
fn full_leaf() -> Result<Node, ValueFault> {
    let mut rows = Table::new(LeafRow::default());
    for i in 0..16u8 {
        let key = key_of(i)?;
        let value = Value::from_slice(&[i; 20])?;
        rows.push(LeafRow { key, value })
            .map_err(|_| NodeFault::Full)?;
    }
    let parts = NodeParts {
        data: Data::Leaf(rows),
        ..NodeParts::empty_leaf()
    };
    Ok(Node::new(parts)?)
}

// What so many runs answer together.
fn sum_of<F: FnMut(u64) -> Result<usize, ValueFault>>(
    times: u64,
    mut run: F,
) -> Result<u64, ValueFault>
    requires { F.IsAlwaysCallable run }
{
    let mut sum = 0u64;
    for i in 0..times {
        sum = sum.wrapping_add(run(i)? as u64);
    }
    Ok(sum)
}

fn encoded(times: u64) -> Result<u64, ValueFault> {
    let node = full_leaf()?;
    let mut buf = [0u8; PAYLOAD];
    sum_of(times, |_| Ok(node.serialize_into(&mut buf)?))
}

fn decoded(times: u64) -> Result<u64, ValueFault> {
    let mut buf = [0u8; PAYLOAD];
    let n = full_leaf()?.serialize_into(&mut buf)?;
    let bytes = &buf[..n];
    sum_of(times, |_| { Ok(decode::<Node>(bytes)?.parts().data.len()) })
}

fn applied(times: u64) -> Result<u64, ValueFault> {
    let mut node = full_leaf()?;
    sum_of(times, |i| {
        let row = (i % 16) as u8;
        let link = Link::Set(key_of(row)?, Value::from_slice(&[row; 30])?);
        node.apply(&link)?;
        Ok(node.parts().data.len())
    })
}

// The sum, or the refusal's number.
// Kept: a number for either is all that C is answered.
fn told(sum: Result<u64, ValueFault>) -> u64 {
    sum.unwrap_or_else(|fault| u64::from(fault.number()))
}

#[unsafe(no_mangle)]
pub extern "C" fn pace_encode(times: u64) -> u64 {
    told(encoded(times))
}

#[unsafe(no_mangle)]
pub extern "C" fn pace_decode(times: u64) -> u64 {
    told(decoded(times))
}

#[unsafe(no_mangle)]
pub extern "C" fn pace_apply(times: u64) -> u64 {
    told(applied(times))
}

#[unsafe(no_mangle)]
pub extern "C" fn pace_node_bytes() -> u64 {
    std::mem::size_of::<Node>() as u64
}
