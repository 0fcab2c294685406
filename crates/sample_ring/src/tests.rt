ghost use Rattle.std.specs.Prelude.{◌≡◌, ◌≤◌, ◌<◌, ◌+◌, ◌*◌, ◌^◌};
ghost use Rattle.xdf_model.specs.Sample.{size_of};

use super::*;
use feed_model::Order;
use rec_base::Memory;
use sample_pool::{BlockRead, block_bytes, block_from_feed};
use std::alloc::Global;
use std::string::String;
use std::test::Fail;
use xdf_model::{Format, Shape};

// Puts a sample without a stamp whose one value is a byte.
fn push_byte(ring: &mut BlockRing, shape: Shape, byte: u8) -> u64
    requires lent { ring.old.lent ≡ 0 }
    requires shape { ring.old.shape ≡ shape }
    requires numeric { 1 ≤ size_of shape.format }
    requires count { shape.count < 2 ^ 16 }
    requires room { 9 + shape.count * size_of shape.format ≤ ring.old.size }
    requires few { ring.old.ring.pushes ≤ 2 }
    ensures lent { ring.new.lent ≡ 0 }
    ensures shape { ring.new.shape ≡ shape }
    ensures size { ring.new.size ≡ ring.old.size }
    ensures pushes { ring.new.ring.pushes ≤ ring.old.ring.pushes + 1 }
{
    let mut block = ring.lend();
    match block_from_feed(&shape, Order::Little, &[1, byte], &mut block) {
        BlockRead::Whole { .. } => ring.push(block),
        _ => {
            ring.give(block);
            0
        }
    }
}

// The position of the oldest sample and the last byte of its text. Its block goes home.
fn take_byte(ring: &mut BlockRing) -> Option<(u64, Option<u8>)>
    requires { ring.old.lent ≡ 0 }
    ensures { ring.new.lent ≡ 0 }
{
    match ring.take() {
        Some(entry) => {
            let byte = block_bytes(&entry.value).last().copied();
            ring.give(entry.value);
            Some((entry.position, byte))
        }
        None => None,
    }
}

#[test]
fn a_full_ring_drops_its_oldest_block(rt: HostRuntime) -> Result<(), Fail> {
    let shape = Shape {
        count: 1,
        format: Format::Int8,
    };
    let mut ring = BlockRing::new(rt.alloc(), shape, 2, 10)?;
    let first = push_byte(&mut ring, shape, 10);
    let second = push_byte(&mut ring, shape, 11);
    let third = push_byte(&mut ring, shape, 12);
    let taken = [
        take_byte(&mut ring),
        take_byte(&mut ring),
        take_byte(&mut ring),
    ];
    assert_eq!(rt; [first, second, third], [0, 0, 1]);
    assert_eq!(rt; taken, [Some((1, Some(11))), Some((2, Some(12))), None]);
    Ok(())
}

fn push_text(alloc: Global, ring: &mut TextRing, text: &str) -> Result<u64, Memory>
    requires { ring.old.pushes ≤ 2 }
    ensures { ring.new.pushes ≤ ring.old.pushes + 1 }
{
    let mut sample = ring.lend();
    sample.push_text(alloc, text.as_bytes())?;
    Ok(ring.push(sample))
}

fn take_text(alloc: Global, ring: &mut TextRing) -> Result<String, Fail> {
    match ring.take() {
        Some(entry) => { Ok(format!(in alloc; "{} {:?}", entry.position, entry.value.text_at(0))?) }
        None => Ok(format!(in alloc; "none")?),
    }
}

#[test]
fn a_full_ring_drops_its_oldest_text(rt: HostRuntime) -> Result<(), Fail> {
    let alloc = rt.alloc();
    let mut ring = TextRing::new(alloc, 2, 1)?;
    let first = push_text(alloc, &mut ring, "a")?;
    let second = push_text(alloc, &mut ring, "b")?;
    let third = push_text(alloc, &mut ring, "c")?;
    assert_eq!(rt; [first, second, third], [0, 0, 1]);
    // The one that was dropped is spare now, and then none is.
    let spare = ring.lend();
    assert_eq!(rt; [spare.len(), ring.lend().len()], [1, 0]);
    ring.give(spare);
    for expected in ["1 Some([98])", "2 Some([99])", "none"] {
        assert_eq!(rt; take_text(alloc, &mut ring)?.as_str(), expected);
    }
    Ok(())
}
