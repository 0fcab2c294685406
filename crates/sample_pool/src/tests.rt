use super::*;
use feed_model::Order;
use std::alloc::Global;
use std::string::String;
use std::test::Fail;
use xdf_model::{Format, Shape};

// What stands at the front of some bytes, and what an empty block holds then.
fn read(
    alloc: Global,
    count: u16,
    format: Format,
    order: Order,
    bytes: &[u8],
) -> Result<String, Fail> {
    let shape = Shape { count, format };
    let Some(room) = text_room(&shape) else {
        return Ok(String::new(alloc));
    };
    let mut block = new_block(alloc, room)?;
    let read = block_from_feed(&shape, order, bytes, &mut block);
    Ok(format!(in alloc; "{read:?} {:?}", block_bytes(&block))?)
}

#[test]
fn a_sample_becomes_its_text(rt: HostRuntime) -> Result<(), Fail> {
    let alloc = rt.alloc();
    let plain = [1, 0x34, 0x12, 0xFE, 0xFF, 7];
    let stamped = [2, 0x3F, 0xF8, 0, 0, 0, 0, 0, 1, 0xC0, 0, 0, 0, 0, 0, 0, 3];
    let told = [
        read(alloc, 2, Format::Int16, Order::Little, &plain)?,
        read(alloc, 1, Format::Double64, Order::Big, &stamped)?,
        read(alloc, 1, Format::Double64, Order::Big, &stamped[..16])?,
        read(alloc, 1, Format::Double64, Order::Big, &[3])?,
    ];
    let expected = [
        "Whole { used: 5 } [0, 52, 18, 254, 255]",
        "Whole { used: 17 } [8, 1, 0, 0, 0, 0, 0, 248, 63, 3, 0, 0, 0, 0, 0, 0, 192]",
        "Short []",
        "BadTag { at: 0, byte: 3 } []",
    ];
    for (told, expected) in told.iter().zip(expected.iter()) {
        assert_eq!(rt; told.as_str(), *expected);
    }
    Ok(())
}

#[test]
fn a_block_that_came_back_is_taken_again(rt: HostRuntime) -> Result<(), Fail> {
    let mut stock = BlockStock::new(rt.alloc(), 1, 16)?;
    let Some(mut block) = stock.take() else {
        unreachable!()
    };
    assert_eq!(rt; block_length(&block), 16);
    assert!(rt; stock.take().is_none());
    clear_block(&mut block);
    stock.give(block);
    assert!(rt; stock.take().is_some());
    Ok(())
}
