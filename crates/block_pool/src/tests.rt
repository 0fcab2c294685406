use super::*;
use sample_pool::block_length;
use std::test::Fail;

#[test]
fn blocks_that_were_given_back_are_home(rt: HostRuntime) -> Result<(), Fail> {
    let (mut giver, mut taker) = make_pool(rt.alloc(), 2, 16)?;
    let first = taker.take_block(&rt).expect(&rt, "two are home");
    let second = taker.take_block(&rt).expect(&rt, "one is home");
    assert!(rt; taker.take_block(&rt).is_none());
    assert_eq!(rt; [block_length(&first), block_length(&second)], [16, 16]);
    giver.give_block(&rt, first);
    giver.give_block(&rt, second);
    assert_eq!(rt; close_pool(&rt, giver, taker), 2);
    Ok(())
}
