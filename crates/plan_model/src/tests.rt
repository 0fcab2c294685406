use crate::*;
use rec_base::Word;
use std::alloc::Global;
use std::test::Fail;

fn feed(alloc: Global, id: u32) -> Result<FeedLine, Fail> {
    Ok(FeedLine {
        id,
        doc: Word::from_bytes(alloc, b"h")?,
        from: FeedFrom::File(Word::from_bytes(alloc, b"a")?),
        limit: None,
    })
}

#[test]
fn feeds_stay_in_their_order(rt: HostRuntime) -> Result<(), Fail> {
    let mut feeds = FeedLines::new(rt.alloc());
    assert_eq!(rt; feeds.len(), 0);
    feeds.push(feed(rt.alloc(), 7)?)?;
    feeds.push(feed(rt.alloc(), 3)?)?;
    assert_eq!(rt; feeds.len(), 2);
    assert_eq!(rt; feeds.get(0).map(|feed| feed.id), Some(7));
    assert_eq!(rt; feeds.get(1).map(|feed| feed.id), Some(3));
    assert_eq!(rt; feeds.get(2).map(|feed| feed.id), None);
    Ok(())
}
