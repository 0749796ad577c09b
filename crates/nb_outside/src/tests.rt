use crate::{Drawn, Feed, Feeds, MemFeed, MemFeeds, NoFeed, RandomFeeds};
use std::test::Fail;

#[test]
fn gives_its_answers_and_then_fails(rt: HostRuntime) -> Result<(), Fail> {
    let answers = vec![in rt.alloc(); Drawn::Word(7), Drawn::Failed, Drawn::Word(9)]?;
    let mut feed = MemFeed::new(answers);
    assert_eq!(rt; feed.draw(), Drawn::Word(7));
    assert_eq!(rt; feed.draw(), Drawn::Failed);
    assert_eq!(rt; feed.draw(), Drawn::Word(9));
    assert_eq!(rt; feed.draw(), Drawn::Failed);
    Ok(())
}

#[test]
fn feeds_of_two_sessions_give_the_same(rt: HostRuntime) -> Result<(), Fail> {
    let alloc = rt.alloc();
    let mut feeds = MemFeeds::new(vec![in alloc; Drawn::Word(7)]?);
    let mut first = feeds.open(alloc, 1)?;
    let mut second = feeds.open(alloc, 2)?;
    assert_eq!(rt; first.draw(), Drawn::Word(7));
    assert_eq!(rt; second.draw(), Drawn::Word(7));
    Ok(())
}

#[test]
fn no_feed_gives_nothing(rt: HostRuntime) {
    assert_eq!(rt; NoFeed::new().draw(), Drawn::Failed);
}

#[test]
fn random_words_differ(rt: HostRuntime) -> Result<(), Fail> {
    let mut feeds = RandomFeeds::new(rt);
    let mut feed = feeds.open(rt.alloc(), 1)?;
    assert_ne!(rt; feed.draw(), Drawn::Failed);
    assert_ne!(rt; feed.draw(), feed.draw());
    Ok(())
}
