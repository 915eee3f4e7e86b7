//! The queue of a loop: what its posts post, in each post's order.

use crate::tests::name;
use life_rules::Name;
use loop_queue::{Drained, LoopPost, LoopQueue, MOST_POSTS, ROOM};
use std::sync::Wait;
use std::test::Fail;
use std::thread;

// Whether the queue takes the name of this node through the post.
fn accepts<R: Wait>(rt: &R, post: &mut LoopPost, node: u32) -> bool {
    post.post(rt, name(node)).is_ok()
}

// Whether it takes the names of the nodes below this number, and hands back one more.
fn is_full_after<R: Wait>(rt: &R, post: &mut LoopPost, nodes: u32) -> bool {
    for node in 0..nodes {
        if !accepts(rt, post, node) {
            return false;
        }
    }
    post.post(rt, name(0)).err() == Some(name(0))
}

// Whether these are so many names of nodes, in the order of their numbers.
fn are_in_order(names: &[Name], count: usize) -> bool {
    for (node, name) in names.iter().enumerate() {
        if name.node as usize != node {
            return false;
        }
    }
    names.len() == count
}

// What the post takes.
fn next<R: Wait>(rt: &R, post: &mut LoopPost) -> Option<Name> {
    post.take(rt)
}

// What the post drains of the queue.
fn drains<R: Wait>(rt: &R, post: &mut LoopPost, names: &mut Vec<Name>) -> Drained {
    post.drain(rt, names)
}

#[test]
fn the_limits_of_a_queue_are_these_numbers(rt: HostRuntime) {
    assert_eq!(rt; (ROOM, MOST_POSTS), (4_096, 32));
}

#[test]
fn a_drain_gives_the_names_of_each_post_in_order(rt: HostRuntime) -> Result<(), Fail> {
    let (queue, mut posts) = LoopQueue::open(rt.alloc(), 2)?;
    let mut second = posts.pop().expect(&rt, "two posts");
    let mut first = posts.pop().expect(&rt, "two posts");
    assert!(rt; accepts(&rt, &mut first, 1));
    assert!(rt; accepts(&rt, &mut second, 3));
    assert!(rt; accepts(&rt, &mut first, 2));
    let mut names = Vec::new(rt.alloc());
    assert!(rt; drains(&rt, &mut second, &mut names) == Drained::Emptied(3));
    assert!(rt; names.as_slice() == [name(1), name(3), name(2)].as_slice());
    drop(queue);
    Ok(())
}

#[test]
fn a_full_queue_hands_the_next_name_back(rt: HostRuntime) -> Result<(), Fail> {
    let (queue, mut posts) = LoopQueue::open(rt.alloc(), 1)?;
    let mut post = posts.pop().expect(&rt, "a post");
    assert!(rt; is_full_after(&rt, &mut post, ROOM as u32));
    let mut names = Vec::new(rt.alloc());
    assert!(rt; drains(&rt, &mut post, &mut names) == Drained::Most);
    assert!(rt; are_in_order(names.as_slice(), ROOM));
    assert!(rt; next(&rt, &mut post) == None);
    drop(queue);
    Ok(())
}

#[test]
fn a_post_moves_to_a_thread(rt: HostRuntime) -> Result<(), Fail> {
    let (queue, mut posts) = LoopQueue::open(rt.alloc(), 2)?;
    let mut last = posts.pop().expect(&rt, "two posts");
    let mut first = posts.pop().expect(&rt, "two posts");
    let worker = thread::spawn(&rt, move || accepts(&rt, &mut first, 1))?;
    assert!(rt; worker.join(&rt));
    assert!(rt; next(&rt, &mut last) == Some(name(1)));
    assert!(rt; next(&rt, &mut last) == None);
    drop(queue);
    Ok(())
}

#[test]
fn a_queue_that_nobody_used_closes_with_no_entry(rt: HostRuntime) -> Result<(), Fail> {
    let (queue, posts) = LoopQueue::open(rt.alloc(), 32)?;
    assert!(rt; LoopQueue::close(&rt, queue, posts) == 0);
    Ok(())
}
